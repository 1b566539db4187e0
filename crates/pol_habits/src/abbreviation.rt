//! Command words that Cisco IOS expands before it asks, by their commonest abbreviations.

ghost use Rattle.std.specs.Prelude.{Some};
ghost use Rattle.pol_habits.specs.Questions.{expansion_text};

use std::fmt;

/// Command words as people abbreviate them, and as a device sends them.
#[derive(Clone, Copy)]
pub struct Abbreviation {
    short: &'static str,
    full: &'static str,
}

impl fmt::Display for Abbreviation {
    ghost output = { λ words. Some (expansion_text words) };

    fn fmt<W: fmt::Write>(&self, f: &mut fmt::Formatter<W>) -> fmt::Result {
        let Abbreviation { short, full } = self;
        write!(f, "'{short}' to '{full}'")
    }
}

/// Of two that begin alike the longer one comes first.
const KNOWN: [(&str, &str); 28] = [
    ("conf t", "configure terminal"),
    ("config t", "configure terminal"),
    ("configure t", "configure terminal"),
    ("conf", "configure"),
    ("config", "configure"),
    ("sh run", "show running-config"),
    ("show run", "show running-config"),
    ("show start", "show startup-config"),
    ("show ver", "show version"),
    ("show int", "show interfaces"),
    ("show ip int", "show ip interface"),
    ("show log", "show logging"),
    ("sh", "show"),
    ("int", "interface"),
    ("no int", "no interface"),
    ("wr mem", "write memory"),
    ("write mem", "write memory"),
    ("wr", "write"),
    ("copy run start", "copy running-config startup-config"),
    ("term len", "terminal length"),
    ("terminal len", "terminal length"),
    ("term", "terminal"),
    ("no shut", "no shutdown"),
    ("shut", "shutdown"),
    ("desc", "description"),
    ("deb", "debug"),
    ("undeb", "undebug"),
    ("trace", "traceroute"),
];

// The pattern begins with these words, whole: it ends there, or goes on with a space or with a part
// in parentheses that begins with one.
fn begins_with(pattern: &[u8], words: &str) -> bool {
    match pattern.strip_prefix(words.as_bytes()) {
        Some(rest) => rest.is_empty() || rest.starts_with(b" ") || rest.starts_with(b"( "),
        None => false,
    }
}

/// The abbreviation that a pattern's first words are, if they are one: whole words, as they stand.
pub(crate) fn abbreviation_in(pattern: &[u8]) -> Option<Abbreviation> {
    for (short, full) in KNOWN {
        if begins_with(pattern, short) {
            return Some(Abbreviation { short, full });
        }
    }
    None
}

//! What is wrong with a name that is invalid, and where.

ghost use Rattle.std.specs.Prelude.{◌≡◌, Some};
ghost use Rattle.pol_words.specs.FindingText.{name_text};
ghost use Rattle.pol_words.specs.Plain.{plain_finding};
ghost use Rattle.pol_words.specs.declared.finding.Finding.TheVariants.{Refused};
ghost use Rattle.pol_text.specs.declared.fault.PolicyRefusal.TheVariants.{BadName};

use crate::finding::Finding;
use crate::remark::Found;
use crate::words::{Keyword, parent_text, words_of};
use pol_names::Name;
use std::fmt;

/// What is wrong with a name, or with a service. Of several the first is told.
#[derive(Clone, Copy)]
pub enum NameReason {
    /// It has no bytes.
    Missing,
    /// It has a byte that may not stand in a name.
    Byte,
    /// A service is no name, nor a name and a protocol.
    Service,
    /// It has more than 32 bytes.
    Long,
}

impl fmt::Display for NameReason {
    ghost output = { λ reason. Some (name_text reason) };

    fn fmt<W: fmt::Write>(&self, f: &mut fmt::Formatter<W>) -> fmt::Result {
        f.write_str(self.text())
    }
}

impl NameReason {
    fn text(&self) -> &'static str
        ensures { result.now ≡ name_text self.now }
    {
        match self {
            NameReason::Missing => "a name is missing: words are set apart by one space",
            NameReason::Byte => "this byte may not stand in a name: A-Z a-z 0-9 _ - . @ may",
            NameReason::Service => {
                "a service is NAME or NAME/PROTOCOL, and 'shell' has no protocol"
            }
            NameReason::Long => "a name has at most 32 bytes",
        }
    }
}

fn is_name_byte(byte: u8) -> bool {
    matches!(byte, b'A'..=b'Z' | b'a'..=b'z' | b'0'..=b'9' | b'_' | b'-' | b'.' | b'@')
}

// Whether the byte may stand in what a line of this keyword names.
fn may_stand(says: Keyword, byte: u8) -> bool {
    match says {
        Keyword::Service => is_name_byte(byte) || byte == b'/',
        _ => is_name_byte(byte),
    }
}

// What comes from the first byte on that may not stand there.
fn from_bad(says: Keyword, text: &[u8]) -> &[u8] {
    let bad = text.iter().position(|byte| !may_stand(says, *byte));
    match bad {
        Some(place) => &text[place..],
        None => &[],
    }
}

// The line's end from the name on that is invalid: the subject's, or where that is right its
// parent's; or the service.
fn from_name(says: Keyword, rest: &[u8]) -> &[u8] {
    let (name, _) = words_of(rest);
    match says {
        Keyword::Opens(_) if Name::read(name).is_some() => parent_text(rest),
        _ => rest,
    }
}

// What is wrong with a name whose bytes may all stand in it.
fn whole_reason(says: Keyword) -> NameReason {
    match says {
        Keyword::Service => NameReason::Service,
        _ => NameReason::Long,
    }
}

// Where that is told, and what is wrong: at the byte, where one may not stand there, and else at
// the name.
fn name_told(says: Keyword, from: &[u8]) -> (&[u8], NameReason) {
    let (name, _) = words_of(from);
    if name.is_empty() {
        return (from, NameReason::Missing);
    }
    match from_bad(says, from) {
        // what ends the name
        [] | [b' ', ..] => (from, whole_reason(says)),
        bad => (bad, NameReason::Byte),
    }
}

/// Where the invalid name of a line is, and what is wrong with it, by what the line says and what
/// comes after its first word.
pub fn name_found(line: &[u8], says: Keyword, rest: &[u8]) -> Found
    // It is told that the line is refused as BadName.
    ensures { plain_finding result.finding ≡ Refused BadName }
{
    let (end, reason) = name_told(says, from_name(says, rest));
    Found::at(line, end, Finding::BadName(reason))
}

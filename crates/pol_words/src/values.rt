//! What is wrong with a value that is invalid.

ghost use Rattle.std.specs.Prelude.{◌≡◌, Some};
ghost use Rattle.pol_words.specs.FindingText.{value_text};

use crate::words::{Keyword, words_of};
use std::fmt;

/// What is wrong with a secret, a hash, a level or what is said of a service.
#[derive(Clone, Copy)]
pub enum ValueReason {
    /// A secret is empty or too long.
    Secret,
    /// A hash isn't one of those that are taken.
    Hash,
    /// A level is no number, or too large a one.
    Level,
    /// A shell is refused as other services are.
    ShellRefused,
    /// A shell is given its level as an attribute.
    ShellLevel,
    /// An attribute isn't a name, a sign and a value, or is too long.
    Attribute,
}

impl ValueReason {
    fn text(&self) -> &'static str
        ensures { result.now ≡ value_text self.now }
    {
        match self {
            ValueReason::Secret => "a password has 1 to 128 symbols",
            ValueReason::Hash => {
                "only a hash that 'openssl passwd -6' makes is taken, without quotes"
            }
            ValueReason::Level => "a level is a number from 0 to 15",
            ValueReason::ShellRefused => "a shell is refused by a rule, as by 'deny ()'",
            ValueReason::ShellLevel => "the level of a shell is set by 'priv N'",
            ValueReason::Attribute => {
                "an attribute is NAME=VALUE or NAME*VALUE, of at most 255 symbols"
            }
        }
    }
}

impl fmt::Display for ValueReason {
    ghost output = { λ reason. Some (value_text reason) };

    fn fmt<W: fmt::Write>(&self, f: &mut fmt::Formatter<W>) -> fmt::Result {
        f.write_str(self.text())
    }
}

// An attribute that says a level.
fn is_level(attribute: &[u8]) -> bool {
    attribute.starts_with(b"priv-lvl=") || attribute.starts_with(b"priv-lvl*")
}

fn service_reason(word: &[u8], rest: &[u8]) -> ValueReason {
    let (service, attribute) = words_of(rest);
    if word == b"refuse".as_slice() {
        return ValueReason::ShellRefused;
    }
    if service == b"shell".as_slice() && is_level(attribute) {
        return ValueReason::ShellLevel;
    }
    ValueReason::Attribute
}

/// What is wrong with the value of a line that begins with this word, which says this.
pub fn value_reason(word: &[u8], says: Keyword, rest: &[u8]) -> ValueReason {
    match says {
        Keyword::Secret => ValueReason::Secret,
        Keyword::Hash => ValueReason::Hash,
        Keyword::Service => service_reason(word, rest),
        _ => ValueReason::Level,
    }
}

//! What is told of a line.

use crate::address::AddressFault;
use crate::beginning::Beginning;
use crate::odd::OddByte;
use crate::value::ValueFault;
use crate::whole::WholeFault;
use std::fmt;
use tac_devices::{KeyDoubt, Remark as Doubt};

/// What keeps a line from being read, or is right and probably not meant.
#[derive(Clone, Copy)]
pub enum Finding {
    /// A byte is no symbol.
    Odd(OddByte),
    /// No line begins so.
    Beginning(Beginning),
    /// Its value isn't one.
    Value(ValueFault),
    /// Its value isn't an address or a prefix.
    Address(AddressFault),
    /// It can't stand among the other lines.
    Whole(WholeFault),
    /// It may stand, and is remarked on.
    Doubt(Doubt),
    /// So much is told of earlier lines that this one and those after it aren't looked at.
    Enough,
}

// What is asked about a doubtful key.
fn question(doubt: KeyDoubt) -> &'static str {
    match doubt {
        KeyDoubt::BlankAtEnd | KeyDoubt::OneCharacter => "is that meant?",
        KeyDoubt::Quoted => "is the key without them meant?",
        KeyDoubt::Comment => "a comment has a line of its own",
        KeyDoubt::Assignment => "is 'key TEXT' meant?",
        KeyDoubt::Type7 => "is the key that it hides meant?",
    }
}

// How a doubt is told.
fn write_doubt<W: fmt::Write>(f: &mut fmt::Formatter<W>, doubt: &Doubt) -> fmt::Result {
    match doubt {
        Doubt::SameKey { first, .. } => {
            write!(f, "the key of line {first}: is one of its own meant?")
        }
        Doubt::ShortKey { size, .. } => {
            write!(f, "a key of {size} characters: RFC 8907 wants at least 16")
        }
        Doubt::Doubtful { doubt, .. } => write!(f, "{doubt}: {}", question(*doubt)),
        Doubt::OldKeyBesideTls { tls, .. } => {
            write!(
                f,
                "an old key beside the 'tls' of line {tls}: is it still needed?"
            )
        }
        Doubt::SameName { first, .. } => {
            write!(
                f,
                "the common name of line {first}: is one of its own meant?"
            )
        }
    }
}

impl fmt::Display for Finding {
    fn fmt<W: fmt::Write>(&self, f: &mut fmt::Formatter<W>) -> fmt::Result {
        match self {
            Finding::Odd(byte) => write!(f, "{byte}"),
            Finding::Beginning(beginning) => write!(f, "{beginning}"),
            Finding::Value(fault) => write!(f, "{fault}"),
            Finding::Address(fault) => write!(f, "{fault}"),
            Finding::Whole(fault) => write!(f, "{fault}"),
            Finding::Doubt(doubt) => write_doubt(f, doubt),
            Finding::Enough => {
                f.write_str("this line and those after it aren't looked at: mend the others first")
            }
        }
    }
}

//! Lines that are right by themselves, and can't stand among the others.

use crate::word::LineWord;
use std::fmt;
use tac_devices::DevicesRefusal;

/// Why a line can't stand among the others.
#[derive(Clone, Copy)]
pub enum WholeFault {
    /// No device begins before it.
    NoDevice,
    /// A device of its name begins at this line.
    SameName(usize),
    /// This line has the same addresses.
    SamePrefix(usize),
    /// This line of its device begins with the same word.
    SameWord {
        word: LineWord,
        first: usize,
    },
    /// This line of its device has the same key.
    SameKey(usize),
    /// There are as many devices as there may be.
    TooManyDevices,
    /// There are as many addresses and prefixes as there may be.
    TooManyPrefixes,
    /// The device that begins here has nothing that lets it in.
    NoKey,
    /// The device that begins here has no address.
    NoAddress,
    /// It is refused so, at this line.
    Refused {
        line: usize,
        refusal: DevicesRefusal,
    },
}

impl fmt::Display for WholeFault {
    fn fmt<W: fmt::Write>(&self, f: &mut fmt::Formatter<W>) -> fmt::Result {
        match self {
            WholeFault::NoDevice => f.write_str(
                "no device begins before this line: is a line 'device NAME' missing?",
            ),
            WholeFault::SameName(first) => {
                write!(f, "a device of this name begins at line {first} already")
            }
            WholeFault::SamePrefix(first) => write!(f, "line {first} has these addresses already"),
            WholeFault::SameWord { word, first } => {
                write!(
                    f,
                    "a second '{word}' of its device: the first is at line {first}"
                )
            }
            WholeFault::SameKey(first) => {
                write!(
                    f,
                    "the key of line {first}: a device's key and its old one differ"
                )
            }
            WholeFault::TooManyDevices => f.write_str("more than 4096 devices"),
            WholeFault::TooManyPrefixes => f.write_str("more than 16384 lines 'at'"),
            WholeFault::NoKey => f.write_str(
                "this device has neither 'key' nor 'tls', or an 'old-key' and no 'key'",
            ),
            WholeFault::NoAddress => f.write_str("this device has no line 'at'"),
            WholeFault::Refused { line, refusal } => write!(f, "line {line} is refused: {refusal}"),
        }
    }
}

//! Why a file isn't one of tac_plus.

use std::alloc::{AllocError, AllocFailed};
use std::fmt;

/// What is wrong at a line.
#[derive(Clone, Copy, Debug, PartialEq, Eq)]
pub enum Mistake {
    NoEquals,
    NoOpen,
    NoWord,
    NoVerdict,
    NoMethod,
    NoSetting,
    OpenQuote,
    OpenBrace,
    CarriageReturn,
    CutWord,
    Include,
    /// It is a file of tac_plus-ng.
    TacPlusNg,
    /// It is a file of the tac_plus before tac_plus-ng, by the same author.
    OtherTacPlus,
    /// It is there already, at this line.
    Repeated(usize),
}

impl fmt::Display for Mistake {
    fn fmt<W: fmt::Write>(&self, f: &mut fmt::Formatter<W>) -> fmt::Result {
        match self {
            Mistake::NoEquals => f.write_str("an '=' is missing here"),
            Mistake::NoOpen => f.write_str("a '{' is missing here"),
            Mistake::NoWord => f.write_str("a word is missing here"),
            Mistake::NoVerdict => f.write_str("'permit' or 'deny' is missing here"),
            Mistake::NoMethod => f.write_str("this is no kind of password"),
            Mistake::NoSetting => f.write_str("tac_plus F4.0.4 has no such setting here"),
            Mistake::OpenQuote => f.write_str("this quotation mark is never closed"),
            Mistake::OpenBrace => f.write_str("the file ends before its '}'"),
            Mistake::CarriageReturn => f.write_str(
                "a carriage return: lines are to end in LF alone",
            ),
            Mistake::CutWord => f.write_str(
                "an '=' ends a word: put this hash or password into quotation marks",
            ),
            Mistake::Include => {
                f.write_str("tac_plus F4.0.4 reads no other file: put them into one first")
            }
            Mistake::TacPlusNg => f.write_str(
                "this is a configuration of tac_plus-ng, which isn't read: docs/MOVING.md",
            ),
            Mistake::OtherTacPlus => f.write_str(
                "this is a configuration of another tac_plus, by its 'id', which isn't read: docs/MOVING.md",
            ),
            Mistake::Repeated(line) => write!(f, "this is there already, at line {line}"),
        }
    }
}

/// Why nothing was read.
#[derive(Clone, Copy, Debug, PartialEq, Eq)]
pub enum FileFault {
    Wrong { line: usize, mistake: Mistake },
    Memory,
}

impl From<AllocError> for FileFault {
    fn from(_error: AllocError) -> FileFault {
        FileFault::Memory
    }
}

impl<T: Drop> From<AllocFailed<T>> for FileFault {
    fn from(_error: AllocFailed<T>) -> FileFault {
        FileFault::Memory
    }
}

//! Why bytes are no pattern.

ghost use Rattle.std.specs.Prelude.{◌≡◌, ◌++◌, Some};
ghost use Rattle.pol_pattern.specs.declared.fault.PatternFault.TheVariants.{Memory};
ghost use Rattle.pol_pattern.specs.FaultText.{fault_text, place_of, place_text};

use std::alloc::{AllocError, AllocFailed};
use std::error::Error;
use std::fmt;

/// What is wrong with the bytes, and where: places are counted from 0.
#[derive(Clone, Copy, Debug, PartialEq, Eq)]
pub enum PatternFault {
    /// There are more than 400 bytes, or 200 in version 1.
    TooLong,
    /// The byte is no symbol.
    Unprintable(usize),
    /// The `(` is never closed.
    Unclosed(usize),
    /// The `)` closes nothing.
    Unopened(usize),
    /// The `*`, `+`, `?` or `{` has nothing before it.
    NothingToRepeat(usize),
    /// The class that begins here is empty, isn't closed, or has a wrong item.
    BadClass(usize),
    /// No symbol follows the `\`.
    BadEscape(usize),
    /// More than 32 parentheses are open at once.
    TooDeep,
    /// The pattern has more than 400 factors.
    TooLarge,
    /// Memory ran out.
    Memory,
    /// The `{` begins no counts, or the `}` ends none.
    BadRepeat(usize),
}

impl PatternFault {
    // The kind's number and name.
    fn name(&self) -> &'static str
        ensures { fault_text self.now ≡ result.now ++ place_text (place_of self.now) }
    {
        match self {
            PatternFault::TooLong => "1 TooLong",
            PatternFault::Unprintable(_) => "2 Unprintable",
            PatternFault::Unclosed(_) => "3 Unclosed",
            PatternFault::Unopened(_) => "4 Unopened",
            PatternFault::NothingToRepeat(_) => "5 NothingToRepeat",
            PatternFault::BadClass(_) => "6 BadClass",
            PatternFault::BadEscape(_) => "7 BadEscape",
            PatternFault::TooDeep => "8 TooDeep",
            PatternFault::TooLarge => "9 TooLarge",
            PatternFault::Memory => "10 Memory",
            PatternFault::BadRepeat(_) => "11 BadRepeat",
        }
    }

    // The place in the bytes, where the fault has one.
    fn place(&self) -> Option<usize>
        ensures { result ≡ place_of self.now }
    {
        match self {
            PatternFault::Unprintable(place)
            | PatternFault::Unclosed(place)
            | PatternFault::Unopened(place)
            | PatternFault::NothingToRepeat(place)
            | PatternFault::BadClass(place)
            | PatternFault::BadEscape(place)
            | PatternFault::BadRepeat(place) => Some(*place),
            _ => None,
        }
    }
}

impl fmt::Display for PatternFault {
    ghost output = { λ fault. Some (fault_text fault) };

    fn fmt<W: fmt::Write>(&self, f: &mut fmt::Formatter<W>) -> fmt::Result {
        f.write_str(self.name())?;
        match self.place() {
            Some(place) => write!(f, " at {place}"),
            None => Ok(()),
        }
    }
}

impl Error for PatternFault {}

impl From<AllocError> for PatternFault {
    ghost from_gives = { λ _ e. e ≡ Memory };

    fn from(_e: AllocError) -> PatternFault {
        PatternFault::Memory
    }
}

impl<T: Drop> From<AllocFailed<T>> for PatternFault {
    ghost from_gives = { λ _ e. e ≡ Memory };

    fn from(_e: AllocFailed<T>) -> PatternFault {
        PatternFault::Memory
    }
}

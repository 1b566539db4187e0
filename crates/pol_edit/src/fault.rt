//! Why an edit is refused.

ghost use Rattle.std.specs.Prelude.{◌≡◌, Some};
ghost use Rattle.pol_edit.specs.declared.fault.EditFault.TheVariants.{Memory};
ghost use Rattle.pol_edit.specs.FaultText.{fault_text};

use pol_names::SubjectId;
use pol_pattern::PatternFault;
use std::alloc::{AllocError, AllocFailed};
use std::error::Error;
use std::fmt;

/// Why an edit is refused, the first that fits in this order.
#[derive(Clone, Copy, Debug, PartialEq, Eq)]
pub enum EditFault {
    /// The line is no edit.
    BadEdit,
    /// The subject, or the group that is to be its parent, is not there.
    NoSuch,
    /// The subject is there already.
    Exists,
    /// The group is the parent of a subject.
    InUse,
    /// A chain wouldn't end.
    Cycle,
    /// A chain would have more than 8 subjects.
    TooDeep,
    /// There is no rule of this number.
    BadIndex,
    /// The rule's pattern is invalid.
    BadPattern(PatternFault),
    /// The secret is empty, has more than 128 symbols, or has a byte that is no symbol; or the
    /// level is over 15.
    BadValue,
    /// There would be more than 1,024 subjects, or more than 256 rules of the subject.
    Limit,
    /// The subject's rules and those along its chain have too many residuals.
    TooManyStates(SubjectId),
    /// Memory ran out.
    Memory,
}

impl fmt::Display for EditFault {
    ghost output = { λ fault. Some (fault_text fault) };

    fn fmt<W: fmt::Write>(&self, f: &mut fmt::Formatter<W>) -> fmt::Result {
        match self {
            EditFault::BadEdit => write!(f, "1 BadEdit"),
            EditFault::NoSuch => write!(f, "2 NoSuch"),
            EditFault::Exists => write!(f, "3 Exists"),
            EditFault::InUse => write!(f, "4 InUse"),
            EditFault::Cycle => write!(f, "5 Cycle"),
            EditFault::TooDeep => write!(f, "6 TooDeep"),
            EditFault::BadIndex => write!(f, "7 BadIndex"),
            EditFault::BadPattern(fault) => write!(f, "8 BadPattern {fault}"),
            EditFault::BadValue => write!(f, "9 BadValue"),
            EditFault::Limit => write!(f, "10 Limit"),
            EditFault::TooManyStates(subject) => write!(f, "11 TooManyStates {subject}"),
            EditFault::Memory => write!(f, "12 Memory"),
        }
    }
}

impl Error for EditFault {}

impl From<AllocError> for EditFault {
    ghost from_gives = { λ _ fault. fault ≡ Memory };

    fn from(_error: AllocError) -> EditFault {
        EditFault::Memory
    }
}

impl<T: Drop> From<AllocFailed<T>> for EditFault {
    ghost from_gives = { λ _ fault. fault ≡ Memory };

    fn from(_error: AllocFailed<T>) -> EditFault {
        EditFault::Memory
    }
}

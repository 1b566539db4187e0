//! Why a text is no policy.

ghost use Rattle.std.specs.Prelude.{◌≡◌, ◌++◌, Some};
ghost use Rattle.pol_text.specs.FaultText.{refusal_text, reason_text, fault_text};
ghost use Rattle.pol_text.specs.declared.fault.PolicyFault.TheVariants.{Memory};
ghost use Rattle.pol_text.specs.declared.fault.LineFault.TheVariants as lines;

use pol_pattern::PatternFault;
use std::alloc::{AllocError, AllocFailed};
use std::error::Error;
use std::fmt;

/// What is wrong with a line, or with the subject that begins there.
#[derive(Clone, Copy, Debug, PartialEq, Eq)]
pub enum PolicyRefusal {
    /// The line isn't a line of a policy.
    BadLine,
    /// A field that should be a name isn't one.
    BadName,
    /// The subject is there already, or has this setting already.
    Repeated,
    /// No subject begins before the line.
    NoSubject,
    /// The rule's pattern is invalid.
    BadPattern(PatternFault),
    /// The secret is empty or has more than 128 symbols, or the level isn't a number up to 15.
    BadValue,
    /// The subject's parent is no group of the policy.
    NoSuchParent,
    /// The subject's chain doesn't end.
    Cycle,
    /// The subject's chain has more than 8 subjects.
    TooDeep,
    /// There are more than 1,024 subjects, or more than 256 rules of a subject.
    Limit,
}

impl PolicyRefusal {
    // The kind's number and name.
    fn name(&self) -> &'static str
        ensures { refusal_text self.now ≡ result.now ++ reason_text self.now }
    {
        match self {
            PolicyRefusal::BadLine => "1 BadLine",
            PolicyRefusal::BadName => "2 BadName",
            PolicyRefusal::Repeated => "3 Repeated",
            PolicyRefusal::NoSubject => "4 NoSubject",
            PolicyRefusal::BadPattern(_) => "5 BadPattern",
            PolicyRefusal::BadValue => "6 BadValue",
            PolicyRefusal::NoSuchParent => "7 NoSuchParent",
            PolicyRefusal::Cycle => "8 Cycle",
            PolicyRefusal::TooDeep => "9 TooDeep",
            PolicyRefusal::Limit => "10 Limit",
        }
    }
}

impl fmt::Display for PolicyRefusal {
    ghost output = { λ refusal. Some (refusal_text refusal) };

    fn fmt<W: fmt::Write>(&self, f: &mut fmt::Formatter<W>) -> fmt::Result {
        f.write_str(self.name())?;
        match self {
            PolicyRefusal::BadPattern(fault) => write!(f, " {fault}"),
            _ => Ok(()),
        }
    }
}

impl Error for PolicyRefusal {}

/// Why a text was not read.
#[derive(Clone, Copy, Debug, PartialEq, Eq)]
pub enum PolicyFault {
    /// The line, counted from 1, and what is wrong there.
    Refused { line: usize, refusal: PolicyRefusal },
    /// Memory ran out.
    Memory,
}

impl fmt::Display for PolicyFault {
    ghost output = { λ fault. Some (fault_text fault) };

    fn fmt<W: fmt::Write>(&self, f: &mut fmt::Formatter<W>) -> fmt::Result {
        match self {
            PolicyFault::Refused { line, refusal } => write!(f, "line {line}: {refusal}"),
            PolicyFault::Memory => write!(f, "11 Memory"),
        }
    }
}

impl Error for PolicyFault {}

impl From<AllocError> for PolicyFault {
    ghost from_gives = { λ _ fault. fault ≡ Memory };

    fn from(_error: AllocError) -> PolicyFault {
        PolicyFault::Memory
    }
}

impl<T: Drop> From<AllocFailed<T>> for PolicyFault {
    ghost from_gives = { λ _ fault. fault ≡ Memory };

    fn from(_error: AllocFailed<T>) -> PolicyFault {
        PolicyFault::Memory
    }
}

/// What is wrong with the chains of a policy.
#[derive(Clone, Copy, Debug, PartialEq, Eq)]
pub enum ChainFault {
    /// A chain doesn't end.
    Cycle,
    /// A chain has more than 8 subjects.
    TooDeep,
}

/// Why a line was not read.
#[derive(Clone, Copy, PartialEq, Eq)]
pub(crate) enum LineFault {
    Refused(PolicyRefusal),
    Memory,
}

impl From<PolicyRefusal> for LineFault {
    ghost from_gives = { λ refusal fault. fault ≡ lines.Refused refusal };

    fn from(refusal: PolicyRefusal) -> LineFault {
        LineFault::Refused(refusal)
    }
}

impl From<AllocError> for LineFault {
    ghost from_gives = { λ _ fault. fault ≡ lines.Memory };

    fn from(_error: AllocError) -> LineFault {
        LineFault::Memory
    }
}

impl<T: Drop> From<AllocFailed<T>> for LineFault {
    ghost from_gives = { λ _ fault. fault ≡ lines.Memory };

    fn from(_error: AllocFailed<T>) -> LineFault {
        LineFault::Memory
    }
}

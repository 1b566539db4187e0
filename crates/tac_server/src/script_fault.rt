//! What can be wrong with a script, and at which line.

ghost use Rattle.std.specs.Prelude.{◌≡◌, Some};
ghost use Rattle.tac_server.specs.declared.script_fault.Stop.TheVariants.{Memory};

use pol_names::SubjectId;
use pol_text::PolicyRefusal;
use std::alloc::{AllocError, AllocFailed};
use std::fmt;

#[derive(Clone, Copy, PartialEq, Eq)]
pub(crate) enum ScriptFault {
    BadKey,
    NoRun,
    BadPolicy(PolicyRefusal),
    TooManyStates(SubjectId),
    BadCommand,
    NoConnection,
    AlreadyOpen,
}

/// A fault with its line, counted from 1. A policy that is too large is so as a whole: that has
/// none.
#[derive(Clone, Copy, PartialEq, Eq)]
pub(crate) struct Located {
    pub(crate) line: Option<usize>,
    pub(crate) fault: ScriptFault,
}

/// Why a replay goes no further.
#[derive(Clone, Copy, PartialEq, Eq)]
pub(crate) enum Stop {
    Memory,
    Fault(Located),
}

impl Stop {
    /// The stop at a line that has this fault.
    pub(crate) fn at(line: usize, fault: ScriptFault) -> Stop
        ensures { result ≡ Stop.Fault (record { line = Some line; fault = fault }) }
    {
        Stop::Fault(Located {
            line: Some(line),
            fault,
        })
    }
}

impl fmt::Display for ScriptFault {
    ghost use Rattle.tac_server.specs.FaultText.{script_fault_text};

    ghost output = { λ fault. Some (script_fault_text fault) };

    fn fmt<W: fmt::Write>(&self, f: &mut fmt::Formatter<W>) -> fmt::Result {
        match self {
            ScriptFault::BadKey => write!(f, "BadKey"),
            ScriptFault::NoRun => write!(f, "NoRun"),
            ScriptFault::BadPolicy(refusal) => write!(f, "{refusal}"),
            ScriptFault::TooManyStates(subject) => write!(f, "TooManyStates {subject}"),
            ScriptFault::BadCommand => write!(f, "BadCommand"),
            ScriptFault::NoConnection => write!(f, "NoConnection"),
            ScriptFault::AlreadyOpen => write!(f, "AlreadyOpen"),
        }
    }
}

impl fmt::Display for Located {
    ghost use Rattle.tac_server.specs.FaultText.{located_text};

    ghost output = { λ at. Some (located_text at) };

    fn fmt<W: fmt::Write>(&self, f: &mut fmt::Formatter<W>) -> fmt::Result {
        let fault = self.fault;
        match self.line {
            Some(line) => write!(f, "fault line {line} {fault}"),
            None => write!(f, "fault {fault}"),
        }
    }
}

impl From<AllocError> for Stop {
    ghost from_gives = { λ _ stop. stop ≡ Memory };

    fn from(_error: AllocError) -> Stop {
        Stop::Memory
    }
}

impl<T: Drop> From<AllocFailed<T>> for Stop {
    ghost from_gives = { λ _ stop. stop ≡ Memory };

    fn from(_error: AllocFailed<T>) -> Stop {
        Stop::Memory
    }
}

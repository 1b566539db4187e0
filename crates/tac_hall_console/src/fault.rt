//! Why a console fails.

ghost use Rattle.std.specs.Prelude.{◌≡◌, Some};
ghost use Rattle.tac_hall_console.specs.FaultText.{fault_text};
ghost use Rattle.tac_hall_console.specs.declared.fault.OperatorFault.TheVariants.{Memory};

use std::alloc::{AllocError, AllocFailed};
use std::error::Error;
use std::fmt;

/// Why a console failed before `quit` or the end of its input.
#[derive(Clone, Copy, Debug, PartialEq, Eq)]
pub enum OperatorFault {
    /// The input could not be read.
    ReadFault,
    /// An answer could not be written whole.
    WriteFault,
    /// Memory ran out.
    Memory,
}

impl fmt::Display for OperatorFault {
    ghost output = { λ fault. Some (fault_text fault) };

    fn fmt<W: fmt::Write>(&self, f: &mut fmt::Formatter<W>) -> fmt::Result {
        match self {
            OperatorFault::ReadFault => write!(f, "the console could not be read"),
            OperatorFault::WriteFault => write!(f, "an answer could not be written"),
            OperatorFault::Memory => write!(f, "memory ran out"),
        }
    }
}

impl Error for OperatorFault {}

impl From<AllocError> for OperatorFault {
    ghost from_gives = { λ _ fault. fault ≡ Memory };

    fn from(_error: AllocError) -> OperatorFault {
        OperatorFault::Memory
    }
}

impl<T: Drop> From<AllocFailed<T>> for OperatorFault {
    ghost from_gives = { λ _ fault. fault ≡ Memory };

    fn from(_error: AllocFailed<T>) -> OperatorFault {
        OperatorFault::Memory
    }
}

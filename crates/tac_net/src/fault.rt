//! Why a server ended other than by its console.

ghost use Rattle.std.specs.Prelude.{◌≡◌};
ghost use Rattle.tac_net.specs.Opening.{IsUnready};
ghost use Rattle.tac_net.specs.Program.{fault_by};
ghost use Rattle.tac_net.specs.declared.fault.ServeFault.TheVariants.{Memory};

use std::alloc::{AllocError, AllocFailed};
use std::io::{self, ErrorKind};
use tac_hall_console::OperatorFault;
use thiserror::Error;

/// Why a server ended other than by its console.
#[derive(Clone, Copy, Debug, PartialEq, Eq, Error)]
pub enum ServeFault {
    /// The console could not be read.
    #[error("the console could not be read")]
    ReadFault,
    /// What is printed could not be written whole.
    #[error("the output could not be written")]
    WriteFault,
    /// Memory ran out.
    #[error("memory ran out")]
    Memory,
    /// A worker has no thread.
    #[error("a thread could not be made")]
    Threads,
    /// The system has no file descriptor for what a worker waits with.
    #[error("there are too few file descriptors for the workers")]
    Descriptors,
    /// A seat of the desk is missing, and `close refused` was printed.
    #[error("the desk could not be closed")]
    CloseRefused,
}

impl From<AllocError> for ServeFault {
    ghost from_gives = { λ _ fault. fault ≡ Memory };

    fn from(_error: AllocError) -> ServeFault {
        ServeFault::Memory
    }
}

impl<T: Drop> From<AllocFailed<T>> for ServeFault {
    ghost from_gives = { λ _ fault. fault ≡ Memory };

    fn from(_error: AllocFailed<T>) -> ServeFault {
        ServeFault::Memory
    }
}

impl From<io::Error> for ServeFault {
    ghost from_gives = { λ _ fault. IsUnready fault };

    fn from(error: io::Error) -> ServeFault {
        match error.kind() {
            ErrorKind::OutOfMemory => ServeFault::Memory,
            _ => ServeFault::Descriptors,
        }
    }
}

impl From<OperatorFault> for ServeFault {
    ghost from_gives = { λ error fault. fault ≡ fault_by error };

    fn from(fault: OperatorFault) -> ServeFault {
        match fault {
            OperatorFault::ReadFault => ServeFault::ReadFault,
            OperatorFault::WriteFault => ServeFault::WriteFault,
            OperatorFault::Memory => ServeFault::Memory,
        }
    }
}

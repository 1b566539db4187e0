//! How a connection ends.

ghost use Rattle.std.specs.Prelude.{◌≡◌};
ghost use Rattle.tac_worker.specs.Worked.{end_by};
ghost use Rattle.tac_worker.specs.declared.end.End.TheVariants.{Memory, Unwitnessed};

use std::alloc::{AllocError, AllocFailed};
use tac_audit::Refused;
use tac_hall::HallFault;

/// How the serving of a connection ended.
#[derive(Clone, Copy, Debug, PartialEq, Eq)]
pub enum End {
    /// The reader had nothing left.
    Finished,
    /// The protocol closes the connection.
    ByProtocol,
    /// There was a Stop before the next call.
    Stopped,
    /// The log was full before the next call.
    LogFull,
    /// Memory ran out.
    Memory,
    /// The reader failed.
    ReadFault,
    /// The witness refused what it was told; nothing of its reply was written.
    Unwitnessed,
    /// There was no seat for the next call.
    NoSeat,
}

impl From<AllocError> for End {
    ghost from_gives = { λ _ end. end ≡ Memory };

    fn from(_error: AllocError) -> End {
        End::Memory
    }
}

impl<T: Drop> From<AllocFailed<T>> for End {
    ghost from_gives = { λ _ end. end ≡ Memory };

    fn from(_error: AllocFailed<T>) -> End {
        End::Memory
    }
}

impl From<Refused> for End {
    ghost from_gives = { λ _ end. end ≡ Unwitnessed };

    fn from(_error: Refused) -> End {
        End::Unwitnessed
    }
}

impl From<HallFault> for End {
    ghost from_gives = { λ fault end. end ≡ end_by fault };

    fn from(fault: HallFault) -> End {
        match fault {
            HallFault::LogFull => End::LogFull,
            HallFault::Memory => End::Memory,
            HallFault::Closed => End::Stopped,
            HallFault::NoSeat => End::NoSeat,
        }
    }
}

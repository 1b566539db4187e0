//! Why a hall takes no call, or has no seat.

ghost use Rattle.std.specs.Prelude.{◌≡◌, Some};
ghost use Rattle.tac_hall.specs.declared.fault.HallFault.TheVariants.{Memory};
ghost use Rattle.tac_hall.specs.FaultText.{fault_text};

use std::alloc::{AllocError, AllocFailed};
use std::error::Error;
use std::fmt;

/// Why a hall takes no call, has no seat, or isn't rotated. Closed is judged first, then LogFull,
/// then Memory. Their numbers follow those of the refusals of edits, of which Memory is one.
#[derive(Clone, Copy, Debug, PartialEq, Eq)]
pub enum HallFault {
    /// The log has as many calls as it may have; or, of a rotation, no number is left.
    LogFull,
    /// Memory ran out for the answer to an ask.
    Memory,
    /// There was a Stop.
    Closed,
    /// All seats were made.
    NoSeat,
}

impl fmt::Display for HallFault {
    ghost output = { λ fault. Some (fault_text fault) };

    fn fmt<W: fmt::Write>(&self, f: &mut fmt::Formatter<W>) -> fmt::Result {
        match self {
            HallFault::LogFull => write!(f, "13 LogFull"),
            HallFault::Memory => write!(f, "12 Memory"),
            HallFault::Closed => write!(f, "14 Closed"),
            HallFault::NoSeat => write!(f, "15 NoSeat"),
        }
    }
}

impl Error for HallFault {}

impl From<AllocError> for HallFault {
    ghost from_gives = { λ _ fault. fault ≡ Memory };

    fn from(_error: AllocError) -> HallFault {
        HallFault::Memory
    }
}

impl<T: Drop> From<AllocFailed<T>> for HallFault {
    ghost from_gives = { λ _ fault. fault ≡ Memory };

    fn from(_error: AllocFailed<T>) -> HallFault {
        HallFault::Memory
    }
}

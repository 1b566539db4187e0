//! Why a scan gives up.

ghost use Rattle.std.specs.Prelude.{◌≡◌};
ghost use Rattle.pol_scan.specs.declared.fault.ScanFault.TheVariants.{Memory};

use std::alloc::{AllocError, AllocFailed};

/// Why a scan gives up.
#[derive(Clone, Copy, Debug, PartialEq, Eq)]
pub enum ScanFault {
    /// There are more states than the limit.
    TooMany,
    /// Memory ran out.
    Memory,
}

impl From<AllocError> for ScanFault {
    ghost from_gives = { λ _ fault. fault ≡ Memory };

    fn from(_error: AllocError) -> ScanFault {
        ScanFault::Memory
    }
}

impl<T: Drop> From<AllocFailed<T>> for ScanFault {
    ghost from_gives = { λ _ fault. fault ≡ Memory };

    fn from(_error: AllocFailed<T>) -> ScanFault {
        ScanFault::Memory
    }
}

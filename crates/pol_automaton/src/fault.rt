//! Why no automaton is made.

ghost use Rattle.std.specs.Prelude.{◌≡◌};
ghost use Rattle.pol_automaton.specs.declared.fault.DeciderFault.TheVariants.{Memory};
ghost use Rattle.pol_automaton.specs.Faults.{fault_of};

use pol_scan::ScanFault;
use std::alloc::{AllocError, AllocFailed};

/// Why no automaton is made.
#[derive(Clone, Copy, Debug, PartialEq, Eq)]
pub enum DeciderFault {
    /// There are more residuals than the limit.
    TooManyStates,
    /// Memory ran out.
    Memory,
}

impl From<AllocError> for DeciderFault {
    ghost from_gives = { λ _ fault. fault ≡ Memory };

    fn from(_error: AllocError) -> DeciderFault {
        DeciderFault::Memory
    }
}

impl<T: Drop> From<AllocFailed<T>> for DeciderFault {
    ghost from_gives = { λ _ fault. fault ≡ Memory };

    fn from(_error: AllocFailed<T>) -> DeciderFault {
        DeciderFault::Memory
    }
}

impl From<ScanFault> for DeciderFault {
    ghost from_gives = { λ scan fault. fault ≡ fault_of scan };

    fn from(fault: ScanFault) -> DeciderFault {
        match fault {
            ScanFault::TooMany => DeciderFault::TooManyStates,
            ScanFault::Memory => DeciderFault::Memory,
        }
    }
}

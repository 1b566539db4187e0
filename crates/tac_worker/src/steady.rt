//! Callers whose rests between calls don't count.

use crate::caller::Caller;
use crate::hall_caller::HallCaller;
use std::sync::Wait;
use tac_desk::Desk;
use tac_hall::Run;

/// A caller whose rests add up, and between calls don't count: what it may have seen before a call
/// it may as well have seen at that call.
pub trait Steady: Caller {
    ghost use Rattle.tac_worker.specs.Worked.{Exchange};

    /// Who rests twice rests.
    ghost rests_on: { (was mid now : Self) → Self.rests was mid → Self.rests mid now
        → Self.rests was now };

    /// Who rests and then makes an exchange makes that exchange.
    ghost makes_after: { (was mid now : Self) (exchange : Exchange) → Self.rests was mid
        → Self.makes mid exchange now → Self.makes was exchange now };
}

impl<'a, H: Wait, J: Run, D: Desk> Steady for HallCaller<'a, H, J, D> {
    ghost use Rattle.tac_worker.specs.Steady as steady;

    ghost rests_on = { steady.catches_on };

    ghost makes_after = { steady.makes_after J.opening };
}

//! Who is told what happens, before anyone else hears of it.

ghost use Rattle.std.specs.Prelude.{◌≡◌, Ok, OnOk, OnErr};

use std::alloc::{AllocError, AllocFailed};

/// What was told wasn't taken, as where a log takes no line, or there is no memory for it. Whoever
/// told it says what comes of that.
#[derive(Clone, Copy, Debug, PartialEq, Eq)]
pub struct Refused;

impl From<AllocError> for Refused {
    fn from(_error: AllocError) -> Refused {
        Refused
    }
}

impl<T: Drop> From<AllocFailed<T>> for Refused {
    fn from(_error: AllocFailed<T>) -> Refused {
        Refused
    }
}

/// Who is told what happens, one notice after another, and takes each or refuses it.
pub trait Witness<T>: Drop {
    /// It took this notice, and is this one then.
    ghost takes: { Self → T → Self → Type 0 };

    /// It refused this notice, and is this one then.
    ghost refuses: { Self → T → Self → Type 0 };

    /// Tells it what is about to happen. A worker leaves that undone where it is refused.
    fn tell(&mut self, notice: &T) -> Result<(), Refused>
        ensures ok { OnOk result (takes self.old notice.now self.new) }
        ensures err { OnErr result (refuses self.old notice.now self.new) };
}

/// A witness that takes all notices and keeps nothing.
#[derive(Clone, Copy, Debug)]
pub struct Nobody;

impl<T> Witness<T> for Nobody {
    ghost takes = { λ _ _ _. Unit {0} };

    ghost refuses = { λ _ _ _. ⊥ };

    fn tell(&mut self, _notice: &T) -> Result<(), Refused> {
        Ok(())
    }
}

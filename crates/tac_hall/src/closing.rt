//! Closing a hall: whether all its seats are there.

ghost use Rattle.std.specs.Prelude.{◌≡◌};
ghost use Rattle.tac_hall.specs.Closing as closing;

use crate::limits::Rotated;
use crate::run::Run;
use crate::seat::Seat;

/// A hall that was closed: its last segment, with the count of its calls, and its desk.
pub struct Settled<D> {
    pub last: Rotated,
    pub desk: D,
}

// By hand, so that a proof of an owner has one call at each exit, not a drop of each field.
impl<D: Drop> Drop for Settled<D> {
    fn drop(self) {
        let Settled { last: _, desk: _ } = self;
    }
}

fn is_there<J: Run>(number: u32, seats: &[Seat<J>]) -> bool
    ensures { result ≡ closing.is_there number seats.now }
{
    'seats: for seat in seats {
        if seat.number() == number {
            return true;
        }
    }
    false
}

/// Whether the seats of all numbers below this one are there. Quadratic in that.
pub(crate) fn are_there<J: Run>(numbers: u32, seats: &[Seat<J>]) -> bool
    ensures { result ≡ closing.are_there numbers seats.now }
{
    let mut left = numbers;
    'numbers: while left > 0 {
        left -= 1;
        if !is_there(left, seats) {
            return false;
        }
    }
    true
}

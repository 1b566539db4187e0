//! Who calls.

ghost use Rattle.std.specs.Prelude.{◌≡◌};

use crate::event::Event;
use crate::run::Run;
use std::marker::{Model, PhantomData};
use tac_roll::Member;

/// A seat of a hall: whoever has it makes calls, one after another. A contract sees its number, and the history up to the last thing that the seat did: no two seats
/// have one number.
#[derive(Drop)]
pub struct Seat<J: Run> {
    pub(crate) number: u32,
    // out of it only while it makes a call
    pub(crate) member: Option<Member<Event>>,
    pub(crate) of: PhantomData<J>,
}

impl<J: Run> Model for Seat<J> {
    ghost use Rattle.tac_hall.specs.Seat.{Seated, seated_as, IsSeatOf};

    ghost Value = { Seated };

    ghost view = { λ seat. seated_as seat.member };

    ghost invariant = { λ seat. IsSeatOf J.roll seat.number seat.member };
}

impl<J: Run> Seat<J> {
    /// The seat's number, from 0.
    pub fn number(&self) -> u32
        ensures { result ≡ self.now.number }
    {
        self.number
    }
}

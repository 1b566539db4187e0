//! A seat of a hall that makes the calls of a connection.

ghost use Rattle.std.specs.Prelude.{◌≡◌};
ghost use Rattle.tac_hall.specs.Seat.{CatchesUp};
ghost use Rattle.tac_worker.specs.AtHall as at_hall;

use crate::caller::{Caller, answer_in, ask_in};
use std::marker::Model;
use std::sync::Wait;
use tac_conn::{Answer, Ask, Hash};
use tac_desk::Desk;
use tac_hall::{Call, Hall, HallFault, Run, Seat};

/// A seat that makes its calls at a hall. A contract sees the seat.
pub struct HallCaller<'a, H: Wait, J: Run, D: Desk> {
    rt: &'a H,
    hall: &'a Hall<J, D>,
    seat: Seat<J>,
}

// By hand, so that a proof of an owner has one call at each exit, not a drop of each field.
impl<'a, H: Wait, J: Run, D: Desk> Drop for HallCaller<'a, H, J, D> {
    fn drop(self) {
        let HallCaller {
            rt: _,
            hall: _,
            seat: _,
        } = self;
    }
}

impl<'a, H: Wait, J: Run, D: Desk> Model for HallCaller<'a, H, J, D> {
    ghost use Rattle.tac_hall.specs.Seat.{Seated};

    ghost Value = { Seated };

    ghost view = { λ caller. caller.seat };
}

impl<'a, H: Wait, J: Run, D: Desk> HallCaller<'a, H, J, D> {
    pub fn new(rt: &'a H, hall: &'a Hall<J, D>, seat: Seat<J>) -> HallCaller<'a, H, J, D>
        ensures { result ≡ seat }
    {
        HallCaller { rt, hall, seat }
    }

    /// The seat, once the connection has ended.
    pub fn into_seat(self) -> Seat<J>
        ensures { result ≡ self.entry }
    {
        let HallCaller {
            rt: _,
            hall: _,
            seat,
        } = self;
        seat
    }
}

impl<'a, H: Wait, J: Run, D: Desk> Caller for HallCaller<'a, H, J, D> {
    ghost makes = { at_hall.MakesOne J.opening };

    ghost rests = { CatchesUp };

    ghost refuses = { at_hall.Refuses J.opening };

    fn number(&self) -> u32
        ensures { result ≡ self.now.number }
    {
        self.seat.number()
    }

    fn ask(&mut self, ask: Ask) -> Result<(Answer, Ask), HallFault> {
        let call = Call::Ask(ask);
        let receipt = self.hall.call(self.rt, &mut self.seat, &call)?;
        Ok((answer_in(receipt), ask_in(call)))
    }

    fn hash(&self, ask: &Ask) -> Option<Hash> {
        self.hall.hash(self.rt, ask)
    }

    ghost rests_so = { at_hall.rests_so };
}

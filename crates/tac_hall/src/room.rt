//! What lies under the lock, and what is done there while it is held.

ghost use Rattle.std.specs.Prelude.{◌≡◌, ◌↔◌, ◌<◌, ◌≤◌, ◌++◌, ◌∷◌, [], suc, true, false, Some, Ok, Err};
ghost use Rattle.std.specs.Prelude.{IsTrue, IfOk, IfErr, OnErr};
ghost use Rattle.tac_desk.specs.Asking.{hash_for};
ghost use Rattle.tac_hall.specs.Closing.{HasAll};
ghost use Rattle.tac_hall.specs.History as history;
ghost use Rattle.tac_hall.specs.Room as rooms;
ghost use Rattle.tac_hall.specs.Seat as seats;
ghost use Rattle.tac_hall.specs.Steps as steps;
ghost use Rattle.tac_hall.specs.declared.fault.HallFault.TheVariants.{NoSeat};
ghost use Rattle.tac_roll.specs.Roll.{Knows, AreGiven};

use crate::answering::answer;
use crate::call::Call;
use crate::closing::{Settled, are_there};
use crate::event::{Event, Told};
use crate::fault::HallFault;
use crate::limits::{Limits, Rotated};
use crate::receipt::Receipt;
use crate::run::Run;
use crate::seat::Seat;
use std::marker::{Model, PhantomData};
use std::mem;
use tac_conn::{Ask, Hash};
use tac_desk::Desk;
use tac_roll::{Keeper, Member, Roll};

/// The most seats of a hall.
pub const MAX_SEATS: u32 = 64;

/// What lies under the lock of a hall: a desk, and the history of all that seats did at it. A
/// contract sees that, how many seats were made, and what the desk represents. At all times the
/// calls are a legal history, in segments that follow one another, and no log is longer than it may
/// be. Only counts of the history are in memory.
///
/// Each of its three calls is one step, which is made while the lock is held.
pub struct Room<J: Run, D: Desk> {
    desk: D,
    keeper: Keeper<Event>,
    limits: Limits,
    // where the next call stands
    segment: u64,
    entries: usize,
    seats: u32,
    // whether there was a Stop
    closed: bool,
    of: PhantomData<J>,
}

// By hand, so that a proof of an owner has one call at each exit, not a drop of each field.
impl<J: Run, D: Desk> Drop for Room<J, D> {
    fn drop(self) {
        let Room {
            desk: _,
            keeper: _,
            limits: _,
            segment: _,
            entries: _,
            seats: _,
            closed: _,
            of: _,
        } = self;
    }
}

impl<J: Run, D: Desk> Model for Room<J, D> {
    ghost use Rattle.std.specs.Prelude.{◌≡◌, ◌≤◌};
    ghost use Rattle.tac_hall.specs.Room.{Standing, IsCounted};
    ghost use Rattle.tac_hall.specs.Room.{most_seats};

    ghost Value = { Standing };

    ghost view = { λ room. record {
      history = room.keeper.all;
      seats = room.seats;
      meaning = D.meaning room.desk;
    } };

    ghost invariant = { λ room. (room.keeper.roll ≡ J.roll) × (room.limits ≡ J.opening.limits)
        × (room.keeper.members ≡ room.seats)
        × IsCounted J.opening room.keeper.all (D.meaning room.desk)
        (record { segment = room.segment; entries = room.entries }) room.closed
        × (room.seats ≤ most_seats) };
}

/// Where a call would stand, and whether that is in a segment which has to begin first.
#[derive(Clone, Copy, Debug)]
struct NextCall {
    is_due: bool,
    segment: u64,
    entries: usize,
}

// Has the next segment begin by itself, for a member that makes a call then, if that is due.
fn begin_segment(
    roll: &Roll<Event>,
    keeper: &mut Keeper<Event>,
    member: Member<Event>,
    is_due: bool,
) -> Member<Event>
    requires { (keeper.old.roll ≡ roll.now) × (member.roll ≡ roll.now) }
    ensures keeper { keeper.new ≡ record keeper.old {
      all = keeper.old.all ++ history.turned is_due member.number;
    } }
    ensures member { (result.roll ≡ member.roll) × (result.number ≡ member.number) }
{
    if is_due {
        return roll.add(keeper, member, &Event::RotatedByItself);
    }
    member
}

impl<J: Run, D: Desk> Room<J, D> {
    /// A desk at which nothing was done.
    pub(crate) fn new(keeper: Keeper<Event>, desk: D, limits: Limits) -> Room<J, D>
        requires keeper { keeper ≡ record { roll = J.roll; all = []; members = 0 } }
        requires opening { record { meaning = D.meaning desk; limits = limits } ≡ J.opening }
    {
        Room {
            desk,
            keeper,
            limits,
            segment: 0,
            entries: 0,
            seats: 0,
            closed: false,
            of: PhantomData,
        }
    }

    /// A seat that did nothing, under the next number. It adds nothing to the history. Takes
    /// constant time and no memory.
    pub fn seat(&mut self, roll: &Roll<Event>) -> Result<Seat<J>, HallFault>
        requires { roll.now ≡ J.roll }
        ensures sits { steps.Sits self.old result self.new }
        ensures fresh { IfOk result seats.IsFresh }
        ensures fault { IfErr result (λ fault. fault ≡ NoSeat) }
        ensures was { rooms.IsLawful J.opening self.old.history self.old.meaning }
        ensures lawful { rooms.IsLawful J.opening self.new.history self.new.meaning }
    {
        if self.seats >= MAX_SEATS {
            return Err(HallFault::NoSeat);
        }
        let number = self.seats;
        roll.look(&mut self.keeper);
        let member = roll.admit(&mut self.keeper);
        self.seats = number + 1;
        Ok(Seat {
            number,
            member: Some(member),
            of: PhantomData,
        })
    }

    /// The hash that the password of this ask is compared with now, if it is one.
    pub(crate) fn hash(&self, ask: &Ask) -> Option<Hash>
        ensures { result ≡ hash_for self.now.meaning ask.now }
    {
        self.desk.hash(ask)
    }

    // Where the next call stands.
    fn next_call(&self) -> NextCall
        ensures due { result.is_due
            ≡ history.is_due J.opening.limits (history.place_of self.now.history) }
        ensures place { record { segment = result.segment; entries = result.entries }
            ≡ history.place_for J.opening.limits (history.place_of self.now.history) }
    {
        let is_due = self.limits.rotate_at.saturating_sub(1) <= self.entries
            && self.segment < u64::MAX;
        if is_due {
            return NextCall {
                is_due: true,
                segment: self.segment + 1,
                entries: 0,
            };
        }
        NextCall {
            is_due: false,
            segment: self.segment,
            entries: self.entries,
        }
    }

    // Where the next call stands, if one may be made.
    fn judge(&self) -> Result<NextCall, HallFault>
        ensures { rooms.Judges J.opening.limits self.now.history result }
    {
        if self.closed {
            return Err(HallFault::Closed);
        }
        let next = self.next_call();
        if next.entries >= self.limits.calls {
            return Err(HallFault::LogFull);
        }
        Ok(next)
    }

    // Makes a call for a member of the history, which has this number.
    fn call_as(
        &mut self,
        roll: &Roll<Event>,
        number: u32,
        member: Member<Event>,
        call: &Call,
    ) -> (Member<Event>, Result<Receipt, HallFault>)
        requires roll { roll.now ≡ J.roll }
        requires member { seats.IsSeatOf J.roll number (Some member) }
        ensures member { seats.IsSeatOf J.roll number (Some result.0) }
        ensures calls { steps.Calls J.opening self.old number call.now result.1 self.new }
        ensures seen { result.0 ≡ record member { seen = self.new.history } }
        ensures was { rooms.IsLawful J.opening self.old.history self.old.meaning }
        ensures lawful { rooms.IsLawful J.opening self.new.history self.new.meaning }
        ensures made { IfOk result.1 (λ receipt. seats.IsMade J.opening
            (seats.seated_as (Some member)) call.now receipt
            (seats.seated_as (Some result.0))) }
        ensures err { OnErr result.1 (seats.CatchesUp
            (seats.seated_as (Some member)) (seats.seated_as (Some result.0))) }
        ensures refused { IfErr result.1 (seats.IsRefused J.opening
            (seats.seated_as (Some result.0)) call.now) }
    {
        let member = roll.compare(&mut self.keeper, member);
        let NextCall {
            is_due,
            segment,
            entries,
        } = match self.judge() {
            Ok(next) => next,
            Err(fault) => return (roll.catch_up(&mut self.keeper, member), Err(fault)),
        };
        let answer = match answer(&mut self.desk, call) {
            Ok(answer) => answer,
            Err(_) => {
                let member = roll.catch_up(&mut self.keeper, member);
                return (member, Err(HallFault::Memory));
            }
        };
        self.closed = call.is_stop();
        self.segment = segment;
        self.entries = entries + 1;
        let member = begin_segment(roll, &mut self.keeper, member, is_due);
        let event = Event::Called(Told::of(call), Told::of(&answer));
        let member = roll.add(&mut self.keeper, member, &event);
        let receipt = Receipt {
            seat: number,
            segment,
            place: entries,
            answer,
        };
        (member, Ok(receipt))
    }

    /// Makes a call: it gets the desk's answer, and is the last of the history then. A refusal
    /// changes nothing, though the seat has seen all that others did. Takes the time that the desk
    /// takes to answer, and no memory but the desk's.
    pub fn call(
        &mut self,
        roll: &Roll<Event>,
        seat: &mut Seat<J>,
        call: &Call,
    ) -> Result<Receipt, HallFault>
        requires { roll.now ≡ J.roll }
        ensures calls { steps.Calls J.opening self.old seat.old.number call.now result self.new }
        ensures seen { seat.new ≡ record seat.old { seen = self.new.history } }
        ensures was { rooms.IsLawful J.opening self.old.history self.old.meaning }
        ensures lawful { rooms.IsLawful J.opening self.new.history self.new.meaning }
        ensures made { IfOk result (λ receipt.
            seats.IsMade J.opening seat.old call.now receipt seat.new) }
        ensures err { OnErr result (seats.CatchesUp seat.old seat.new) }
        ensures refused { IfErr result (seats.IsRefused J.opening seat.new call.now) }
    {
        let Some(member) = seat.member.take() else {
            unreachable!()
        };
        let (member, called) = self.call_as(roll, seat.number, member, call);
        seat.member = Some(member);
        called
    }

    // Ends the present segment for a member of the history, which has this number.
    fn rotate_as(
        &mut self,
        roll: &Roll<Event>,
        number: u32,
        member: Member<Event>,
    ) -> (Member<Event>, Result<Rotated, HallFault>)
        requires roll { roll.now ≡ J.roll }
        requires member { seats.IsSeatOf J.roll number (Some member) }
        ensures member { seats.IsSeatOf J.roll number (Some result.0) }
        ensures rotates { steps.Rotates J.opening self.old number result.1 self.new }
        ensures seen { result.0 ≡ record member { seen = self.new.history } }
        ensures was { rooms.IsLawful J.opening self.old.history self.old.meaning }
        ensures lawful { rooms.IsLawful J.opening self.new.history self.new.meaning }
        ensures rotated { IfOk result.1 (λ rotated. seats.IsRotated J.opening
            (seats.seated_as (Some member)) rotated (seats.seated_as (Some result.0))) }
        ensures err { OnErr result.1 (seats.CatchesUp
            (seats.seated_as (Some member)) (seats.seated_as (Some result.0))) }
        ensures refused { IfErr result.1 (seats.IsUnrotated J.opening
            (seats.seated_as (Some result.0))) }
    {
        let member = roll.compare(&mut self.keeper, member);
        if self.closed {
            return (
                roll.catch_up(&mut self.keeper, member),
                Err(HallFault::Closed),
            );
        }
        let Some(next) = self.segment.checked_add(1) else {
            return (
                roll.catch_up(&mut self.keeper, member),
                Err(HallFault::LogFull),
            );
        };
        let member = roll.add(&mut self.keeper, member, &Event::Rotated);
        let rotated = Rotated {
            number: mem::replace(&mut self.segment, next),
            entries: mem::replace(&mut self.entries, 0),
        };
        (member, Ok(rotated))
    }

    /// Ends the present segment, and the next begins. A refusal changes nothing, though the seat has
    /// seen all that others did. Takes constant time and no memory.
    pub fn rotate(&mut self, roll: &Roll<Event>, seat: &mut Seat<J>) -> Result<Rotated, HallFault>
        requires { roll.now ≡ J.roll }
        ensures rotates { steps.Rotates J.opening self.old seat.old.number result self.new }
        ensures seen { seat.new ≡ record seat.old { seen = self.new.history } }
        ensures was { rooms.IsLawful J.opening self.old.history self.old.meaning }
        ensures lawful { rooms.IsLawful J.opening self.new.history self.new.meaning }
        ensures rotated { IfOk result (λ rotated.
            seats.IsRotated J.opening seat.old rotated seat.new) }
        ensures err { OnErr result (seats.CatchesUp seat.old seat.new) }
        ensures refused { IfErr result (seats.IsUnrotated J.opening seat.new) }
    {
        let Some(member) = seat.member.take() else {
            unreachable!()
        };
        let (member, rotated) = self.rotate_as(roll, seat.number, member);
        seat.member = Some(member);
        rotated
    }

    /// Whether all its seats are there, and no other is.
    pub(crate) fn has_all(&self, seats: &[Seat<J>]) -> bool
        ensures { IsTrue result ↔ HasAll self.now.seats seats.now }
    {
        seats.len() == self.seats as usize && are_there(self.seats, seats)
    }

    /// What happened is of its seats.
    pub(crate) fn look(&mut self, roll: &Roll<Event>)
        requires { roll.now ≡ J.roll }
        ensures same { self.new ≡ self.old }
        ensures given { AreGiven self.old.seats self.old.history }
    {
        roll.look(&mut self.keeper);
    }

    /// The seat has seen a beginning of the history, and did nothing after that.
    pub(crate) fn compare(&mut self, roll: &Roll<Event>, seat: Seat<J>)
        requires { roll.now ≡ J.roll }
        ensures same { self.new ≡ self.old }
        ensures knows { Knows self.old.history seat.number seat.seen }
    {
        let Seat {
            number: _,
            member,
            of: _,
        } = seat;
        let Some(member) = member else { unreachable!() };
        let _ = roll.compare(&mut self.keeper, member);
    }

    /// The desk, after a lawful history, and which segment is the last, with the count of its calls.
    pub(crate) fn settled(self) -> Settled<D>
        ensures meaning { D.meaning result.desk ≡ self.meaning }
        ensures lawful { rooms.IsLawful J.opening self.history (D.meaning result.desk) }
        ensures last { record { segment = result.last.number; entries = result.last.entries }
            ≡ history.place_of self.history }
    {
        let Room {
            desk,
            keeper: _,
            limits: _,
            segment,
            entries,
            seats: _,
            closed: _,
            of: _,
        } = self;
        Settled {
            last: Rotated {
                number: segment,
                entries,
            },
            desk,
        }
    }
}

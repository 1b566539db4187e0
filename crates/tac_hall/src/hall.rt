//! The hall.

ghost use Rattle.std.specs.Prelude.{◌≡◌, All, IfOk, IfErr, OnErr};
ghost use Rattle.tac_hall.specs.Closing.{HasAll, IsSettledAt};
ghost use Rattle.tac_hall.specs.Room.{Standing, IsLawful};
ghost use Rattle.tac_hall.specs.Seat as seats;
ghost use Rattle.tac_hall.specs.Steps as steps;
ghost use Rattle.tac_hall.specs.declared.fault.HallFault.TheVariants.{NoSeat};
ghost use Rattle.tac_roll.specs.Roll.{Knows};

use crate::call::Call;
use crate::closing::Settled;
use crate::event::{EmptyHistory, Event};
use crate::fault::HallFault;
use crate::limits::{Limits, Rotated};
use crate::receipt::Receipt;
use crate::room::Room;
use crate::run::Run;
use crate::seat::Seat;
use brief_lock::take;
use std::sync::{Mutex, Wait};
use tac_conn::{Ask, Hash, Proof};
use tac_desk::Desk;
use tac_roll::Roll;

/// One desk that many threads call, one call after another, with the history of all calls. That
/// exists in proofs alone: however many calls are made, the memory stays that of the desk.
///
/// Each call takes the one lock, is answered there, and lets the lock go. What a call may wait for
/// is that lock alone.
pub struct Hall<J: Run, D: Desk> {
    roll: Roll<Event>,
    room: Mutex<Room<J, D>>,
    ghost named: { roll ≡ J.roll },
}

// By hand, so that a proof of an owner has one call at each exit, not a drop of each field.
impl<J: Run, D: Desk> Drop for Hall<J, D> {
    fn drop(self) {
        let Hall { roll: _, room: _ } = self;
    }
}

impl<J: Run, D: Desk> Hall<J, D> {
    /// A hall without seats, of the run that has this history, this desk and these limits.
    pub fn new(history: EmptyHistory, desk: D, limits: Limits) -> Hall<J, D>
        requires roll { history ≡ J.roll }
        requires opening { record { meaning = D.meaning desk; limits = limits } ≡ J.opening }
    {
        let EmptyHistory { roll, keeper } = history;
        Hall {
            roll,
            room: Mutex::new(Room::new(keeper, desk, limits)),
        }
    }

    /// A new seat, which did nothing, under the next number. The only refusal is NoSeat, after 64
    /// of them; a seat may be asked for after a Stop too. Takes constant time once it has the lock,
    /// and no memory.
    pub fn seat<R: Wait>(&self, rt: &R) -> Result<Seat<J>, HallFault>
        ensures fresh { IfOk result seats.IsFresh }
        ensures fault { IfErr result (λ fault. fault ≡ NoSeat) }

        // One step of what lies under the lock has this result.
        ensures room { (was : Standing) × (then : Standing)
            × IsLawful J.opening was.history was.meaning × steps.Sits was result then }
    {
        take(rt, &self.room).seat(&self.roll)
    }

    /// The hash that the password of this ask is compared with by the policy of this moment, if it
    /// is one: what the password may be worked out under before the call. It is no call, and stands
    /// in no history; the policy may be another one when the call is made. So no contract says
    /// which policy it was, and nothing may rest on the answer but the time that a call takes.
    /// Takes the lock for a look-up, and only where a password is asked about; and no memory.
    pub fn hash<R: Wait>(&self, rt: &R, ask: &Ask) -> Option<Hash> {
        match ask {
            Ask::Authenticate {
                proof: Proof::Plain(_),
                ..
            } => take(rt, &self.room).hash(ask),
            _ => None,
        }
    }

    /// Makes a call. Its answer is right after all calls before it, of this seat and of others; the
    /// receipt says where it stands, and has the answer. Where the present segment has one call
    /// less than `rotate_at`, or more, the next begins before, while numbers are left. Takes the
    /// time that the desk takes to answer, and no memory but the desk's.
    ///
    /// Refused as Closed after a Stop, then as LogFull, then as Memory, where the desk has none for
    /// the answer to an ask. Then nothing was done; the seat has seen what others did until then.
    pub fn call<R: Wait>(
        &self,
        rt: &R,
        seat: &mut Seat<J>,
        call: &Call,
    ) -> Result<Receipt, HallFault>
        ensures made { IfOk result (λ receipt.
            seats.IsMade J.opening seat.old call.now receipt seat.new) }
        ensures err { OnErr result (seats.CatchesUp seat.old seat.new) }
        ensures refused { IfErr result (seats.IsRefused J.opening seat.new call.now) }

        // One step of what lies under the lock has this result, and the seat has seen all of it.
        ensures room { (was : Standing) × (then : Standing)
            × IsLawful J.opening was.history was.meaning
            × steps.Calls J.opening was seat.old.number call.now result then
            × (seat.new ≡ record seat.old { seen = then.history }) }
    {
        take(rt, &self.room).call(&self.roll, seat, call)
    }

    /// Ends the present segment, and the next begins: it is told which it was, and how many calls
    /// it has. It is no call, and stands in no log. Takes constant time, and no memory.
    ///
    /// Refused as Closed after a Stop, then as LogFull where the present segment has the greatest
    /// number. Then nothing was done; the seat has seen what others did until then.
    pub fn rotate<R: Wait>(&self, rt: &R, seat: &mut Seat<J>) -> Result<Rotated, HallFault>
        ensures rotated { IfOk result (λ rotated.
            seats.IsRotated J.opening seat.old rotated seat.new) }
        ensures err { OnErr result (seats.CatchesUp seat.old seat.new) }
        ensures refused { IfErr result (seats.IsUnrotated J.opening seat.new) }

        // One step of what lies under the lock has this result, and the seat has seen all of it.
        ensures room { (was : Standing) × (then : Standing)
            × IsLawful J.opening was.history was.meaning
            × steps.Rotates J.opening was seat.old.number result then
            × (seat.new ≡ record seat.old { seen = then.history }) }
    {
        take(rt, &self.room).rotate(&self.roll, seat)
    }

    /// Ends it, with all its seats. What they did is one legal history, from what the desk
    /// represented at first to what the desk that comes back represents: of each seat exactly what
    /// it did, each call at its place, and nothing else. Its last segment is told, with the count
    /// of its calls.
    ///
    /// Refused where one of the seats is missing; then all comes back. Quadratic in the seats.
    pub fn close(self, seats: Vec<Seat<J>>) -> Result<Settled<D>, (Hall<J, D>, Vec<Seat<J>>)>
        ensures settled { IfOk result (λ settled.
            IsSettledAt J.opening settled.last (D.meaning settled.desk) seats.items) }
        ensures back { IfErr result (λ back. back.1 ≡ seats) }
    {
        let Hall { roll, room } = self;
        let mut room = room.into_inner();
        if !room.has_all(seats.as_slice()) {
            let hall = Hall {
                roll,
                room: Mutex::new(room),
            };
            return Err((hall, seats));
        }
        Ok(settle(&roll, room, seats))
    }
}

// What comes back, once each seat was compared with the history. All seats are there.
fn settle<J: Run, D: Desk>(
    roll: &Roll<Event>,
    mut room: Room<J, D>,
    seats: Vec<Seat<J>>,
) -> Settled<D>
    requires roll { roll.now ≡ J.roll }
    requires there { HasAll room.seats seats.items }
    ensures { IsSettledAt J.opening result.last (D.meaning result.desk) seats.items }
{
    room.look(roll);
    compare_all(roll, &mut room, seats);
    room.settled()
}

// Each seat has seen a beginning of the history, and did nothing after that.
fn compare_all<J: Run, D: Desk>(roll: &Roll<Event>, room: &mut Room<J, D>, seats: Vec<Seat<J>>)
    requires { roll.now ≡ J.roll }
    ensures same { room.new ≡ room.old }
    ensures know { All (λ seat. Knows room.old.history seat.number seat.seen) seats.items }
{
    'seats: for seat in seats {
        room.compare(roll, seat);
    }
}

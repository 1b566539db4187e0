//! A connection and the bytes that came on it.

ghost use Rattle.std.specs.Prelude.{◌≡◌, ◌<◌, ◌++◌, List, ℕ, [], length, true, false, not, None};
ghost use Rattle.std.specs.Prelude.{Some, Ok, IfOk, OnOk, OnErr};
ghost use Rattle.tac_wire.specs.declared.door.Door.{Door as DoorValue};
ghost use Rattle.tac_wire.specs.Stream.{cut, continued};
ghost use Rattle.tac_conn.specs.Ask.{kind_asked, kind_of_answer};
ghost use Rattle.tac_conn.specs.Reply.{answer_body};
ghost use Rattle.tac_conn.specs.Judging.{reply_in};
ghost use Rattle.tac_stream.specs.Turns as turns;
ghost use Rattle.tac_stream.specs.Kept as kept;
ghost use Rattle.tac_stream.specs.declared.turn.Turn.TheVariants as told;

use crate::turn::Turn;
use std::alloc::{AllocError, Global};
use tac_conn::{Answer, Conn, Reply, Slot};
use tac_wire::{Door, Framer, Next};

/// An open connection: the packets that came on it, and the beginning of one that isn't whole yet.
pub struct Stream {
    framer: Framer,
    conn: Conn,
    closed: bool,
}

// By hand, so that a proof of an owner has one call at each exit, not a drop of each field.
impl Drop for Stream {
    fn drop(self) {
        let Stream {
            framer: _,
            conn: _,
            closed: _,
        } = self;
    }
}

// Whether the connection closes: where memory ran out, a packet is lost.
fn closes(turn: &Result<Turn, AllocError>) -> bool
    ensures { result ≡ kept.closes_by turn.now }
{
    match turn {
        Ok(turn) => turn.closes(),
        Err(_) => true,
    }
}

impl Stream {
    /// A connection on which nothing came yet. Takes no memory.
    pub fn new(alloc: Global) -> Stream
        ensures stands { (door : DoorValue) → kept.Stands door result [] 0 }
        ensures ready { kept.IsReady result }
    {
        Stream {
            framer: Framer::new(alloc),
            conn: Conn::new(alloc),
            closed: false,
        }
    }

    /// Takes the next bytes that came, and does nothing once the connection is closed. The error
    /// means that memory ran out; nothing has changed then. Amortised linear in the piece.
    pub fn feed(&mut self, piece: &[u8]) -> Result<(), AllocError>
        ensures stands { (door : DoorValue) (bytes : List ℕ) (taken : ℕ) →
            kept.closed_of self.old ≡ false → kept.Stands door self.old bytes taken →
            OnOk result (kept.Stands door self.new (bytes ++ piece.now) taken) }
        ensures closed { kept.closed_of self.new ≡ kept.closed_of self.old }
        ensures pending { kept.pending_of self.new ≡ kept.pending_of self.old }
        ensures over { kept.closed_of self.old ≡ true → (result ≡ Ok tt) × (self.new ≡ self.old) }
        ensures err { OnErr result (self.new ≡ self.old) }
        // No bytes take no memory.
        ensures memory { OnErr result (0 < length piece.now) }
        // However bytes are cut into pieces, the same packets, fault and rest come out.
        ensures pieces { (door : DoorValue) (bytes more : List ℕ) →
            cut door (bytes ++ more) ≡ continued door (cut door bytes) more }
    {
        let kept = if self.closed { &[] } else { piece };
        self.framer.feed(kept)
    }

    // The turn of what stands first.
    fn first_turn(&mut self, door: &Door) -> Result<Turn, AllocError>
        requires { kept.pending_of self.old ≡ None }
        ensures turn { (bytes : List ℕ) (taken : ℕ) → kept.Stands door.now self.old bytes taken →
            IfOk result (λ turn. turn ≡ turns.next_turn door.now bytes taken) }
        ensures stands { (bytes : List ℕ) (taken : ℕ) → kept.Stands door.now self.old bytes taken →
            IfOk result (λ turn. kept.StandsAfter turn door.now self.new bytes taken) }
        ensures pending { IfOk result (λ turn. kept.pending_of self.new ≡ turns.slot_in turn) }
        ensures kind { IfOk result turns.HasItsSlot }
        ensures shorter { IfOk result (λ turn. kept.Shortens turn self.old self.new) }
        ensures memory { (bytes : List ℕ) (taken : ℕ) → kept.Stands door.now self.old bytes taken →
            OnErr result (taken < length (cut door.now bytes).packets) }
    {
        let frame = match self.framer.next(door)? {
            Next::Packet(frame) => frame,
            Next::Need => return Ok(Turn::Need),
            Next::Fault(refused) => return Ok(Turn::Refused(refused.header)),
            Next::Ended => return Ok(Turn::Close),
        };
        match self.conn.take(door, frame) {
            Ok((received, step)) => Ok(Turn::Packet(received, step)),
            Err(error) => Err(error),
        }
    }

    /// Tells what is to be done next, and takes the packet that it is done for.
    ///
    /// A closed connection answers [`Turn::Close`] and stays as it is; so does one that waits for
    /// an answer, which then closes. The error means that memory ran out for a packet: that packet
    /// is gone, and the connection is closed.
    pub fn next(&mut self, door: &Door) -> Result<Turn, AllocError>
        ensures turn { (bytes : List ℕ) (taken : ℕ) → kept.IsReady self.old →
            kept.Stands door.now self.old bytes taken →
            IfOk result (λ turn. turn ≡ turns.next_turn door.now bytes taken) }
        ensures found { (bytes : List ℕ) (taken : ℕ) → kept.IsReady self.old →
            kept.Stands door.now self.old bytes taken →
            IfOk result (turns.IsTurn door.now bytes taken) }
        ensures stands { (bytes : List ℕ) (taken : ℕ) → kept.IsReady self.old →
            kept.Stands door.now self.old bytes taken →
            IfOk result (λ turn. kept.StandsAfter turn door.now self.new bytes taken) }
        ensures closed { kept.closed_of self.new ≡ kept.closes_by result }
        ensures pending { kept.IsReady self.old →
            IfOk result (λ turn. kept.pending_of self.new ≡ turns.slot_in turn) }
        ensures waits { IfOk result (λ turn. kept.Waits turn self.new) }
        ensures kind { IfOk result turns.HasItsSlot }
        ensures shorter { IfOk result (λ turn. kept.Shortens turn self.old self.new) }
        ensures over { kept.closed_of self.old ≡ true →
            (result ≡ Ok told.Close) × (self.new ≡ self.old) }

        // Only a whole packet takes memory.
        ensures memory { (bytes : List ℕ) (taken : ℕ) → kept.Stands door.now self.old bytes taken →
            OnErr result (taken < length (cut door.now bytes).packets) }
    {
        if self.closed {
            return Ok(Turn::Close);
        }
        if self.conn.pending().is_some() {
            self.closed = true;
            return Ok(Turn::Close);
        }
        let turn = self.first_turn(door);
        self.closed = closes(&turn);
        turn
    }

    /// The reply that carries the desk's answer, and whether the connection closes then. The slot
    /// is the one that waits, and the answer is one to what was asked. Takes no memory.
    pub fn give(&mut self, slot: Slot, answer: Answer) -> (Reply, bool)
        requires pending { kept.pending_of self.old ≡ Some slot }
        requires kind { kind_of_answer answer ≡ kind_asked slot }
        ensures reply { let reply = reply_in slot (answer_body answer) in
            result ≡ (reply, not slot.single) }
        ensures pending { kept.pending_of self.new ≡ None }
        ensures closed { kept.closed_of self.old ≡ false →
            kept.closed_of self.new ≡ result.1 }
        ensures over { kept.closed_of self.old ≡ true → kept.closed_of self.new ≡ true }
        ensures stands { (door : DoorValue) (bytes : List ℕ) (taken : ℕ) →
            kept.Stands door self.old bytes taken → kept.Stands door self.new bytes taken }
        ensures unread { kept.unread_of self.new ≡ kept.unread_of self.old }
    {
        let (reply, closes) = self.conn.give(slot, answer);
        self.closed = self.closed || closes;
        (reply, closes)
    }
}

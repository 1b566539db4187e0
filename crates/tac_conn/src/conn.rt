//! A connection.

ghost use Rattle.std.specs.Prelude.{◌≡◌, ◌≤◌, [], ◌∷◌, List, false, not, None, Some, Ok, IsTrue};
ghost use Rattle.std.specs.Prelude.{IfOk, IfSome, OnOk, OnErr};
ghost use Rattle.tac_conn.specs.Ask.{kind_of_answer, kind_asked};
ghost use Rattle.tac_conn.specs.Packet.{clear};
ghost use Rattle.tac_conn.specs.Reply.{IsReplyTo, answer_body};
ghost use Rattle.tac_conn.specs.Judging as judging;
ghost use Rattle.tac_conn.specs.History as history;
ghost use Rattle.tac_conn.specs.Standing as standing;
ghost use Rattle.tac_conn.specs.Received.{received, received_as, too_late, without_ask};
ghost use Rattle.tac_conn.specs.Received.{judged_in};
ghost use Rattle.tac_conn.specs.declared.ask.Answer.{Answer as AnswerValue};
ghost use Rattle.tac_conn.specs.declared.packet.Packet.{Packet as PacketValue};
ghost use Rattle.tac_conn.specs.declared.step.Step.TheVariants as steps;

use crate::ask::{Answer, Slot};
use crate::judging::judge;
use crate::outcome::{Outcome, reply_in};
use crate::packet::Packet;
use crate::reading::{Reading, Received};
use crate::reply::{Reply, answer_body};
use crate::session::{Session, find_session, settle};
use crate::step::Step;
use basics::Sequence;
use std::alloc::{AllocError, Global};
use tac_wire::{Door, Frame, Header};

/// One connection: what is kept of the packets that came on it.
#[derive(Drop)]
pub struct Conn {
    alloc: Global,
    // whether the first packet asked for many sessions, once it came
    single: Option<bool>,
    closed: bool,
    sessions: Sequence<Session>,
    pending: Option<Slot>,
}

// Whether the connection is single, once a packet of this header came.
fn single_with(single: Option<bool>, header: &Header) -> bool
    ensures { result ≡ standing.single_with single header.now }
{
    match single {
        Some(single) => single,
        None => header.flags & Header::SINGLE_CONNECTION != 0,
    }
}

// A packet of this header that was read so.
fn received_as(header: &Header, reading: Reading) -> Received
    ensures { result ≡ record { session = header.now.session; reading = reading } }
{
    Received {
        session: header.session,
        reading,
    }
}

impl Conn {
    /// A connection on which nothing came yet. Takes no memory.
    pub fn new(alloc: Global) -> Conn
        ensures stands { standing.Stands result [] }
        ensures pending { standing.pending_of result ≡ None }
    {
        Conn {
            alloc,
            single: None,
            closed: false,
            sessions: Sequence::new(alloc),
            pending: None,
        }
    }

    /// The slot of the packet whose answer is waited for.
    pub fn pending(&self) -> Option<Slot>
        ensures { result ≡ standing.pending_of self.now }
    {
        self.pending
    }

    // What a packet is read as, and its outcome, on a connection that is open.
    #[tactic(auto, unfolding(crate::specs::Standing::outcome_in, crate::specs::Standing::is_read_in, crate::specs::Received::read_in))]
    fn judge(&self, packet: &Packet) -> Result<(Reading, Outcome), AllocError>
        ensures taken { IfOk result (λ taken. taken ≡ judged_in self.now packet.now) }
        ensures memory { OnErr result (IsTrue (standing.is_read_in self.now packet.now)) }
    {
        let sessions = self.sessions.as_slice();
        judge(
            self.alloc,
            single_with(self.single, &packet.header),
            sessions.len(),
            find_session(sessions, packet.header.session),
            packet,
        )
    }

    // Does what follows from the outcome of a packet of this header.
    fn follow(&mut self, header: &Header, outcome: Outcome) -> Result<Step, AllocError>
        ensures ok { OnOk result (self.new ≡ standing.conn_after self.old header.now outcome) }
        ensures step { IfOk result (λ step. step ≡ standing.step_of outcome) }
        ensures err { OnErr result (self.new ≡ self.old) }
        ensures memory { OnErr result (IsTrue (judging.leaves_open outcome)) }
    {
        let single = single_with(self.single, header);
        let (step, session) = outcome.into_step();
        settle(&mut self.sessions, header.session, session)?;
        self.single = Some(single);
        self.closed = step.closes();
        self.pending = step.slot();
        Ok(step)
    }

    // Takes a packet on a connection that is open.
    fn take_open(&mut self, packet: &Packet) -> Result<(Received, Step), AllocError>
        ensures ok { let outcome = standing.outcome_in self.old packet.now in
            OnOk result (self.new ≡ standing.conn_after self.old packet.now.header outcome) }
        ensures received { IfOk result
            (λ taken. taken.0 ≡ received_as packet.now (judged_in self.old packet.now).0) }
        ensures step { IfOk result
            (λ taken. taken.1 ≡ standing.step_of (standing.outcome_in self.old packet.now)) }
        ensures err { OnErr result (self.new ≡ self.old) }
        ensures memory { OnErr result (IsTrue (standing.is_read_in self.old packet.now)) }
    {
        let (reading, outcome) = self.judge(packet)?;
        match self.follow(&packet.header, outcome) {
            Ok(step) => Ok((received_as(&packet.header, reading), step)),
            Err(error) => Err(error),
        }
    }

    /// Takes a packet that came, without its pad, where no answer is waited for, and says what it
    /// was read as, beside what is done for it. An ask has the user, the line and the task, which
    /// the reading doesn't have then.
    ///
    /// A closed connection answers [`Step::Close`] and stays as it is. The error means that memory
    /// ran out: nothing has changed.
    pub fn take_clear(&mut self, packet: &Packet) -> Result<(Received, Step), AllocError>
        requires { standing.pending_of self.old ≡ None }
        // What is done is the packet's outcome, by the clear packets that came before it.
        ensures step { (earlier : List PacketValue) → standing.Stands self.old earlier →
            let outcome = history.outcome earlier packet.now in
            IfOk result (λ taken. taken.1 ≡ standing.step_of outcome) }
        // What it was read as is the reading of its body, by those packets.
        ensures received { (earlier : List PacketValue) → standing.Stands self.old earlier →
            IfOk result (λ taken. taken.0 ≡ without_ask taken.1 (received earlier packet.now)) }
        ensures stands { (earlier : List PacketValue) → standing.Stands self.old earlier →
            OnOk result (standing.Stands self.new (packet.now ∷ earlier)) }
        ensures pending { IfOk result
            (λ taken. standing.pending_of self.new ≡ standing.slot_in taken.1) }
        ensures kind { IfOk result (λ taken. standing.HasItsSlot taken.1) }
        ensures closed { IsTrue (standing.closed_of self.old) →
            (result ≡ Ok (too_late packet.now, steps.Close)) × (self.new ≡ self.old) }
        ensures err { OnErr result (self.new ≡ self.old) }
        // Only a packet that is read takes memory, so any other is refused in any case.
        ensures memory { (earlier : List PacketValue) → standing.Stands self.old earlier →
            OnErr result (IsTrue (history.is_read_after earlier packet.now)) }
    {
        if self.closed {
            return Ok((received_as(&packet.header, Reading::OutOfTurn), Step::Close));
        }
        self.take_open(packet)
    }

    /// Takes a packet that came by a door, where no answer is waited for, and says what it was read
    /// as, beside what is done for it. An ask has the user, the line and the task, which the
    /// reading doesn't have then.
    ///
    /// A closed connection answers [`Step::Close`] and stays as it is. The error means that memory
    /// ran out: nothing has changed, and the packet is gone.
    pub fn take(&mut self, door: &Door, frame: Frame) -> Result<(Received, Step), AllocError>
        requires { standing.pending_of self.old ≡ None }
        // What is done is the packet's outcome, by the clear packets that came before it.
        ensures step { (earlier : List PacketValue) → standing.Stands self.old earlier →
            let outcome = history.outcome earlier (clear door.now frame) in
            IfOk result (λ taken. taken.1 ≡ standing.step_of outcome) }
        // What it was read as is the reading of its body, by those packets.
        ensures received { (earlier : List PacketValue) → standing.Stands self.old earlier →
            let whole = received earlier (clear door.now frame) in
            IfOk result (λ taken. taken.0 ≡ without_ask taken.1 whole) }
        ensures stands { (earlier : List PacketValue) → standing.Stands self.old earlier →
            OnOk result (standing.Stands self.new (clear door.now frame ∷ earlier)) }
        ensures pending { IfOk result
            (λ taken. standing.pending_of self.new ≡ standing.slot_in taken.1) }
        ensures kind { IfOk result (λ taken. standing.HasItsSlot taken.1) }
        ensures closed { IsTrue (standing.closed_of self.old) →
            (result ≡ Ok (too_late (clear door.now frame), steps.Close))
            × (self.new ≡ self.old) }
        ensures err { OnErr result (self.new ≡ self.old) }
        // Only a packet that is read takes memory, so any other is refused in any case.
        ensures memory { (earlier : List PacketValue) → standing.Stands self.old earlier →
            OnErr result (IsTrue (history.is_read_after earlier (clear door.now frame))) }

        // Nothing is granted unless the desk is asked.
        ensures ungranted { (earlier : List PacketValue) (packet : PacketValue) →
            standing.GrantsNothing (history.outcome earlier packet) }
        // A connection that isn't single has at most one open session.
        ensures alone { (packets : List PacketValue) → history.is_single packets ≡ false →
            history.open_sessions packets ≤ 1 }
    {
        let packet = Packet::clear(door, frame);
        self.take_clear(&packet)
    }

    /// The reply that carries the desk's answer, and whether the connection closes then. The slot
    /// is the one that waits, and the answer is one to what was asked. Takes no memory.
    pub fn give(&mut self, slot: Slot, answer: Answer) -> (Reply, bool)
        requires pending { standing.pending_of self.old ≡ Some slot }
        requires kind { kind_of_answer answer ≡ kind_asked slot }
        // It is the reply to the packets that came, with this answer.
        ensures reply { (packet : PacketValue) (earlier : List PacketValue) →
            standing.Stands self.old (packet ∷ earlier) →
            Some result.0 ≡ judging.reply_of (history.outcome earlier packet) answer }
        ensures closes { (packet : PacketValue) (earlier : List PacketValue) →
            standing.Stands self.old (packet ∷ earlier) →
            result.1 ≡ judging.closes (history.outcome earlier packet) }
        ensures slot { let reply = judging.reply_in slot (answer_body answer) in
            result ≡ (reply, not slot.single) }
        ensures pending { standing.pending_of self.new ≡ None }
        ensures stands { (packets : List PacketValue) →
            standing.Stands self.old packets → standing.Stands self.new packets }

        // Each reply has its packet's version, type and session, and the next seq_no.
        ensures header { (packet : PacketValue) (earlier : List PacketValue) (told : AnswerValue) →
            IfSome (judging.reply_of (history.outcome earlier packet) told)
            (IsReplyTo packet.header) }
    {
        self.pending = None;
        (reply_in(slot, answer_body(answer)), !slot.single)
    }
}

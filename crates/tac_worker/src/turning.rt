//! Serving a connection, one turn after another.

ghost use Rattle.std.specs.Prelude.{◌≡◌, ◌≤◌, ℕ, suc, List, [], ◌∷◌, ◌++◌, length};
ghost use Rattle.std.specs.Prelude.{IfOk, IfErr, OnErr, MatchResult, Some};
ghost use Rattle.tac_conn.specs.Ask.{kind_of_ask, kind_of_answer};
ghost use Rattle.tac_conn.specs.Packet.{sent};
ghost use Rattle.tac_conn.specs.Reply.{packet_of};
ghost use Rattle.tac_audit.specs.Notices.{replied};
ghost use Rattle.tac_stream.specs.declared.stream.Stream.{Stream as StreamValue};
ghost use Rattle.tac_stream.specs.Kept.{IsReady, Stands, Waits};
ghost use Rattle.tac_stream.specs.Turns.{HasItsSlot};
ghost use Rattle.tac_worker.specs.Ahead.{IsTurnOf};
ghost use Rattle.tac_worker.specs.Noting.{noting, NotesOne, NotesNone, RefusesNoted};
ghost use Rattle.tac_worker.specs.Working as working;

use crate::caller::Caller;
use crate::end::End;
use crate::notes::Called;
use crate::queue::Queue;
use crate::room::Room;
use crate::terms::Terms;
use std::alloc::{AllocError, Global};
use std::snapshot::Snapshot;
use tac_audit::{Notice, Witness};
use tac_conn::{Answer, Ask, Received, Reply, Step};
use tac_stream::{Stream, Turn};
use tac_wire::Door;

/// How a turn went by which the connection stays open.
#[derive(Clone, Copy, PartialEq, Eq)]
pub(crate) enum Went {
    /// A packet was served.
    On,
    /// No whole packet is left.
    Rests,
}

// Puts a reply there, with the pad put on, after which the connection closes or not.
fn put_reply(
    door: &Door,
    queue: &mut Queue,
    room: Room,
    reply: &Reply,
    closes: bool,
) -> Result<Went, End>
    requires { queue.old ≡ [] }
    ensures { working.Replies result (sent door.now (packet_of reply.now)) closes
        (Some queue.old) (Some queue.new) }
{
    queue.hold(room.sent(door, reply));
    if closes {
        return Err(End::ByProtocol);
    }
    Ok(Went::On)
}

// Calls an ask, notes it, and gives it back. The room for the reply is taken first.
fn ask_by<C: Caller>(
    alloc: Global,
    caller: &mut C,
    ask: Ask,
    called: &mut Called,
) -> Result<(Answer, Ask, Room), End>
    ensures makes { IfOk result (λ given. (segment : ℕ) × (place : ℕ) × C.makes caller.old
        (record { ask = ask; segment = segment; place = place; answer = given.0 }) caller.new) }
    ensures kind { IfOk result (λ given. kind_of_answer given.0 ≡ kind_of_ask ask) }
    ensures same { IfOk result (λ given. given.1 ≡ ask) }
    ensures uncalled { IfErr result (working.IsUncalled (C.refuses caller.new) ask) }
    ensures err { OnErr result (C.rests caller.old caller.new) }
    ensures called { MatchResult result (λ given. called.new ≡ called.old ++ (ask, given.0) ∷ [])
        (λ _. called.new ≡ called.old) }
{
    let room = Room::new(alloc)?;
    let asked = Snapshot::of(&ask);
    let (answer, ask) = caller.ask(ask)?;
    called.add(&asked, &answer);
    Ok((answer, ask, room))
}

// Tells the witness of a packet and its reply, and puts that there once it took the notice.
fn answer<V: Witness<Notice>>(
    door: &Door,
    witness: &mut V,
    queue: &mut Queue,
    room: Room,
    received: Received,
    given: (Reply, bool),
) -> Result<Went, End>
    requires { queue.old ≡ [] }
    ensures { let notice = replied received given.0 in
        working.Answers result (V.takes witness.old notice witness.new)
        (V.refuses witness.old notice witness.new) (sent door.now (packet_of given.0))
        given.1 (Some queue.old) (Some queue.new) }
{
    let (reply, closes) = given;
    let notice = Notice::Packet(received, Some(reply));
    witness.tell(&notice)?;
    let Notice::Packet(_, Some(reply)) = &notice else {
        unreachable!()
    };
    put_reply(door, queue, room, reply, closes)
}

// Tells the witness of what has no reply, after which the connection closes or not.
fn note<V: Witness<Notice>>(witness: &mut V, notice: Notice, closes: bool) -> Result<Went, End>
    ensures { working.Notes result (V.takes witness.old notice witness.new)
        (V.refuses witness.old notice witness.new) closes }
{
    witness.tell(&notice)?;
    if closes {
        return Err(End::ByProtocol);
    }
    Ok(Went::On)
}

/// Serves what stood first, whose turn this is, and notes the call that was made for it.
pub(crate) fn serve_turn<C: Caller, V: Witness<Notice>>(
    terms: &Terms,
    caller: &mut C,
    witness: &mut V,
    stream: &mut Stream,
    turn: Result<Turn, AllocError>,
    queue: &mut Queue,
    called: &mut Called,
) -> Result<Went, End>
    requires queue { queue.old ≡ [] }
    requires waits { IfOk turn (λ turn. Waits turn stream.old) }
    requires kind { IfOk turn HasItsSlot }
    ensures turned { (was : StreamValue) (bytes : List ℕ) (taken : ℕ) →
        IsTurnOf terms.now.door.now was turn stream.old → IsReady was →
        Stands terms.now.door.now was bytes taken →
        working.Turned (NotesOne C.makes) (NotesNone C.rests) (RefusesNoted C.refuses)
        V.takes V.refuses result terms.now.door.now bytes taken
        (record { caller = noting caller.old called.old; witness = witness.old })
        (record { caller = noting caller.new called.new; witness = witness.new })
        (Some queue.old) (Some queue.new) stream.new }
    ensures one { length called.new ≤ suc (length called.old) }
{
    let turn = match turn {
        Ok(turn) => turn,
        Err(error) => return Err(End::from(error)),
    };
    match turn {
        Turn::Packet(received, step) => match step {
            Step::Reply(reply, closes) => {
                let room = Room::new(terms.alloc)?;
                answer(terms.door, witness, queue, room, received, (reply, closes))
            }
            Step::Asks(ask, slot) => {
                let (told, asked, room) = ask_by(terms.alloc, caller, ask, called)?;
                let given = stream.give(slot, told);
                let whole = received.with_ask(asked);
                answer(terms.door, witness, queue, room, whole, given)
            }
            Step::Silent => note(witness, Notice::Packet(received, None), false),
            Step::Close => note(witness, Notice::Packet(received, None), true),
        },
        Turn::Need => Ok(Went::Rests),
        Turn::Refused(header) => note(witness, Notice::BadHeader(header), true),
        Turn::Close => Err(End::ByProtocol),
    }
}

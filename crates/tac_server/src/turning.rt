//! Serving a piece of bytes, one turn of its connection after another.

ghost use Rattle.std.specs.Prelude.{◌≡◌, ◌+◌, ◌≤◌, ◌++◌, List, ℕ, false, not};
ghost use Rattle.std.specs.Prelude.{Some, None, IfOk, OnOk, OnErr, vec_len, vec_capacity};
ghost use Rattle.tac_wire.specs.declared.door.Door.{Door as DoorValue};
ghost use Rattle.tac_conn.specs.Ask.{kind_asked, kind_of_ask};
ghost use Rattle.tac_conn.specs.Packet.{sent, IsWhole};
ghost use Rattle.tac_conn.specs.Reply.{packet_of, answer_body};
ghost use Rattle.tac_conn.specs.Judging.{reply_in};
ghost use Rattle.tac_stream.specs.Kept.{IsReady, Stands, closed_of, pending_of, unread_of};
ghost use Rattle.tac_desk.specs.Asking.{asked};
ghost use Rattle.tac_desk.specs.Meaning.{Meaning as MeaningValue};
ghost use Rattle.tac_desk.specs.Serving.{said_on, unless_closed};
ghost use Rattle.tac_server.specs.Kept.{Serves};
ghost use Rattle.tac_server.specs.Turning as turning;

use crate::noticed::Noticed;
use std::alloc::AllocError;
use std::ops::ControlFlow;
use tac_audit::{Notice, Witness};
use tac_conn::{Ask, Received, Reply, SENT_MAX, Slot, Step};
use tac_desk::Desk;
use tac_stream::{Stream, Turn};
use tac_wire::Door;

// After a packet was served: the next turn, or the connection closes.
fn after_reply(closes: bool) -> ControlFlow<bool>
    ensures { result ≡ turning.after_reply closes }
{
    if closes {
        ControlFlow::Break(true)
    } else {
        ControlFlow::Continue(())
    }
}

// Tells the witness what is noticed on a connection. Whether it takes that makes no difference to
// what is said there: a replay prints what its script makes happen, and who listens knows what it
// refused.
fn tell<W: Witness<Noticed>>(witness: &mut W, conn: u32, notice: Notice) {
    let _ = witness.tell(&Noticed::On(conn, notice));
}

// Adds the reply to a packet as it is sent, for which there is room, once the witness was told.
fn add<W: Witness<Noticed>>(
    door: &Door,
    conn: u32,
    received: Received,
    reply: Reply,
    out: &mut Vec<u8>,
    witness: &mut W,
)
    requires { vec_len out.old + SENT_MAX ≤ vec_capacity out.old }
    ensures bytes { out.new.items ≡ out.old.items ++ sent door.now (packet_of reply) }
    ensures whole { IsWhole (sent door.now (packet_of reply)) }
{
    let noticed = Noticed::On(conn, Notice::Packet(received, Some(reply)));
    let _ = witness.tell(&noticed);
    let Noticed::On(_, Notice::Packet(_, Some(reply))) = &noticed else {
        unreachable!()
    };
    reply.send_to(door, out);
}

// The reply that carries the desk's answer, and whether the connection closes.
fn answer_to<D: Desk>(
    desk: &mut D,
    stream: &mut Stream,
    ask: &Ask,
    slot: Slot,
) -> Result<(Reply, bool), AllocError>
    requires pending { pending_of stream.old ≡ Some slot }
    requires kind { kind_asked slot ≡ kind_of_ask ask.now }
    ensures reply { let body = answer_body (asked (D.meaning desk.old) ask.now).answer in
        IfOk result (λ reply. reply ≡ (reply_in slot body, not slot.single)) }
    ensures desk { OnOk result (D.meaning desk.new ≡ (asked (D.meaning desk.old) ask.now).meaning) }
    ensures pending { OnOk result (pending_of stream.new ≡ None) }
    ensures closed { closed_of stream.old ≡ false →
        IfOk result (λ reply. closed_of stream.new ≡ reply.1) }
    ensures stands { (door : DoorValue) (bytes : List ℕ) (taken : ℕ) →
        Stands door stream.old bytes taken → OnOk result (Stands door stream.new bytes taken) }
    ensures unread { OnOk result (unread_of stream.new ≡ unread_of stream.old) }
    ensures err { OnErr result (D.meaning desk.new ≡ D.meaning desk.old) }
{
    match desk.ask(ask) {
        Ok(answer) => Ok(stream.give(slot, answer)),
        Err(error) => Err(error),
    }
}

// Serves what stands first. It breaks where nothing more is to be done, and tells whether the
// connection closes then. The place of its reply is taken before its packet is, so that memory
// runs out only where nothing was done for the packet. The witness is told of the packet just
// before its reply is added, if it has one.
fn take_turn<D: Desk, W: Witness<Noticed>>(
    door: &Door,
    desk: &mut D,
    stream: &mut Stream,
    conn: u32,
    out: &mut Vec<u8>,
    witness: &mut W,
) -> Result<ControlFlow<bool>, AllocError>
    ensures goes { (bytes : List ℕ) (taken : ℕ) → IsReady stream.old →
        Stands door.now stream.old bytes taken → IfOk result (λ flow. turning.Goes flow door.now
        (D.meaning desk.old) (D.meaning desk.new) out.old.items out.new.items stream.new
        bytes taken) }
    ensures shorter { IfOk result (λ flow. turning.Shortens flow stream.old stream.new) }
    ensures desk { OnErr result (D.meaning desk.new ≡ D.meaning desk.old) }
    ensures out { OnErr result (out.new.items ≡ out.old.items) }
{
    out.reserve(SENT_MAX)?;
    match stream.next(door)? {
        Turn::Packet(received, step) => match step {
            Step::Reply(reply, closes) => {
                add(door, conn, received, reply, out, witness);
                Ok(after_reply(closes))
            }
            Step::Asks(ask, slot) => {
                let (reply, closes) = answer_to(desk, stream, &ask, slot)?;
                add(door, conn, received.with_ask(ask), reply, out, witness);
                Ok(after_reply(closes))
            }
            Step::Silent => {
                tell(witness, conn, Notice::Packet(received, None));
                Ok(ControlFlow::Continue(()))
            }
            Step::Close => {
                tell(witness, conn, Notice::Packet(received, None));
                Ok(ControlFlow::Break(true))
            }
        },
        Turn::Need => Ok(ControlFlow::Break(false)),
        Turn::Refused(header) => {
            tell(witness, conn, Notice::BadHeader(header));
            Ok(ControlFlow::Break(true))
        }
        Turn::Close => Ok(ControlFlow::Break(true)),
    }
}

/// Takes the next piece of what came on a connection, adds what is sent for the packets that it
/// completes, and answers whether the connection closes. The witness is told of each packet, with
/// its reply, and of a header that is refused.
///
/// The error means that memory ran out: the packets before some packet were served, and their
/// replies are added; the others had no effect, and the connection is to be closed.
pub(crate) fn serve_piece<D: Desk, W: Witness<Noticed>>(
    door: &Door,
    desk: &mut D,
    stream: &mut Stream,
    conn: u32,
    piece: &[u8],
    out: &mut Vec<u8>,
    witness: &mut W,
) -> Result<bool, AllocError>
    ensures said { (before : List ℕ) → Serves door.now stream.old before →
        turning.SaysPiece result door.now (D.meaning desk.old) (D.meaning desk.new)
        out.old.items out.new.items stream.new before piece.now }

    // However bytes are cut into pieces, the same is said.
    ensures pieces { (meaning : MeaningValue) (before first second : List ℕ) →
        said_on door.now meaning before (first ++ second)
        ≡ unless_closed (said_on door.now meaning before first)
        (λ next. said_on door.now next (before ++ first) second) }
{
    stream.feed(piece)?;
    'turns: loop {
        if let ControlFlow::Break(closes) = take_turn(door, desk, stream, conn, out, witness)? {
            return Ok(closes);
        }
    }
}

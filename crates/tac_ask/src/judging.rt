//! What a client takes from a packet that comes.

ghost use Rattle.std.specs.Prelude.{◌≡◌};
ghost use Rattle.basics.specs.Memory.{GivesUnlessMemory};
ghost use Rattle.tac_wire.specs.Door.{opened as opened_by};
ghost use Rattle.tac_ask.specs.Bodies.{is_memory};
ghost use Rattle.tac_ask.specs.Judging as judging;
ghost use Rattle.tac_ask.specs.Reply.{reply_of};

use crate::fault::AskFault;
use crate::packet::{clear_fault, mismatch};
use crate::reply::{ReplyFields, read_reply};
use crate::status::status_name;
use basics::Bytes;
use std::alloc::Global;
use tac_wire::{Door, Frame, Header, PacketType};

// A body without its pad, if it has one.
fn opened(door: &Door, header: &Header, body: Bytes) -> Bytes
    ensures { result ≡ opened_by door.now header.now body }
{
    let mut body = body.into_vec();
    door.open(header, &mut body);
    Bytes::from(body)
}

// A body of this type.
fn judge_body(alloc: Global, kind: PacketType, body: &[u8]) -> Result<ReplyFields, AskFault>
    ensures { GivesUnlessMemory is_memory (λ reply. reply) result
        (judging.body_judged kind.0 (reply_of kind.0 body.now)) }
{
    let reply = read_reply(alloc, kind, body)?;
    if status_name(kind, reply.status).is_none() {
        return Err(AskFault::BadStatus);
    }
    Ok(reply)
}

/// The reply that a packet is to what was sent with this header; or the first fault: another type,
/// another session, a number that isn't the next one, not in clear where that is wanted, a body
/// that is none of a reply, or an unknown status.
pub(crate) fn reply_to(
    alloc: Global,
    door: &Door,
    sent: &Header,
    frame: Frame,
) -> Result<ReplyFields, AskFault>
    ensures { GivesUnlessMemory is_memory (λ reply. reply) result
        (judging.reply_to door.now sent.now frame) }
{
    let Frame { header, body } = frame;
    if let Some(fault) = mismatch(sent, &header) {
        return Err(fault);
    }
    if let Some(fault) = clear_fault(door, &header) {
        return Err(fault);
    }
    let body = opened(door, &header, body);
    judge_body(alloc, header.kind, body.as_slice())
}

//! Packets as they are sent, and which packet is the reply.

ghost use Rattle.std.specs.Prelude.{◌≡◌, ◌<◌, ◌^◌, length, IfOk};
ghost use Rattle.tac_wire.specs.Door.{closed};
ghost use Rattle.tac_ask.specs.Packet as packets;

use crate::fault::AskFault;
use basics::Bytes;
use std::alloc::{AllocError, Global};
use tac_wire::{Door, Header};

// Puts the pad on a body, where there is one.
fn close(door: &Door, header: &Header, body: &mut Vec<u8>)
    ensures { body.new.items ≡ closed door.now header.now body.old.items }
{
    door.close(header, body.as_mut_slice())
}

/// The packet of a body with this header, as it is sent by a door: the body's length is written
/// into the header (RFC 8907, sections 4.1 and 4.5; RFC 9887, section 4). The error means that
/// memory ran out.
pub(crate) fn packet(
    alloc: Global,
    door: &Door,
    header: &Header,
    body: &[u8],
) -> Result<Bytes, AllocError>
    requires { length body.now < 2 ^ 32 }
    ensures { IfOk result (λ packet. packet ≡ packets.packet_bytes door.now header.now body.now) }
{
    let header = Header {
        length: body.len() as u32,
        ..*header
    };
    let header = door.mark(&header);
    let mut padded = Vec::from_slice(alloc, body)?;
    close(door, &header, &mut padded);
    let mut packet = Bytes::from_slice(alloc, &header.write())?;
    packet.extend_from_slice(padded.as_slice())?;
    Ok(packet)
}

/// Why a header is none of a reply to what was sent, if it is none.
pub(crate) fn mismatch(sent: &Header, came: &Header) -> Option<AskFault>
    ensures { result ≡ packets.mismatch sent.now came.now }
{
    if came.kind != sent.kind {
        Some(AskFault::OtherType)
    } else if came.session != sent.session {
        Some(AskFault::OtherSession)
    } else if u16::from(came.seq) != u16::from(sent.seq) + 1 {
        Some(AskFault::OutOfTurn)
    } else {
        None
    }
}

/// Why a header is none of a reply in clear, where that is wanted.
pub(crate) fn clear_fault(door: &Door, came: &Header) -> Option<AskFault>
    ensures { result ≡ packets.clear_fault door.now came.now }
{
    match door {
        Door::Padded(_) => None,
        Door::Clear => {
            if came.flags & Header::UNENCRYPTED != 0 {
                None
            } else {
                Some(AskFault::NotClear)
            }
        }
    }
}

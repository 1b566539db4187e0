//! What the bytes that came on a connection so far show.

ghost use Rattle.std.specs.Prelude.{◌≡◌, IfOk, OnErr, IsSome, is_some};
ghost use Rattle.tac_wire.specs.Stream as stream;
ghost use Rattle.tac_wire.specs.declared.door.Door.TheVariants.{Padded};
ghost use Rattle.tac_first.specs.SoFar as so_far;

use crate::choosing::choose;
use crate::keys::{Keys, Shown};
use basics::Bytes;
use std::alloc::{AllocError, Global};
use tac_wire::{Frame, HEADER_SIZE, Header, KeyDoor};

// Whether a stream under a key ends at this header.
fn is_refused(key: &KeyDoor, header: &Header) -> bool
    ensures { result ≡ is_some (stream.header_fault (Padded key.now) header.now) }
{
    let major = header.version >> 4;
    let minor = header.version & 0x0f;
    major != 0xc || minor > 1 || key.door().refuses(header.flags) || header.length > Frame::MAX_BODY
}

// Which key the packet shows that the bytes begin with, once it is whole.
#[tactic(auto, unfolding(tac_wire::specs::Stream::first_item))]
fn shown_by_first(alloc: Global, keys: &Keys, bytes: &[u8]) -> Result<Option<Shown>, AllocError>
    ensures exact { IfOk result (λ shown.
        shown ≡ so_far.shown_by_item keys.now (so_far.first_under keys.now bytes.now)) }
    ensures memory { OnErr result
        (stream.IsPacket (stream.told (so_far.first_under keys.now bytes.now))) }
{
    let Some((head, rest)) = bytes.split_first_chunk::<HEADER_SIZE>() else {
        return Ok(None);
    };
    let header = Header::read(head);
    if is_refused(&keys.present, &header) {
        return Ok(Some(Shown::Present));
    }
    let len = header.length as usize;
    if rest.len() < len {
        return Ok(None);
    }
    let body = Bytes::from_slice(alloc, &rest[..len])?;
    let shown = choose(alloc, keys, &Frame { header, body })?;
    Ok(Some(shown))
}

/// Which of a device's keys the bytes show that came on its connection so far: `None` while the
/// first packet isn't whole, and the present key where its header is refused. Without an old key
/// that is the present one in any case, and no byte is needed.
///
/// While the packet isn't whole, this takes constant time and no memory. Then its body is copied
/// once, and [`choose`] reads it. The error means that memory ran out.
pub fn shown_by(alloc: Global, keys: &Keys, bytes: &[u8]) -> Result<Option<Shown>, AllocError>
    ensures exact { IfOk result (λ shown. shown ≡ so_far.shown_so_far keys.now bytes.now) }
    // What is shown stays, whatever comes after.
    ensures stays { so_far.Stays keys.now }
    // Only a whole packet takes memory, and only where there is an old key.
    ensures memory { OnErr result (IsSome keys.now.old
        × stream.IsPacket (stream.told (so_far.first_under keys.now bytes.now))) }
{
    if keys.old.is_none() {
        return Ok(Some(Shown::Present));
    }
    shown_by_first(alloc, keys, bytes)
}

//! How what is sent is shown: packets with the pad taken off, in hexadecimal digits.

ghost use Rattle.std.specs.Prelude.{◌≡◌, ◌<◌, ◌++◌, ℕ, List, [], length};
ghost use Rattle.std.specs.Prelude.{MatchOption, IfOk, IfSome, OnOk};
ghost use Rattle.tac_wire.specs.declared.door.Door.TheVariants.{Padded};
ghost use Rattle.tac_conn.specs.declared.packet.Packet.{Packet};
ghost use Rattle.tac_desk.specs.Serving.{Said};
ghost use Rattle.tac_conn.specs.Packet.{IsWhole};
ghost use Rattle.tac_server.specs.Kept.{Sends};
ghost use Rattle.tac_server.specs.Events as events;

use std::alloc::{AllocError, Global};
use std::io;
use std::io::Write;
use tac_wire::{HEADER_SIZE, Header, KeyDoor};

// The first packet of what was sent, and what follows it; nothing where no packet is whole.
fn split_packet(bytes: &[u8]) -> Option<(&[u8], &[u8])>
    ensures parts { (packet rest : List ℕ) → IsWhole packet → bytes.now ≡ packet ++ rest →
        MatchOption result ⊥ (λ parts. (parts.0.now ≡ packet) × (parts.1.now ≡ rest)) }
    ensures shorter { IfSome result (λ parts. length parts.1.now < length bytes.now) }
{
    let (head, body) = bytes.split_first_chunk::<HEADER_SIZE>()?;
    let len = Header::read(head).length as usize;
    if body.len() < len {
        return None;
    }
    Some(bytes.split_at(HEADER_SIZE + len))
}

// A packet as it was sent, with the pad taken off.
fn unpadded(alloc: Global, key: &KeyDoor, sent: &[u8]) -> Result<Vec<u8>, AllocError>
    ensures { IfOk result (λ bytes. bytes.items ≡ events.unpadded key.now sent.now) }
{
    let mut bytes = Vec::from_slice(alloc, sent)?;
    let Some((head, _)) = sent.split_first_chunk::<HEADER_SIZE>() else {
        return Ok(bytes);
    };
    // putting the pad on again takes it off
    key.door().close(
        &Header::read(head),
        &mut bytes.as_mut_slice()[HEADER_SIZE..],
    );
    Ok(bytes)
}

// `reply N HEX`.
fn show_reply(
    alloc: Global,
    key: &KeyDoor,
    number: u16,
    sent: &[u8],
    out: &mut Vec<u8>,
) -> io::Result<()>
    ensures { OnOk result
        (out.new.items ≡ out.old.items ++ events.reply_line key.now number sent.now) }
{
    let bytes = unpadded(alloc, key, sent)?;
    let text = hex::encode(alloc, bytes.as_slice())?;
    writeln!(out, "reply {number} {text}")
}

// A line for each packet.
fn show_replies(
    alloc: Global,
    key: &KeyDoor,
    number: u16,
    sent: &[u8],
    out: &mut Vec<u8>,
) -> io::Result<()>
    ensures { (packets : List Packet) → Sends (Padded key.now) [] sent.now packets → OnOk result
        (out.new.items ≡ out.old.items ++ events.reply_lines key.now number packets) }
{
    let mut rest = sent;
    'replies: while let Some((packet, next)) = split_packet(rest) {
        show_reply(alloc, key, number, packet, out)?;
        rest = next;
    }
    Ok(())
}

/// A line for each packet, and one where the connection was closed. The error means that memory ran
/// out.
pub(crate) fn show(
    alloc: Global,
    key: &KeyDoor,
    number: u16,
    sent: &[u8],
    closes: bool,
    out: &mut Vec<u8>,
) -> io::Result<()>
    ensures { (said : Said) → Sends (Padded key.now) [] sent.now said.sent → closes ≡ said.closes →
        OnOk result (out.new.items ≡ out.old.items ++ events.shown key.now number said) }
{
    show_replies(alloc, key, number, sent, out)?;
    if closes {
        writeln!(out, "closed {number}")?;
    }
    Ok(())
}

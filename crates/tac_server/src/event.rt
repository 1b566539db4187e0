//! The lines after `run`.

ghost use Rattle.std.specs.Prelude.{◌≡◌, ◌∷◌, [], ◌<◌, length, IfOk, IfSome};
ghost use Rattle.std.specs.Option.{option_map, option_map_or, option_and_then};
ghost use Rattle.tac_server.specs.Command.{bytes_of, fields_of, hand_of, piece_size_of};
ghost use Rattle.tac_server.specs.Command.{wire_packet as packet_of, wire_packets as packets_of};
ghost use Rattle.tac_server.specs.Command.{numbered as numbered_text, event_by, event_of};

use crate::number::connection_number;
use basics::{Bytes, read_number, split_once};
use hex::FromHexError;
use std::alloc::{AllocError, Global};
use tac_wire::{HEADER_SIZE, Header, KeyDoor};

/// What a line asks for.
#[derive(Drop)]
pub(crate) enum Event {
    /// Opens a connection.
    Open(u16),
    /// Hands bytes in on a connection, as a client sends them.
    Hand(u16, Bytes),
    /// From now on, hands bytes in by pieces of this size.
    Pieces(usize),
    /// The connection is lost.
    Lost(u16),
    /// Says a line at the console.
    Console(Bytes),
}

// The bytes that hexadecimal digits of either case spell, at least one.
fn hexadecimal(alloc: Global, text: &[u8]) -> Result<Option<Bytes>, AllocError>
    ensures { IfOk result (λ bytes. bytes ≡ bytes_of text.now) }
{
    if text.is_empty() {
        return Ok(None);
    }
    match hex::decode(alloc, text) {
        Ok(bytes) => Ok(Some(Bytes::from(bytes))),
        Err(FromHexError::OutOfMemory) => Err(AllocError),
        Err(_) => Ok(None),
    }
}

// A clear packet as a client sends it: the pad is put on the body. Nothing where the bytes are too
// few for a header.
fn wire_packet(key: &KeyDoor, bytes: Bytes) -> Option<Bytes>
    ensures { result ≡ packet_of key.now bytes }
{
    let mut packet = bytes.into_vec();
    let (header, _) = packet.as_slice().split_first_chunk::<HEADER_SIZE>()?;
    let header = Header::read(header);
    let (_, body) = packet.as_mut_slice().split_at_mut(HEADER_SIZE);
    key.door().close(&header, body);
    Some(Bytes::from(packet))
}

// The packet that a field spells, as a client sends it.
fn spelled_packet(alloc: Global, key: &KeyDoor, field: &[u8]) -> Result<Option<Bytes>, AllocError>
    ensures { IfOk result (λ packet.
        packet ≡ option_and_then (packet_of key.now) (bytes_of field.now)) }
{
    let Some(bytes) = hexadecimal(alloc, field)? else {
        return Ok(None);
    };
    Ok(wire_packet(key, bytes))
}

// The first field of a text, and the text after the space that ends it, if one does.
fn first_field(text: &[u8]) -> (&[u8], Option<&[u8]>)
    ensures fields { fields_of text.now
        ≡ result.0.now ∷ option_map_or (λ rest. fields_of rest.now) result.1 [] }
    ensures shorter { IfSome result.1 (λ rest. length rest.now < length text.now) }
{
    match split_once(text, b' ') {
        Some((field, rest)) => (field, Some(rest)),
        None => (text, None),
    }
}

// The packets that the fields of a text spell, joined. Linear.
fn wire_packets(alloc: Global, key: &KeyDoor, text: &[u8]) -> Result<Option<Bytes>, AllocError>
    ensures { IfOk result (λ packets. packets ≡ packets_of key.now (fields_of text.now)) }
{
    let mut packets = Bytes::new(alloc);
    let mut rest = Some(text);
    'fields: while let Some(fields) = rest {
        let (field, next) = first_field(fields);
        let Some(packet) = spelled_packet(alloc, key, field)? else {
            return Ok(None);
        };
        packets.extend_from_slice(packet.as_slice())?;
        rest = next;
    }
    Ok(Some(packets))
}

// `N`, and what follows the space after it.
fn numbered(text: &[u8]) -> Option<(u16, &[u8])>
    ensures { option_map (λ parts. (parts.0, parts.1.now)) result ≡ numbered_text text.now }
{
    let (number, rest) = split_once(text, b' ')?;
    let number = connection_number(number)?;
    Some((number, rest))
}

// `packet N HEX HEX ..`, after its first word.
fn hand_packets(alloc: Global, key: &KeyDoor, rest: &[u8]) -> Result<Option<Event>, AllocError>
    ensures { IfOk result (λ event.
        event ≡ hand_of (λ text. packets_of key.now (fields_of text)) rest.now) }
{
    let Some((number, text)) = numbered(rest) else {
        return Ok(None);
    };
    let Some(packets) = wire_packets(alloc, key, text)? else {
        return Ok(None);
    };
    Ok(Some(Event::Hand(number, packets)))
}

// `bytes N HEX`, after its first word.
fn hand_bytes(alloc: Global, rest: &[u8]) -> Result<Option<Event>, AllocError>
    ensures { IfOk result (λ event. event ≡ hand_of bytes_of rest.now) }
{
    let Some((number, text)) = numbered(rest) else {
        return Ok(None);
    };
    let Some(bytes) = hexadecimal(alloc, text)? else {
        return Ok(None);
    };
    Ok(Some(Event::Hand(number, bytes)))
}

// The size of pieces: 1 to 4 digits, not all of them 0.
fn piece_size(text: &[u8]) -> Option<usize>
    ensures { result ≡ piece_size_of text.now }
{
    let size = read_number(text, 4)?;
    if size == 0 {
        return None;
    }
    Some(size as usize)
}

// A line of this first word, which a space follows.
#[tactic(auto, unfolding(crate::specs::Command::event_by))]
fn worded(
    alloc: Global,
    key: &KeyDoor,
    word: &[u8],
    rest: &[u8],
) -> Result<Option<Event>, AllocError>
    ensures { IfOk result (λ event. event ≡ event_by key.now word.now rest.now) }
{
    if word == b"open".as_slice() {
        return Ok(connection_number(rest).map(Event::Open));
    }
    if word == b"packet".as_slice() {
        return hand_packets(alloc, key, rest);
    }
    if word == b"bytes".as_slice() {
        return hand_bytes(alloc, rest);
    }
    if word == b"pieces".as_slice() {
        return Ok(piece_size(rest).map(Event::Pieces));
    }
    if word == b"lost".as_slice() {
        return Ok(connection_number(rest).map(Event::Lost));
    }
    if word == b"console".as_slice() {
        let line = Bytes::from_slice(alloc, rest)?;
        return Ok(Some(Event::Console(line)));
    }
    Ok(None)
}

/// What the line asks for; nothing where it is no command. The key pads clear packets. Linear.
#[tactic(auto, unfolding(crate::specs::Command::event_of))]
pub(crate) fn read_event(
    alloc: Global,
    key: &KeyDoor,
    line: &[u8],
) -> Result<Option<Event>, AllocError>
    ensures { IfOk result (λ event. event ≡ event_of key.now line.now) }
{
    let Some((word, rest)) = split_once(line, b' ') else {
        return Ok(None);
    };
    worded(alloc, key, word, rest)
}

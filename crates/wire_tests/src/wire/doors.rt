//! Packets that come by a door, and replies that are sent by one: in clear, as RFC 9887 has them,
//! and under the pad of the key `k`. The pads were worked out by Python's hashlib, by the formula
//! of RFC 8907, section 4.5.

use crate::wire::cases::{answers, bytes, shown, told};
use std::alloc::Global;
use std::test::Fail;
use tac_conn::{Conn, Packet, SENT_MAX, Step};
use tac_wire::{Door, Frame, Framer, Key, Next};

// The door of a key, or `clear`.
fn door_of(word: &str) -> Result<Door, Fail> {
    if word == "clear" {
        return Ok(Door::Clear);
    }
    let key = Key::read(word.as_bytes()).ok_or("no key")?;
    Ok(Door::Padded(key))
}

// What a framer tells of these bytes, that came by this door.
fn next_by(alloc: Global, door: &Door, packet: &str) -> Result<Next, Fail> {
    let packet = bytes(alloc, packet)?;
    let mut framer = Framer::new(alloc);
    framer.feed(packet.as_slice())?;
    Ok(framer.next(door)?)
}

// `DOOR PACKET`: the body of a packet that came so, or why it is refused.
pub(crate) fn came(alloc: Global, given: &str) -> Result<String, Fail> {
    let (word, packet) = given.split_once(' ').ok_or("no packet")?;
    let door = door_of(word)?;
    match next_by(alloc, &door, packet)? {
        Next::Packet(frame) => {
            let packet = Packet::clear(&door, frame);
            shown(alloc, &[], &[packet.body.as_slice()], &[])
        }
        Next::Fault(refused) => told(alloc, refused.fault),
        _ => Err(Fail::from("no packet")),
    }
}

// Whether the connection closes, and what is sent.
fn replied(alloc: Global, door: &Door, frame: Frame) -> Result<String, Fail> {
    let mut conn = Conn::new(alloc);
    let (_received, step) = conn.take(door, frame)?;
    let Step::Reply(reply, closes) = step else {
        return Err(Fail::from("no reply"));
    };
    let mut sent = Vec::with_capacity(alloc, SENT_MAX)?;
    reply.send_to(door, &mut sent);
    shown(alloc, &[u32::from(closes)], &[sent.as_slice()], &[])
}

// `DOOR PACKET`: the same of a packet that came first on its connection.
pub(crate) fn said(alloc: Global, given: &str) -> Result<String, Fail> {
    let (word, packet) = given.split_once(' ').ok_or("no packet")?;
    let door = door_of(word)?;
    match next_by(alloc, &door, packet)? {
        Next::Packet(frame) => replied(alloc, &door, frame),
        _ => Err(Fail::from("no packet")),
    }
}

// In clear the flag 0x01 says that the body is so, and without it no body is read.
#[test]
fn bodies_that_came(rt: HostRuntime) -> Result<(), Fail> {
    answers(
        &rt,
        "
        came clear c0010101.00000001.00000003'abc' = 'abc'
        came clear c0010105.00000001.00000003'abc' = 'abc'
        came clear c0010100.00000001.00000003'abc' = ''
        came clear c00101fe.00000001.00000003'abc' = ''
        came k c0010100.00000001.00000003.f7c642 = 'abc'
        came k c0010101.00000001.00000003'abc' = Unencrypted
        came clear d0010101.00000001.00000003'abc' = BadVersion
        came clear c0010101.00000001.00020004 = TooLong
        ",
    )
}

// A login without a name is asked for one, and one whose body isn't read is an error.
#[test]
fn replies_that_are_sent(rt: HostRuntime) -> Result<(), Fail> {
    answers(
        &rt,
        "
        said clear c0010101.00000001.0000000c.0101010100040000'tty0' = 0 \
        c001020100000001000000100400000a0000557365726e616d653a20
        said clear c0010105.00000001.0000000c.0101010100040000'tty0' = 0 \
        c001020500000001000000100400000a0000557365726e616d653a20
        said clear c0010100.00000001.0000000c.0101010100040000'tty0' = 1 \
        c0010201000000010000000e07000008000062616420626f6479
        said k c0010100.00000001.0000000c.97a52092e373abe003ffde5d = 0 \
        c00102000000000100000010532482b6289f94287a4c82833dbe4089
        ",
    )
}

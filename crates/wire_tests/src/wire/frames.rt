//! Packets out of a stream that comes in pieces, and the digest of CHAP.

ghost use Rattle.std.specs.Prelude.{◌<◌};

use std::alloc::AllocError;
use std::process::Abort;
use std::test::Fail;
use tac_wire::{Door, FrameFault, Framer, Key, Next, chap_response};

/// Two packets: a body of three bytes, and none.
const STREAM: &[u8] =
    b"\xc0\x02\x01\x00\x00\x00\x00\x01\x00\x00\x00\x03abc\xc1\x01\x01\x04\x00\x00\x00\x02\x00\x00\x00\x00";

// One with a pad, which a framer doesn't take off.
fn door() -> Result<Door, Fail> {
    let key = Key::read(b"k").ok_or("no key")?;
    Ok(Door::Padded(key))
}

// Whether this is a packet of this session and body, or what a word stands for.
fn is_next(next: &Next, session: u32, text: &[u8]) -> bool {
    match next {
        Next::Packet(frame) => frame.header.session == session && frame.body.as_slice() == text,
        Next::Need => session == 0 && text == b"(need)".as_slice(),
        Next::Fault(_) => session == 0 && text == b"(fault)".as_slice(),
        Next::Ended => session == 0 && text == b"(ended)".as_slice(),
    }
}

// What the framer tells next: a packet's session and body, or a word for all else.
fn told<R: Abort>(rt: &R, framer: &mut Framer, session: u32, text: &[u8]) -> Result<(), Fail> {
    let next = framer.next(&door()?)?;
    assert!(rt; is_next(&next, session, text), "{session} {text:?}");
    Ok(())
}

// The session of the next packet, if it is whole.
fn next_session(framer: &mut Framer) -> Result<Option<u32>, Fail> {
    match framer.next(&door()?)? {
        Next::Packet(frame) => Ok(Some(frame.header.session)),
        _ => Ok(None),
    }
}

// Adds the sessions of the packets that are whole, of at most three.
fn push_sessions(framer: &mut Framer, sessions: &mut Vec<u32>) -> Result<(), Fail> {
    for _ in 0..3 {
        match next_session(framer)? {
            Some(session) => sessions.push(session)?,
            None => return Ok(()),
        }
    }
    Ok(())
}

// Both packets come in pieces of this size.
fn takes_pieces<R: Abort>(
    rt: &R,
    framer: &mut Framer,
    sessions: &mut Vec<u32>,
    size: usize,
) -> Result<(), Fail>
    requires { 0 < size }
{
    for piece in STREAM.chunks(size) {
        framer.feed(piece)?;
        push_sessions(framer, sessions)?;
    }
    assert!(rt; sessions.as_slice() == [1, 2].as_slice());
    told(rt, framer, 0, b"(need)")
}

fn comes_in_pieces<R: Abort + AllocGlobal>(rt: &R, size: usize) -> Result<(), Fail>
    requires { 0 < size }
{
    let mut framer = Framer::new(rt.alloc());
    let mut sessions = Vec::new(rt.alloc());
    takes_pieces(rt, &mut framer, &mut sessions, size)
}

#[test]
fn pieces_of_any_size(rt: HostRuntime) -> Result<(), Fail> {
    for size in 1..=STREAM.len() {
        comes_in_pieces(&rt, size)?;
    }
    Ok(())
}

// Packets are told as soon as they are whole.
fn waits_for_nothing<R: Abort>(rt: &R, framer: &mut Framer) -> Result<(), Fail> {
    told(rt, framer, 0, b"(need)")?;
    framer.feed(&STREAM[..14])?;
    told(rt, framer, 0, b"(need)")?;
    framer.feed(&STREAM[14..])?;
    told(rt, framer, 1, b"abc")?;
    told(rt, framer, 2, b"")?;
    told(rt, framer, 0, b"(need)")
}

#[test]
fn a_packet_waits_for_nothing_after_it(rt: HostRuntime) -> Result<(), Fail> {
    let mut framer = Framer::new(rt.alloc());
    waits_for_nothing(&rt, &mut framer)
}

// The framer tells next that this header is refused, and with this fault.
fn tells_fault<R: Abort>(
    rt: &R,
    framer: &mut Framer,
    header: &[u8],
    fault: FrameFault,
) -> Result<(), Fail> {
    let Next::Fault(refused) = framer.next(&door()?)? else {
        return Err(Fail::from("no fault"));
    };
    assert_eq!(rt; refused.fault, fault);
    assert_eq!(rt; refused.header.write().as_slice(), header);
    Ok(())
}

// After a packet the header is refused with this fault, which ends the stream.
fn ends_by<R: Abort>(
    rt: &R,
    framer: &mut Framer,
    header: &[u8],
    fault: FrameFault,
) -> Result<(), Fail> {
    framer.feed(&STREAM[..15])?;
    framer.feed(header)?;
    told(rt, framer, 1, b"abc")?;
    tells_fault(rt, framer, header, fault)?;
    // It is told once, and nothing is kept from then on.
    told(rt, framer, 0, b"(ended)")?;
    framer.feed(STREAM)?;
    told(rt, framer, 0, b"(ended)")
}

// The same of a new framer.
fn refuses<R: Abort + AllocGlobal>(rt: &R, header: &[u8], fault: FrameFault) -> Result<(), Fail> {
    let mut framer = Framer::new(rt.alloc());
    ends_by(rt, &mut framer, header, fault)
}

// The body of this header is waited for.
fn waits<R: Abort>(rt: &R, framer: &mut Framer, header: &[u8]) -> Result<(), Fail> {
    framer.feed(header)?;
    told(rt, framer, 0, b"(need)")
}

#[test]
fn headers_that_end_a_stream(rt: HostRuntime) -> Result<(), Fail> {
    let cases: [(&[u8], FrameFault); 7] = [
        (
            b"\xd0\x01\x01\x00\x00\x00\x00\x01\x00\x00\x00\x00",
            FrameFault::BadVersion,
        ),
        (
            b"\xc2\x01\x01\x00\x00\x00\x00\x01\x00\x00\x00\x00",
            FrameFault::BadVersion,
        ),
        (
            b"\xc0\x01\x01\x01\x00\x00\x00\x01\x00\x00\x00\x00",
            FrameFault::Unencrypted,
        ),
        (
            b"\xc0\x01\x01\x05\x00\x00\x00\x01\x00\x00\x00\x00",
            FrameFault::Unencrypted,
        ),
        // Before a byte of its body is there.
        (
            b"\xc0\x01\x01\x00\x00\x00\x00\x01\x00\x02\x00\x04",
            FrameFault::TooLong,
        ),
        // The first of two.
        (
            b"\xc2\x01\x01\x01\x00\x00\x00\x01\xff\xff\xff\xff",
            FrameFault::BadVersion,
        ),
        (
            b"\xc0\x01\x01\x01\x00\x00\x00\x01\xff\xff\xff\xff",
            FrameFault::Unencrypted,
        ),
    ];
    for (header, fault) in &cases {
        refuses(&rt, header, *fault)?;
    }
    // The longest body is waited for; other flags don't matter.
    let mut framer = Framer::new(rt.alloc());
    let longest = b"\xc0\x01\x01\xfe\x00\x00\x00\x01\x00\x02\x00\x03";
    waits(&rt, &mut framer, longest)
}

// How many packets are whole, of at most three.
fn whole_packets(framer: &mut Framer, door: &Door) -> Result<u64, Fail> {
    for count in 0..3 {
        match framer.next(door)? {
            Next::Packet(_) => {}
            _ => return Ok(count),
        }
    }
    Ok(3)
}

// How many packets become whole by a text that comes in pieces of a hundred bytes.
fn packets_of(framer: &mut Framer, door: &Door, text: &[u8]) -> Result<u64, Fail> {
    let mut count: u64 = 0;
    for piece in text.chunks(100) {
        framer.feed(piece)?;
        count = count.saturating_add(whole_packets(framer, door)?);
    }
    Ok(count)
}

// Adds twenty-five packets, each of a body of 52 bytes.
fn push_small_packets(text: &mut Vec<u8>) -> Result<(), AllocError> {
    for _ in 0..25 {
        text.extend_from_slice(b"\xc0\x02\x01\x00\x00\x00\x00\x01\x00\x00\x00\x34")?;
        text.extend_from_slice(&[b'x'; 52])?;
    }
    Ok(())
}

// How many packets become whole by 62,500 such texts.
fn many_packets_of(framer: &mut Framer, door: &Door, text: &[u8]) -> Result<u64, Fail> {
    let mut count: u64 = 0;
    for _ in 0..62_500 {
        count = count.saturating_add(packets_of(framer, door, text)?);
    }
    Ok(count)
}

// What the framer shows of itself is short.
fn is_short<R: Abort + AllocGlobal>(rt: &R, framer: &Framer) -> Result<(), Fail> {
    let shown = format!(in rt.alloc(); "{framer:?}")?;
    assert!(rt; shown.len() < 10_000, "{} bytes", shown.len());
    Ok(())
}

// The framer takes very many packets, and is short then.
fn takes_many<R: Abort + AllocGlobal>(
    rt: &R,
    framer: &mut Framer,
    text: &[u8],
) -> Result<(), Fail> {
    assert_eq!(rt; many_packets_of(framer, &door()?, text)?, 1_562_500);
    is_short(rt, framer)
}

// Of 100 million bytes it keeps few: what it shows of itself is short.
fn keeps_few<R: Abort + AllocGlobal>(rt: &R, text: &[u8]) -> Result<(), Fail> {
    let mut framer = Framer::new(rt.alloc());
    takes_many(rt, &mut framer, text)
}

#[test]
fn many_small_packets(rt: HostRuntime) -> Result<(), Fail> {
    let mut text = Vec::new(rt.alloc());
    push_small_packets(&mut text)?;
    keeps_few(&rt, text.as_slice())
}

// The digest of `abc` is one of RFC 1321's own.
#[test]
fn a_response_to_a_challenge(rt: HostRuntime) {
    let expected = [
        0x90, 0x01, 0x50, 0x98, 0x3c, 0xd2, 0x4f, 0xb0, 0xd6, 0x96, 0x3f, 0x7d, 0x28, 0xe1, 0x7f,
        0x72,
    ];
    assert!(rt; chap_response(b'a', b"b", b"c") == expected);
    assert!(rt; chap_response(b'a', b"bc", b"") == expected);
}

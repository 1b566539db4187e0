//! Packets under the keys `fjord` and `tundra` of a device, the present one and the old one. Those
//! that are valid under both were found, and all answers worked out, by Python's hashlib, by the
//! formula of RFC 8907, section 4.5.

use basics::Bytes;
use std::alloc::Global;
use std::process::Abort;
use std::test::Fail;
use tac_first::{Keys, Shown, choose, shown_by};
use tac_wire::{Door, Frame, HEADER_SIZE, Header, Key, KeyDoor};

fn key(text: &str) -> Result<Key, Fail> {
    let key = Key::read(text.as_bytes()).ok_or("no key")?;
    Ok(key)
}

fn key_door(text: &str) -> Result<KeyDoor, Fail> {
    Ok(KeyDoor::new(key(text)?))
}

fn keys() -> Result<Keys, Fail> {
    let present = key_door("fjord")?;
    let old = Some(key_door("tundra")?);
    Ok(Keys { present, old })
}

// The bytes of a packet with the pad of a key, or without a pad.
fn sent(alloc: Global, by: &str, packet: &str) -> Result<Vec<u8>, Fail> {
    if by == "clear" {
        return Ok(packet_notation::bytes(alloc, packet)?);
    }
    let key = key(by)?;
    Ok(packet_notation::packet(alloc, &key, packet)?)
}

fn frame_of(alloc: Global, bytes: &[u8]) -> Result<Frame, Fail> {
    let (header, body) = bytes.split_first_chunk::<HEADER_SIZE>().ok_or("no header")?;
    let body = Bytes::from_slice(alloc, body)?;
    Ok(Frame {
        header: Header::read(header),
        body,
    })
}

fn which(word: &str) -> Result<Shown, Fail> {
    match word {
        "Present" => Ok(Shown::Present),
        "Old" => Ok(Shown::Old),
        _ => Err(Fail::from("no such key")),
    }
}

// A packet under this key shows that key.
fn is_shown<R: Abort + AllocGlobal>(
    rt: &R,
    keys: &Keys,
    by: &str,
    packet: &str,
    wanted: &str,
) -> Result<(), Fail> {
    let bytes = sent(rt.alloc(), by, packet)?;
    let frame = frame_of(rt.alloc(), bytes.as_slice())?;
    let shown = choose(rt.alloc(), keys, &frame)?;
    assert_eq!(rt; shown, which(wanted)?, "by {by} {packet}");
    Ok(())
}

// `KEY PACKET = Shown`, or a comment.
fn line_is_shown<R: Abort + AllocGlobal>(rt: &R, keys: &Keys, line: &str) -> Result<(), Fail> {
    if line.is_empty() || line.starts_with('#') {
        return Ok(());
    }
    let (given, wanted) = line.split_once(" = ").ok_or("no key is wanted")?;
    let (by, packet) = given.split_once(' ').ok_or("no packet")?;
    is_shown(rt, keys, by, packet, wanted)
}

fn all_shown<R: Abort + AllocGlobal>(rt: &R, keys: &Keys, lines: &str) -> Result<(), Fail> {
    for line in lines.lines() {
        line_is_shown(rt, keys, line.trim_start())?;
    }
    Ok(())
}

// `FIELDS = Shown`: a packet under the old key, by its fixed fields.
fn fields_shown<R: Abort + AllocGlobal>(
    rt: &R,
    keys: &Keys,
    header: &str,
    line: &str,
    rest: &str,
) -> Result<(), Fail> {
    let (fields, wanted) = line.split_once(" = ").ok_or("no key is wanted")?;
    let packet = format!(in rt.alloc(); "{header}.{fields}.{rest}")?;
    is_shown(rt, keys, "tundra", packet.as_str(), wanted)
}

fn all_fields_shown<R: Abort + AllocGlobal>(
    rt: &R,
    header: &str,
    rest: &str,
    lines: &str,
) -> Result<(), Fail> {
    let keys = keys()?;
    for line in lines.lines() {
        fields_shown(rt, &keys, header, line.trim_start(), rest)?;
    }
    Ok(())
}

#[test]
fn first_packets(rt: HostRuntime) -> Result<(), Fail> {
    let keys = keys()?;
    all_shown(
        &rt,
        &keys,
        "# a START, a request and a record under each key, and under a third
        fjord c0010100.00000001.0000000d.01010101.05000000.'alice' = Present
        tundra c0010100.00000001.0000000d.01010101.05000000.'alice' = Old
        taiga c0010100.00000001.0000000d.01010101.05000000.'alice' = Present
        fjord c0020100.00000001.0000001b.06010101.05000001.0d.'alice''service=shell' = Present
        tundra c0020100.00000001.0000001b.06010101.05000001.0d.'alice''service=shell' = Old
        taiga c0020100.00000001.0000001b.06010101.05000001.0d.'alice''service=shell' = Present
        fjord c0030100.00000001.00000018.02.06010101.05000001.09.'alice''task_id=7' = Present
        tundra c0030100.00000001.00000018.02.06010101.05000001.09.'alice''task_id=7' = Old
        taiga c0030100.00000001.00000018.02.06010101.05000001.09.'alice''task_id=7' = Present
        # values that mean nothing, and a body that is none of its type
        fjord c0010100.00000001.0000000d.03100709.05000000.'alice' = Present
        tundra c0010100.00000001.0000000d.03100709.05000000.'alice' = Old
        tundra c0010100.00000001.0000000d.01010101.06000000.'alice' = Present
        tundra c0010100.00000001.00000000 = Present
        # types that aren't served
        tundra c0040100.00000001.0000000d.01010101.05000000.'alice' = Present
        tundra c0000100.00000001.0000000d.01010101.05000000.'alice' = Present
        # the flag of a body without a pad: a stream gives no such packet, and it isn't looked at
        clear c0010101.00000001.0000000d.01010101.05000000.'alice' = Present
        tundra c0010101.00000001.0000000d.01010101.05000000.'alice' = Old
        # valid under both: with such values under the old one, under the present one, under none
        tundra c0010100.00004709.00000020.01010101.00080907.'in a room of some school' = Old
        fjord c0010100.00004709.00000020.01010101.13050000.'in a room of some school' = Present
        tundra c0010100.00004709.00000020.01010701.00080907.'in a room of some school' = Present
        fjord c0010100.00004709.00000020.01010701.13050000.'in a room of some school' = Present",
    )
}

// Each of them is valid under the present key too, with a level that means nothing.
#[test]
fn fields_of_starts(rt: HostRuntime) -> Result<(), Fail> {
    all_fields_shown(
        &rt,
        "c0010100.00004709.00000020",
        "00080907.'in a room of some school'",
        "00010101 = Present
        01010101 = Old
        02010101 = Old
        03010101 = Present
        04010101 = Old
        05010101 = Present
        01000101 = Old
        010f0101 = Old
        01100101 = Present
        01010001 = Present
        01010601 = Old
        01010701 = Present
        01010100 = Old
        01010109 = Old
        0101010a = Present",
    )
}

#[test]
fn fields_of_requests(rt: HostRuntime) -> Result<(), Fail> {
    all_fields_shown(
        &rt,
        "c0020100.00009ff9.00000020",
        "10000800.91e83a'in a room of a school'",
        "00010101 = Old
        06010101 = Old
        07010101 = Present
        08010101 = Old
        09010101 = Present
        0f010101 = Present
        10010101 = Old
        11010101 = Old
        12010101 = Present
        1f010101 = Present
        20010101 = Old
        21010101 = Present
        010f0101 = Old
        01100101 = Present
        01010001 = Old
        01010601 = Old
        01010701 = Present
        01010109 = Old
        0101010a = Present",
    )
}

#[test]
fn fields_of_records(rt: HostRuntime) -> Result<(), Fail> {
    all_fields_shown(
        &rt,
        "c0030100.00040fef.00000021",
        "08001000.96'in a room of the school'",
        "00.01010101 = Present
        01.01010101 = Present
        02.01010101 = Old
        03.01010101 = Present
        04.01010101 = Old
        06.01010101 = Present
        08.01010101 = Old
        0a.01010101 = Old
        0c.01010101 = Present
        0e.01010101 = Present
        12.01010101 = Present
        02.07010101 = Present
        02.01100101 = Present
        02.01010001 = Old
        02.01010701 = Present
        02.0101010a = Present",
    )
}

// The key whose pad a door has.
fn key_of(door: &Door) -> &[u8] {
    match door {
        Door::Padded(key) => key.as_slice(),
        Door::Clear => b"",
    }
}

#[test]
fn keys_that_are_meant(rt: HostRuntime) -> Result<(), Fail> {
    let two = keys()?;
    assert_eq!(rt; key_of(two.door_of(Shown::Present)), b"fjord".as_slice());
    assert_eq!(rt; key_of(two.door_of(Shown::Old)), b"tundra".as_slice());
    let one = Keys {
        present: key_door("fjord")?,
        old: None,
    };
    assert_eq!(rt; key_of(one.door_of(Shown::Old)), b"fjord".as_slice());
    all_shown(
        &rt,
        &one,
        "tundra c0010100.00000001.0000000d.01010101.05000000.'alice' = Present",
    )
}

// `KEY BYTES = Some(Shown)`: what these bytes show that begin with a packet, or with a part of one.
fn are_shown<R: Abort + AllocGlobal>(rt: &R, keys: &Keys, line: &str) -> Result<(), Fail> {
    let (given, wanted) = line.split_once(" = ").ok_or("nothing is wanted")?;
    let (by, packet) = given.split_once(' ').ok_or("no bytes")?;
    let bytes = sent(rt.alloc(), by, packet)?;
    let shown = shown_by(rt.alloc(), keys, bytes.as_slice())?;
    let told = format!(in rt.alloc(); "{shown:?}")?;
    assert_eq!(rt; told.as_str(), wanted, "by {by} {packet}");
    Ok(())
}

fn pieces_shown<R: Abort + AllocGlobal>(rt: &R, keys: &Keys, lines: &str) -> Result<(), Fail> {
    for line in lines.lines() {
        are_shown(rt, keys, line.trim_start())?;
    }
    Ok(())
}

#[test]
fn bytes_so_far(rt: HostRuntime) -> Result<(), Fail> {
    pieces_shown(
        &rt,
        &keys()?,
        "tundra c0010100.00000001.000000 = None
        tundra c0010100.00000001.0000000d = None
        tundra c0010100.00000001.0000000d.01010101.05000000.'alic' = None
        tundra c0010100.00000001.0000000d.01010101.05000000.'alice' = Some(Old)
        tundra c0010100.00000001.0000000d.01010101.05000000.'alice, and more' = Some(Old)
        fjord c0010100.00000001.0000000d.01010101.05000000.'alic' = None
        fjord c0010100.00000001.0000000d.01010101.05000000.'alice' = Some(Present)
        clear c0010101.00000001.000000 = None
        clear c0010101.00000001.0000000d = Some(Present)
        clear b0010100.00000001.0000000d = Some(Present)
        clear c1010100.00000001.0000000d = None
        clear c2010100.00000001.0000000d = Some(Present)
        clear c0010100.00000001.00020003 = None
        clear c0010100.00000001.00020004 = Some(Present)",
    )
}

#[test]
fn no_bytes_without_an_old_key(rt: HostRuntime) -> Result<(), Fail> {
    let keys = Keys {
        present: key_door("fjord")?,
        old: None,
    };
    pieces_shown(&rt, &keys, "clear c0 = Some(Present)")
}

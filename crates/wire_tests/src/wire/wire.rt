//! Headers, keys, the pad, and fields of given lengths.

use crate::wire::cases::{answers, bytes, shown, told};
use std::alloc::Global;
use std::test::Fail;
use tac_wire::{Header, Key, PacketType, cut, pad_in_place};

pub(crate) fn key(alloc: Global, given: &str) -> Result<String, Fail> {
    match Key::read(bytes(alloc, given)?.as_slice()) {
        Some(key) => shown(alloc, &[], &[key.as_slice()], &[]),
        None => told(alloc, ()),
    }
}

// The header of these digits.
fn header_of(alloc: Global, digits: &str) -> Result<Header, Fail> {
    let header = bytes(alloc, digits)?;
    match header.as_slice().split_first_chunk::<12>() {
        Some((header, [])) => Ok(Header::read(header)),
        _ => Err(Fail::from("no header")),
    }
}

// The body with the pad on by the key `secret key`; taken off again, it is the body.
fn padded(alloc: Global, header: &Header, clear: &[u8], body: &mut [u8]) -> Result<String, Fail> {
    let key = Key::read(b"secret key").ok_or("no key")?;
    pad_in_place(header, &key, body);
    let text = shown(alloc, &[], &[body], &[])?;
    pad_in_place(header, &key, body);
    if &*body == clear {
        Ok(text)
    } else {
        Err(Fail::from("another body"))
    }
}

// The same of a body that is copied.
fn shown_padded(alloc: Global, header: &Header, clear: &[u8]) -> Result<String, Fail> {
    let mut body = Vec::from_slice(alloc, clear)?;
    padded(alloc, header, clear, body.as_mut_slice())
}

// `HEADER BODY`: the body with the pad on.
pub(crate) fn pad(alloc: Global, given: &str) -> Result<String, Fail> {
    let (header, body) = given.split_once(' ').ok_or("no body")?;
    let header = header_of(alloc, header)?;
    let clear = bytes(alloc, body)?;
    shown_padded(alloc, &header, clear.as_slice())
}

// The digests were worked out by Python's hashlib, by the formula of RFC 8907, section 4.5.
#[test]
fn keys_and_pads(rt: HostRuntime) -> Result<(), Fail> {
    answers(
        &rt,
        "
        key 'k' = 'k'
        key ' ' = ' '
        key 'two words' = 'two words'
        key '~' = '~'
        key = ()
        key 'a'7f = ()
        key 1f'a' = ()
        key 09 = ()
        key ff = ()

        pad c10205000102030400000028 000102030405060708090a0b0c0d0e0f101112131415161718191a1b1c1d1e1f2021222324252627 = 079706acb44d5d88bac28feab53601f103402f49970646d5c9dcdacfa734b0c0010d7e4f92104e69
        # A body of no bytes has no pad.
        pad c10205000102030400000000  = ''
        ",
    )?;
    assert!(rt; Key::read(&[b'x'; 128]).is_some());
    assert!(rt; Key::read(&[b'x'; 129]).is_none());
    Ok(())
}

#[test]
fn a_header(rt: HostRuntime) {
    let bytes = *b"\xc1\x02\x05\x04\x01\x02\x03\x04\x00\x01\xff\xfe";
    let header = Header {
        version: 0xc1,
        kind: PacketType::AUTHORISATION,
        seq: 5,
        flags: Header::SINGLE_CONNECTION,
        session: 0x0102_0304,
        length: 131_070,
    };
    assert_eq!(rt; Header::read(&bytes), header);
    assert_eq!(rt; header.write(), bytes);
}

#[test]
fn fields_of_given_lengths(rt: HostRuntime) -> Result<(), Fail> {
    let fields = cut(rt.alloc(), &[3, 0, 2], b"abcdefg")?;
    let text = shown(rt.alloc(), &[], &[], fields.as_slice())?;
    assert_eq!(rt; text.as_str(), " 'abc' '' 'de'");
    Ok(())
}

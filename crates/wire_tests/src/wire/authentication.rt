//! Bodies of authentication packets, worked out by hand from RFC 8907, section 5.

use crate::wire::cases::{answers, bytes, shown, told};
use std::alloc::{AllocError, Global};
use std::test::Fail;
use tac_authen::{read_continue, read_reply, read_start, write_reply};

// Action, level, authen_type, service, and the four fields.
pub(crate) fn start(alloc: Global, body: &str) -> Result<String, Fail> {
    let body = bytes(alloc, body)?;
    match read_start(alloc, body.as_slice()) {
        Ok(start) => shown(
            alloc,
            &[
                u32::from(start.action.0),
                u32::from(start.priv_lvl),
                u32::from(start.authen_type.0),
                u32::from(start.service.0),
            ],
            &[
                start.user.as_slice(),
                start.port.as_slice(),
                start.rem_addr.as_slice(),
                start.extra.as_slice(),
            ],
            &[],
        ),
        Err(fault) => told(alloc, fault),
    }
}

// Whether the client gives up, and both fields.
pub(crate) fn continuation(alloc: Global, body: &str) -> Result<String, Fail> {
    let body = bytes(alloc, body)?;
    match read_continue(alloc, body.as_slice()) {
        Ok(answer) => shown(
            alloc,
            &[u32::from(answer.is_abort())],
            &[answer.user_msg.as_slice(), answer.extra.as_slice()],
            &[],
        ),
        Err(fault) => told(alloc, fault),
    }
}

// Status, whether what is typed isn't shown, whether the body is written again, and the text.
pub(crate) fn authentication_reply(alloc: Global, body: &str) -> Result<String, Fail> {
    let body = bytes(alloc, body)?;
    match read_reply(body.as_slice()) {
        Ok(reply) => {
            let is_again = write_reply(&reply).as_slice() == body.as_slice();
            let numbers = [
                u32::from(reply.status.0),
                u32::from(reply.noecho),
                u32::from(is_again),
            ];
            shown(alloc, &numbers, &[reply.msg.as_slice()], &[])
        }
        Err(fault) => told(alloc, fault),
    }
}

#[test]
fn authentication(rt: HostRuntime) -> Result<(), Fail> {
    answers(
        &rt,
        "
        start 010f010203040802'bobtty010.0.0.7hi' = 1 15 1 2 'bob' 'tty0' '10.0.0.7' 'hi'
        start = Short
        start 010f0102ff0400 = Short
        start 010f010203000000'bo' = LengthSum
        start 010f010203000000'bobs' = LengthSum

        # ABORT is a bit.
        continue 0003000200'bobhi' = 0 'bob' 'hi'
        continue 0003000201'bobhi' = 1 'bob' 'hi'
        continue 00030002fe'bobhi' = 0 'bob' 'hi'
        continue 00030002ff'bobhi' = 1 'bob' 'hi'
        continue 00090009 = Short
        continue 0001000000 = LengthSum

        authentication-reply 010000000000 = 1 0 1 ''
        authentication-reply 020000000000 = 2 0 1 ''
        authentication-reply 0400000a0000'Username: ' = 4 0 1 'Username: '
        authentication-reply 0501000a0000'Password: ' = 5 1 1 'Password: '
        authentication-reply 070000080000'bad body' = 7 0 1 'bad body'
        authentication-reply 0100004100 = Short
        authentication-reply 010000410001 = LengthSum
        authentication-reply 010000020001'okx' = TooLong
        authentication-reply 010000410000'00000000000000000000000000000000000000000000000000000000000000000' = TooLong
        # Of the flags only NOECHO is written again.
        authentication-reply 050300000000 = 5 1 0 ''
        ",
    )?;
    let odd = read_reply(b"\x05\x03\x00\x00\x00\x00")?;
    assert!(rt; write_reply(&odd).as_slice() == b"\x05\x01\x00\x00\x00\x00".as_slice());
    Ok(())
}

// Adds a body with the longest of both fields.
fn push_longest(body: &mut Vec<u8>) -> Result<(), AllocError> {
    body.extend_from_slice(b"\xff\xff\xff\xff\x00")?;
    body.resize(5 + 65_535, b'a')?;
    body.resize(5 + 2 * 65_535, b'b')
}

// Whether the longest body is read.
fn is_longest_read(alloc: Global, body: &mut Vec<u8>) -> Result<bool, Fail> {
    push_longest(body)?;
    let answer = read_continue(alloc, body.as_slice())?;
    Ok(
        answer.user_msg.len() == 65_535
            && answer.extra.len() == 65_535
            && answer.user_msg.as_slice().iter().all(|byte| *byte == b'a')
            && answer.extra.as_slice().iter().all(|byte| *byte == b'b'),
    )
}

#[test]
fn the_longest_answer(rt: HostRuntime) -> Result<(), Fail> {
    let mut body = Vec::new(rt.alloc());
    assert!(rt; is_longest_read(rt.alloc(), &mut body)?);
    Ok(())
}

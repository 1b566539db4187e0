//! Many bytes, one a call or all at once.

use crate::io::reading::Scripted as Reader;
use crate::io::scripted::Scripted as Writer;
use basics::send;
use std::alloc::{AllocError, Global};
use std::process::Abort;
use std::test::Fail;
use tac_io::{MAX_INPUT, read_whole, write_answer};

const COUNT: usize = 100_001;

/// More than two megabytes.
const LARGE: usize = 2_100_003;

// So many calls of one byte each.
fn calls(alloc: Global) -> Result<String, AllocError> {
    let mut letters = String::new(alloc);
    for _ in 0..COUNT {
        letters.push('1')?;
    }
    Ok(letters)
}

// So many bytes, of which none is like the next.
fn bytes(alloc: Global, count: usize) -> Result<Vec<u8>, AllocError> {
    let mut bytes = Vec::new(alloc);
    for at in 0..count {
        bytes.push((at % 251) as u8)?;
    }
    Ok(bytes)
}

// Whether they are read by these calls.
fn is_read(alloc: Global, letters: &str, bytes: &[u8]) -> Result<bool, Fail> {
    let mut reader = Reader {
        letters: letters.as_bytes(),
        text: bytes,
    };
    let input = read_whole(alloc, &mut reader, COUNT)?;
    Ok(input.as_slice() == bytes && reader.letters.is_empty())
}

// Whether they are sent by these calls.
fn is_sent(alloc: Global, letters: &str, bytes: &[u8]) -> bool {
    let mut writer = Writer::new(alloc, letters);
    let (sent, outcome) = send(&mut writer, bytes);
    outcome.is_ok()
        && sent == COUNT
        && writer.taken.as_slice() == bytes
        && writer.letters.is_empty()
}

// Reads them by these calls, and sends them.
fn reads_and_sends<R: Abort + AllocGlobal>(
    rt: &R,
    letters: &str,
    bytes: &[u8],
) -> Result<(), Fail> {
    assert!(rt; is_read(rt.alloc(), letters, bytes)?);
    assert!(rt; is_sent(rt.alloc(), letters, bytes));
    Ok(())
}

#[test]
fn a_byte_at_a_time(rt: HostRuntime) -> Result<(), Fail> {
    let letters = calls(rt.alloc())?;
    let bytes = bytes(rt.alloc(), COUNT)?;
    reads_and_sends(&rt, letters.as_str(), bytes.as_slice())
}

// Whether these bytes are read whole, and written whole as an answer.
fn is_passed_on(alloc: Global, bytes: &[u8]) -> Result<bool, Fail> {
    let mut rest = bytes;
    let input = read_whole(alloc, &mut rest, MAX_INPUT)?;
    let mut output = Vec::new(alloc);
    let end = write_answer(&mut output, Ok((input, 7_u8)))?;
    Ok(end == 7 && output.as_slice() == bytes)
}

#[test]
fn two_megabytes(rt: HostRuntime) -> Result<(), Fail> {
    let bytes = bytes(rt.alloc(), LARGE)?;
    assert!(rt; is_passed_on(rt.alloc(), bytes.as_slice())?);
    Ok(())
}

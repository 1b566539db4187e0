//! Conversations with a server: events, and what it gives out at each.

use std::alloc::Global;
use std::process::Abort;
use std::test::Fail;
use tac_desk::Desk;
use tac_server::{Server, ServerFault};
use tac_wire::Key;

fn key() -> Result<Key, Fail> {
    Ok(Key::read(b"k").ok_or("no key")?)
}

// A packet, as a client sends it.
fn push_packet(alloc: Global, bytes: &mut Vec<u8>, digits: &str) -> Result<(), Fail> {
    let packet = packet_notation::packet(alloc, &key()?, digits)?;
    Ok(bytes.extend_from_slice(packet.as_slice())?)
}

// `NUMBER DIGITS DIGITS ..`: the packets come on a connection, joined. Whether it is closed then.
fn hand<D: Desk>(
    alloc: Global,
    server: &mut Server<D>,
    words: &str,
    out: &mut Vec<u8>,
) -> Result<Result<bool, ServerFault>, Fail> {
    let (conn, digits) = words.split_once(' ').unwrap_or((words, ""));
    let mut bytes = Vec::new(alloc);
    for word in digits.split(' ') {
        push_packet(alloc, &mut bytes, word)?;
    }
    Ok(server.feed(conn.parse::<u32>()?, bytes.as_slice(), out))
}

// What the server gives out at an event, and whether a connection is closed then.
fn happens<D: Desk>(
    alloc: Global,
    server: &mut Server<D>,
    words: &str,
    out: &mut Vec<u8>,
) -> Result<Result<bool, ServerFault>, Fail> {
    match words.split_once(' ').unwrap_or((words, "")) {
        ("open", conn) => Ok(server.open(conn.parse::<u32>()?).map(|()| false)),
        ("lost", conn) => {
            server.lost(conn.parse::<u32>()?);
            Ok(Ok(false))
        }
        ("hand", rest) => hand(alloc, server, rest, out),
        _ => Ok(server.console(words.as_bytes(), out).map(|()| false)),
    }
}

// The same, with the line `closed` or why it was refused after that.
fn push_event<D: Desk>(
    alloc: Global,
    server: &mut Server<D>,
    words: &str,
    out: &mut Vec<u8>,
) -> Result<(), Fail> {
    match happens(alloc, server, words, out)? {
        Ok(false) => Ok(()),
        Ok(true) => Ok(out.extend_from_slice(b"closed\n")?),
        Err(fault) => {
            let fault = format!(in alloc; "{fault:?}\n")?;
            Ok(out.extend_from_slice(fault.as_bytes())?)
        }
    }
}

// A line of a conversation: what is given out, and what is wanted. An event ends what is given out at
// the one before.
fn go_on<D: Desk>(
    alloc: Global,
    server: &mut Server<D>,
    line: &str,
    given: &mut Vec<u8>,
    wanted: &mut Vec<u8>,
) -> Result<(), Fail> {
    if let Some(words) = line.strip_prefix("> ") {
        given.push(b'\n')?;
        wanted.push(b'\n')?;
        return push_event(alloc, server, words, given);
    }
    if let Some(digits) = line.strip_prefix("< ") {
        return push_packet(alloc, wanted, digits);
    }
    wanted.extend_from_slice(line.as_bytes())?;
    Ok(wanted.push(b'\n')?)
}

/// Holds a conversation with a server over this desk.
///
/// After `> ` stands an event: `open NUMBER`, `lost NUMBER`, `hand NUMBER DIGITS DIGITS ..` (the
/// bytes of packets, on whose bodies the pad is put), or else a line of the console. After each
/// comes what is given out: `< DIGITS`, a packet; `closed`, where a connection is; a refusal, as it is
/// written in Rust; or the console's lines. A line that begins with `#` is a comment.
pub(crate) fn converses<R: Abort + AllocGlobal, D: Desk>(
    rt: &R,
    desk: D,
    lines: &str,
) -> Result<(), Fail> {
    let mut server = Server::new(rt.alloc(), desk, key()?);
    let (mut given, mut wanted) = (Vec::new(rt.alloc()), Vec::new(rt.alloc()));
    for line in lines.lines() {
        let line = line.trim_start();
        if !line.is_empty() && !line.starts_with('#') {
            go_on(rt.alloc(), &mut server, line, &mut given, &mut wanted)?;
        }
    }
    let text = String::from_utf8_lossy(rt.alloc(), given.as_slice())?;
    assert!(rt; given == wanted, "{text}");
    Ok(())
}

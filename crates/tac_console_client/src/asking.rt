//! Lines of words, of a file or a pipe, and of a terminal, each asked once the one before is answered.

use crate::heard::{Heard, is_bad_edit};
use crate::hint::hint;
use crate::session::Session;
use crate::typing::{Typed, typed_line, without_return};
use std::io;
use std::io::{BufRead, BufReader, Write};

const PROMPT: &[u8] = b"tacd> ";

// Names the word that a line was probably meant to begin with, where it is none of a console. The
// status tells of it too, so it doesn't matter whether this could be written.
fn tell_hint<R: Eprint + AllocGlobal>(rt: &R, session: &Session, line: &[u8]) {
    if !is_bad_edit(session.said()) {
        return;
    }
    let _ = match hint(rt.alloc(), line) {
        Ok(Some(word)) => eprintln!(rt; "tacd: is '{word}' meant? If not, type help"),
        Ok(None) | Err(_) => eprintln!(rt; "tacd: type help"),
    };
}

// Says which line was refused, and that those after it weren't sent. The status tells it too.
fn tell_unsent<R: Eprint>(rt: &R, number: u64, said: &[u8]) {
    let answer = str::from_utf8(said).unwrap_or("").trim_end();
    let _ = eprintln!(rt; "tacd: line {number}: {answer}; later lines weren't sent");
}

// Types a line, and prints its answer. After `quit` the server's end is waited for.
fn ask<R: Print>(rt: &R, session: &mut Session, line: &[u8]) -> io::Result<Heard> {
    session.type_line(line)?;
    let heard = session.hear(&mut io::writer(rt))?;
    if typed_line(line) == Typed::Stop {
        session.see_the_end()?;
    }
    Ok(heard)
}

/// Asks a line of words. What ends a session ends it unasked.
pub(crate) fn ask_words<R>(rt: &R, session: &mut Session, line: &[u8]) -> io::Result<Heard>
where
    R: Print + Eprint + AllocGlobal,
{
    if typed_line(line) == Typed::Leave {
        return Ok(Heard::Well);
    }
    let heard = ask(rt, session, line)?;
    tell_hint(rt, session, line);
    Ok(heard)
}

// The next line of an input, without its LF. False at the end.
fn read_line<I: BufRead>(input: &mut I, line: &mut Vec<u8>) -> io::Result<bool> {
    line.clear();
    if input.read_until(b'\n', line)? == 0 {
        return Ok(false);
    }
    if line.last() == Some(&b'\n') {
        line.pop();
    }
    Ok(true)
}

/// The lines of a file or a pipe. The first that is refused ends it.
pub(crate) fn ask_all<R>(rt: &R, session: &mut Session) -> io::Result<Heard>
where
    R: Input + Print + Eprint + AllocGlobal,
{
    let mut input = BufReader::new(rt.alloc(), rt.reader())?;
    let mut read = Vec::new(rt.alloc());
    let mut heard = Heard::Well;
    for number in 1..u64::MAX {
        if !read_line(&mut input, &mut read)? {
            break;
        }
        let line = without_return(read.as_slice());
        let what = typed_line(line);
        if what == Typed::Leave {
            break;
        }
        if what == Typed::Nothing {
            continue;
        }
        heard = ask(rt, session, line)?.and(heard);
        if heard == Heard::Refused {
            tell_unsent(rt, number, session.said());
            tell_hint(rt, session, line);
            break;
        }
        if what == Typed::Stop {
            break;
        }
    }
    Ok(heard)
}

// Asks a line that was typed at a terminal. None where it ends the session unasked.
fn answer<R>(rt: &R, session: &mut Session, line: &[u8], what: Typed) -> io::Result<Option<Heard>>
where
    R: Print + Eprint + AllocGlobal,
{
    match what {
        Typed::Nothing => Ok(Some(Heard::Well)),
        Typed::Leave => Ok(None),
        Typed::Line | Typed::Stop => {
            let heard = ask(rt, session, line)?;
            tell_hint(rt, session, line);
            Ok(Some(heard))
        }
    }
}

/// The lines that are typed at a terminal, each after a prompt.
pub(crate) fn converse<R>(rt: &R, session: &mut Session) -> io::Result<Heard>
where
    R: Input + Print + Eprint + AllocGlobal,
{
    let mut input = rt.reader();
    let mut read = Vec::new(rt.alloc());
    let mut heard = Heard::Well;
    for _ in 0..u64::MAX {
        let mut writer = io::writer(rt);
        writer.write_all(PROMPT)?;
        writer.flush()?;
        if !read_line(&mut input, &mut read)? {
            break;
        }
        let line = without_return(read.as_slice());
        let what = typed_line(line);
        match answer(rt, session, line, what)? {
            Some(answered) => heard = answered.and(heard),
            None => return Ok(heard),
        }
        if what == Typed::Stop {
            return Ok(heard);
        }
    }
    io::writer(rt).write_all(b"\n")?;
    Ok(heard)
}

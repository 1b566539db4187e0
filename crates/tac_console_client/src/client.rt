//! The client: a session at a console's socket, and how it ended.

use crate::asking::{ask_all, ask_words, converse};
use crate::heard::Heard;
use crate::session::Session;
use std::alloc::{AllocError, Global};
use std::io::ErrorKind;
use std::net::Net;
use std::os::unix::net::UnixStream;
use std::rt::Env;
use std::thread::sleep;
use std::time::{Clock, Duration};
use std::{env, io};
use tac_operators::ConsoleHost;

/// How often a place is asked for, and how long is waited in between, in milliseconds: for five
/// seconds.
const TRIES: u32 = 20;

const PAUSE: u64 = 250;

/// What is said where a socket can't be called.
const UNSERVED: &str = "no server listens at this socket";

/// What is said where there is a FIFO, as an upgrade leaves it until the server is restarted.
const OLD: &str = "it is a FIFO, the console of a server before version 0.9.0: restart that first";

const LINE_END: &str = "error: a WORD has the end of a line in it

For more information, try '--help'.";

/// How a client ended.
#[derive(Clone, Copy)]
pub enum ClientEnd {
    /// All lines were answered, until one wasn't obeyed.
    Answered(Heard),
    /// A word has the end of a line in it, which was said.
    BadWord,
    /// A line couldn't be asked or its answer be told, and why was said.
    Failed(ErrorKind),
}

// A session at a place, which may take a while where all of them are taken.
fn enter<H: Net + Clock + AllocGlobal>(host: &H, path: &str) -> io::Result<Session> {
    for _ in 0..TRIES {
        let mut session = Session::new(host.alloc(), UnixStream::connect(host, path)?)?;
        let mut unseen = Vec::new(host.alloc());
        if session.hear(&mut unseen)? == Heard::Well {
            return Ok(session);
        }
        sleep(host, Duration::from_millis(PAUSE));
    }
    Err(io::Error::new(ErrorKind::WouldBlock, "all of its places are taken"))
}

// Says who types, where that is known. It doesn't matter how that is answered.
fn say_name<R: Env + AllocGlobal>(rt: &R, session: &mut Session) -> io::Result<()> {
    for variable in ["SUDO_USER", "LOGNAME", "USER"] {
        if let Ok(name) = env::var(rt, variable) {
            let mut line = Vec::from_slice(rt.alloc(), b"operator ")?;
            line.extend_from_slice(name.as_bytes())?;
            session.type_line(line.as_slice())?;
            let mut unseen = Vec::new(rt.alloc());
            session.hear(&mut unseen)?;
            return Ok(());
        }
    }
    Ok(())
}

// The words with a blank between each two.
fn joined(alloc: Global, words: &[&str]) -> Result<Vec<u8>, AllocError> {
    let mut line = Vec::new(alloc);
    for word in words {
        if !line.is_empty() {
            line.push(b' ')?;
        }
        line.extend_from_slice(word.as_bytes())?;
    }
    Ok(line)
}

// Asks what the words say, or what standard input does.
fn talk<R, H>(rt: &R, host: &H, path: &str, words: &[&str]) -> io::Result<Heard>
where
    R: Env + Input + Print + Eprint + AllocGlobal,
    H: Net + Clock + AllocGlobal + ConsoleHost,
{
    let line = joined(rt.alloc(), words)?;
    let mut session = enter(host, path)?;
    say_name(rt, &mut session)?;
    if !words.is_empty() {
        ask_words(rt, &mut session, line.as_slice())
    } else if host.is_terminal() {
        converse(rt, &mut session)
    } else {
        ask_all(rt, &mut session)
    }
}

// Says why nothing more is answered.
fn tell_why<R: Eprint, H: ConsoleHost>(rt: &R, host: &H, path: &str, error: &io::Error) {
    let _ = if host.is_fifo(path) {
        eprintln!(rt; "tacd: {path}: {OLD}")
    } else {
        match error.kind() {
            ErrorKind::NotFound | ErrorKind::ConnectionRefused => {
                eprintln!(rt; "tacd: {path}: {UNSERVED}")
            }
            _ => eprintln!(rt; "tacd: {path}: {error}"),
        }
    };
}

/// Types at the console of the server whose socket is at this path, and prints what is answered: the
/// words with a blank between each two, or where there are none, the lines of standard input, each
/// once the one before is answered.
pub fn type_lines<R, H>(rt: &R, host: &H, path: &str, words: &[&str]) -> ClientEnd
where
    R: Env + Input + Print + Eprint + AllocGlobal,
    H: Net + Clock + AllocGlobal + ConsoleHost,
{
    if words.iter().any(|word| word.contains('\n')) {
        let _ = eprintln!(rt; "{LINE_END}");
        return ClientEnd::BadWord;
    }
    match talk(rt, host, path, words) {
        Ok(heard) => ClientEnd::Answered(heard),
        Err(error) => {
            tell_why(rt, host, path, &error);
            ClientEnd::Failed(error.kind())
        }
    }
}

//! A pipe that several threads append lines to.

ghost use Rattle.std.specs.Prelude.{◌≤◌, IfOk};

use crate::complaint::{say_that_it_fails, say_that_it_takes_lines};
use crate::tail::{Tail, Untaken};
use brief_lock::take;
use libc::net;
use libc::types::pollfd;
use std::io::{self, Error, Write};
use std::os::fd::{AsRawFd, OwnedFd};
use std::sync::atomic::{AtomicBool, Ordering};
use std::sync::{Mutex, Wait};
use std::time::Clock;
use tac_audit::Refused;

/// How many pauses of a millisecond an append makes for who reads a pipe that took the lines before.
const PATIENCE: u32 = 200;

/// A pipe, or a terminal or a socket, at which no write waits: it fails where there is no room.
#[derive(Drop)]
pub(crate) struct Pipe {
    fd: OwnedFd,
    is_socket: bool,
}

// Whether this is a socket: nothing else has options of one.
fn is_socket(fd: i32) -> bool {
    let mut option = [0; 16];
    let mut len = 4;
    unsafe { net::getsockopt(fd, net::SOL_SOCKET, net::SO_ERROR, &mut option, &mut len) == 0 }
}

// What a call of the system took of so many bytes, or its error.
fn taken_or_error(taken: isize, len: usize) -> io::Result<usize>
    ensures { IfOk result (λ n. n ≤ len) }
{
    if taken < 0 {
        return Err(Error::from_raw_os_error(os::errno()));
    }
    Ok((taken as usize).min(len))
}

impl Pipe {
    /// This one. Whoever else writes to it by the same open file doesn't wait either from now on.
    pub(crate) fn new(fd: OwnedFd) -> io::Result<Pipe> {
        if os::set_nonblocking(fd.as_raw_fd(), true) < 0 {
            return Err(Error::from_raw_os_error(os::errno()));
        }
        let is_socket = is_socket(fd.as_raw_fd());
        Ok(Pipe { fd, is_socket })
    }

    // Whether nobody has it open for reading, so that a write would raise SIGPIPE.
    fn is_broken(&self) -> bool {
        let fd = self.fd.as_raw_fd();
        let mut asked = [pollfd {
            fd,
            events: 0,
            revents: 0,
        }];
        net::poll(&mut asked, 0);
        asked[0].revents & net::POLLERR != 0
    }
}

impl Write for Pipe {
    // Where nobody reads it any more this fails too. A signal ends the process only where it isn't
    // ignored and the reader of a pipe goes away just then.
    fn write(&mut self, buf: &[u8]) -> io::Result<usize> {
        let fd = self.fd.as_raw_fd();
        if self.is_socket {
            return taken_or_error(os::sendv(fd, [buf, b"", b"", b""]), buf.len());
        }
        if self.is_broken() {
            return Err(Error::from_raw_os_error(libc::EPIPE));
        }
        taken_or_error(libc::write(fd, buf), buf.len())
    }

    fn flush(&mut self) -> io::Result<()> {
        Ok(())
    }
}

/// A pipe that takes lines. It isn't opened again: once somebody reads it, it takes them again.
#[derive(Drop)]
pub(crate) struct PipeLog<'a> {
    // what it is called where something is said of it
    name: &'a str,
    tail: Mutex<Tail<Pipe>>,
    // whether it was last said that it takes no lines
    is_failing: AtomicBool,
}

impl<'a> PipeLog<'a> {
    /// That of a pipe in which no line is unfinished.
    pub(crate) fn new(name: &'a str, pipe: Pipe) -> PipeLog<'a> {
        PipeLog {
            name,
            tail: Mutex::new(Tail {
                file: pipe,
                is_cut: false,
            }),
            is_failing: AtomicBool::new(false),
        }
    }

    /// Whether it takes lines, as far as the last append tells. It waits for nobody who appends.
    pub(crate) fn takes_lines(&self) -> bool {
        !self.is_failing.load(Ordering::SeqCst)
    }

    // Says so once where it took lines before and takes none now, or the other way round.
    fn note<H: Eprint>(&self, host: &H, written: &Result<(), Untaken>) {
        let is_failing = written.is_err();
        if self.is_failing.swap(is_failing, Ordering::SeqCst) == is_failing {
            return;
        }
        match written {
            Ok(()) => say_that_it_takes_lines(host, self.name),
            Err(why) => say_that_it_fails(host, self.name, why),
        }
    }

    /// Appends lines, which count at once. Where there is no room it waits for some, but only where
    /// the pipe took the lines before: a reader who is stuck is waited for once.
    pub(crate) fn append<H>(&self, host: &H, lines: &[u8]) -> Result<(), Refused>
    where
        H: Wait + Clock + Eprint,
    {
        let mut tail = take(host, &self.tail);
        let pauses = if self.takes_lines() { PATIENCE } else { 0 };
        let written = tail.append(host, lines, pauses);
        self.note(host, &written);
        match written {
            Ok(()) => Ok(()),
            Err(_) => Err(Refused),
        }
    }
}

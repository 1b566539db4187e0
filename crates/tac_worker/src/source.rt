//! A socket that never waits.

ghost use Rattle.std.specs.Prelude.{◌≡◌, true, false};

use std::io::{self, ErrorKind, Read, Write};

/// A socket that never waits, and what was seen of it. A read that would have had to wait is
/// WouldBlock at the socket and Interrupted here, as [`Link::hear`](crate::Link::hear) wants
/// it, so that no connection ends by it.
#[derive(Drop)]
pub struct Source<S> {
    socket: S,
    // A read would have had to wait.
    idle: bool,
    // A write would have had to wait.
    full: bool,
    // The last write that didn't have to wait failed, or took nothing.
    broken: bool,
}

impl<S> Source<S> {
    /// A socket of which nothing was asked yet.
    pub(crate) fn new(socket: S) -> Source<S>
        ensures { result ≡ record { socket = socket; idle = false; full = false; broken = false } }
    {
        Source {
            socket,
            idle: false,
            full: false,
            broken: false,
        }
    }

    /// It may be ready again.
    pub(crate) fn wake(&mut self)
        ensures { self.new ≡ record self.old { idle = false; full = false } }
    {
        self.idle = false;
        self.full = false;
    }

    pub(crate) fn is_idle(&self) -> bool
        ensures { result ≡ self.now.idle }
    {
        self.idle
    }

    pub(crate) fn is_full(&self) -> bool
        ensures { result ≡ self.now.full }
    {
        self.full
    }

    pub(crate) fn is_broken(&self) -> bool
        ensures { result ≡ self.now.broken }
    {
        self.broken
    }

    pub(crate) fn socket(&self) -> &S
        ensures { result.now ≡ self.now.socket }
    {
        &self.socket
    }

    pub(crate) fn into_socket(self) -> S
        ensures { result ≡ self.socket }
    {
        let Source {
            socket,
            idle: _,
            full: _,
            broken: _,
        } = self;
        socket
    }
}

impl<S: Read> Read for Source<S> {
    ghost remaining = { λ source. S.remaining source.socket };

    fn read(&mut self, buf: &mut [u8]) -> io::Result<usize> {
        match self.socket.read(buf) {
            Ok(n) => Ok(n),
            Err(error) => {
                if error.kind() == ErrorKind::WouldBlock {
                    self.idle = true;
                    return Err(io::Error::from(ErrorKind::Interrupted));
                }
                Err(error)
            }
        }
    }
}

impl<S: Write> Write for Source<S> {
    ghost contents = { λ source. S.contents source.socket };

    fn write(&mut self, buf: &[u8]) -> io::Result<usize> {
        match self.socket.write(buf) {
            Ok(n) => {
                self.broken = n == 0;
                Ok(n)
            }
            Err(error) => {
                match error.kind() {
                    ErrorKind::WouldBlock => self.full = true,
                    ErrorKind::Interrupted => {}
                    _ => self.broken = true,
                }
                Err(error)
            }
        }
    }

    fn flush(&mut self) -> io::Result<()> {
        self.socket.flush()
    }
}

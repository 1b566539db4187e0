//! A socket in memory that never waits.

use std::alloc::Global;
use std::io::{self, ErrorKind, Read, Write};

/// How bytes are given and taken.
#[derive(Clone, Copy, Debug)]
pub(crate) struct Pace {
    /// At most so many a call.
    pub(crate) piece: usize,
    /// Every other call finds it not ready.
    pub(crate) pauses: bool,
    /// So many bytes are taken in all. A write after that fails.
    pub(crate) room: usize,
    /// After its bytes it is at its end; else there may be more.
    pub(crate) ends: bool,
}

/// All that there is at once.
pub(crate) const WHOLE: Pace = Pace {
    piece: 9999,
    pauses: false,
    room: 9999,
    ends: true,
};

/// Gives these bytes, and keeps what it takes.
#[derive(Drop)]
pub(crate) struct Pipe<'a> {
    bytes: &'a [u8],
    pace: Pace,
    pauses: bool,
    pub(crate) taken: Vec<u8>,
}

impl Pipe<'_> {
    pub(crate) fn new(alloc: Global, bytes: &[u8], pace: Pace) -> Pipe<'_> {
        Pipe {
            bytes,
            pace,
            pauses: false,
            taken: Vec::new(alloc),
        }
    }

    // Whether this call finds it not ready.
    fn pauses(&mut self) -> bool {
        self.pauses = !self.pauses;
        self.pace.pauses && self.pauses
    }
}

impl Read for Pipe<'_> {
    fn read(&mut self, buf: &mut [u8]) -> io::Result<usize> {
        if self.pauses() {
            return Err(io::Error::from(ErrorKind::WouldBlock));
        }
        let n = self.pace.piece.min(self.bytes.len()).min(buf.len());
        if n == 0 && !self.pace.ends {
            return Err(io::Error::from(ErrorKind::WouldBlock));
        }
        let (piece, rest) = self.bytes.split_at(n);
        buf[..n].copy_from_slice(piece);
        self.bytes = rest;
        Ok(n)
    }
}

impl Write for Pipe<'_> {
    fn write(&mut self, buf: &[u8]) -> io::Result<usize> {
        if self.pauses() {
            return Err(io::Error::from(ErrorKind::WouldBlock));
        }
        if self.pace.room == 0 {
            return Err(io::Error::from(ErrorKind::StorageFull));
        }
        let n = self.pace.piece.min(self.pace.room).min(buf.len());
        self.taken.extend_from_slice(&buf[..n])?;
        self.pace.room -= n;
        Ok(n)
    }

    fn flush(&mut self) -> io::Result<()> {
        Ok(())
    }
}

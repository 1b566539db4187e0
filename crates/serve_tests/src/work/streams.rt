//! Readers, writers and a witness that do what a test says.

ghost use Rattle.std.specs.Prelude.{◌≡◌, ◌≤◌, length};

use std::alloc::Global;
use std::io::{self, ErrorKind, Read, Write};
use tac_audit::{Notice, Refused, Witness};
use tac_conn::{Reading, Received};

/// Gives the question for a `p`, the record for an `r`, twelve bytes that are no header for an `h`,
/// is interrupted for an `i`, and fails for an `x`. At a `-` and after the last letter nothing is left.
#[derive(Drop)]
pub(crate) struct Scripted<'a> {
    pub(crate) letters: &'a [u8],
    pub(crate) question: &'a [u8],
    pub(crate) record: &'a [u8],
}

// As many bytes as there is room for.
fn hand(bytes: &[u8], buf: &mut [u8]) -> usize
    ensures bound { result ≤ length buf.new }
    ensures len { length buf.new ≡ length buf.old }
{
    let n = bytes.len().min(buf.len());
    buf[..n].copy_from_slice(&bytes[..n]);
    n
}

impl Read for Scripted<'_> {
    fn read(&mut self, buf: &mut [u8]) -> io::Result<usize> {
        let Some((letter, rest)) = self.letters.split_first() else {
            return Ok(0);
        };
        self.letters = rest;
        match *letter {
            b'i' => Err(io::Error::from(ErrorKind::Interrupted)),
            b'x' => Err(io::Error::from(ErrorKind::IsADirectory)),
            b'h' => Ok(hand(&[0; 12], buf)),
            b'-' => Ok(0),
            b'r' => Ok(hand(self.record, buf)),
            _ => Ok(hand(self.question, buf)),
        }
    }
}

/// How bytes are given or taken.
#[derive(Clone, Copy, Debug)]
pub(crate) struct Manner {
    /// At most so many a call.
    pub(crate) piece: usize,
    /// Each call is interrupted once before it is done.
    pub(crate) interrupted: bool,
    /// After the last byte it fails; else none is given or taken.
    pub(crate) fails: bool,
}

/// All that there is at once.
pub(crate) const WHOLE: Manner = Manner {
    piece: 9999,
    interrupted: false,
    fails: false,
};

/// Gives these bytes.
#[derive(Drop)]
pub(crate) struct Source<'a> {
    bytes: &'a [u8],
    manner: Manner,
    ready: bool,
}

impl Source<'_> {
    pub(crate) fn new(bytes: &[u8], manner: Manner) -> Source<'_> {
        Source {
            bytes,
            manner,
            ready: false,
        }
    }
}

impl Read for Source<'_> {
    fn read(&mut self, buf: &mut [u8]) -> io::Result<usize> {
        self.ready = !self.ready;
        if self.manner.interrupted && self.ready {
            return Err(io::Error::from(ErrorKind::Interrupted));
        }
        if self.manner.fails && self.bytes.is_empty() {
            return Err(io::Error::from(ErrorKind::IsADirectory));
        }
        let n = self.manner.piece.min(self.bytes.len()).min(buf.len());
        let (piece, rest) = self.bytes.split_at(n);
        buf[..n].copy_from_slice(piece);
        self.bytes = rest;
        Ok(n)
    }
}

/// Takes so many bytes.
#[derive(Drop)]
pub(crate) struct Sink {
    room: usize,
    manner: Manner,
    ready: bool,
    pub(crate) taken: Vec<u8>,
}

impl Sink {
    pub(crate) fn new(alloc: Global, room: usize, manner: Manner) -> Sink {
        Sink {
            room,
            manner,
            ready: false,
            taken: Vec::new(alloc),
        }
    }
}

impl Write for Sink {
    fn write(&mut self, buf: &[u8]) -> io::Result<usize> {
        self.ready = !self.ready;
        if self.manner.interrupted && self.ready {
            return Err(io::Error::from(ErrorKind::Interrupted));
        }
        if self.manner.fails && self.room == 0 {
            return Err(io::Error::from(ErrorKind::StorageFull));
        }
        let n = self.manner.piece.min(self.room).min(buf.len());
        self.taken.extend_from_slice(&buf[..n])?;
        self.room -= n;
        Ok(n)
    }

    fn flush(&mut self) -> io::Result<()> {
        Ok(())
    }
}

/// Takes so many notices, and refuses the next. What it is told is a letter each: `p` of a packet
/// with a reply, `n` of one without, `c` of one that lacks the user whom its ask had, `h` of a
/// header that is refused.
#[derive(Drop)]
pub(crate) struct Scribe {
    pub(crate) told: String,
    pub(crate) takes: usize,
}

// Whether it has the user whom its ask had meanwhile.
fn is_whole(received: &Received) -> bool {
    match &received.reading {
        Reading::Login(asker) | Reading::Command { asker, .. } | Reading::Account { asker, .. } =>
            !asker.user.is_empty(),
        _ => true,
    }
}

fn letter_of(notice: &Notice) -> &'static str {
    match notice {
        Notice::Packet(received, _) if !is_whole(received) => "c",
        Notice::Packet(_, Some(_)) => "p",
        Notice::Packet(_, None) => "n",
        Notice::BadHeader(_) => "h",
    }
}

impl Witness<Notice> for Scribe {
    ghost takes = { λ _ _ _. Unit {0} };

    ghost refuses = { λ _ _ _. Unit {0} };

    fn tell(&mut self, notice: &Notice) -> Result<(), Refused> {
        self.told.push_str(letter_of(notice))?;
        if self.takes == 0 {
            return Err(Refused);
        }
        self.takes -= 1;
        Ok(())
    }
}

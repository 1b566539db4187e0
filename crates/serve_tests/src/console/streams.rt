//! An input, an output and a witness that do as a test says.

ghost use Rattle.std.specs.Prelude.{◌≡◌, ◌≤◌, length};

use std::alloc::AllocError;
use std::cell::RefCell;
use std::io::{self, ErrorKind, Read, Write};
use tac_audit::{Refused, Typing, Witness};

/// How an input comes.
#[derive(Clone, Copy, Debug)]
pub(crate) struct Manner {
    /// At most so many bytes a read.
    pub(crate) piece: usize,
    /// Each read is interrupted once before it is done.
    pub(crate) interrupted: bool,
    /// After the last byte it fails.
    pub(crate) fails: bool,
}

/// An input of these bytes.
#[derive(Drop)]
pub(crate) struct Typed<'a> {
    pub(crate) text: &'a [u8],
    pub(crate) manner: Manner,
    pub(crate) ready: bool,
}

// As many bytes as there is room for.
fn hand(bytes: &[u8], buf: &mut [u8]) -> usize
    ensures bound { result ≤ length buf.new }
    ensures len { length buf.new ≡ length buf.old }
{
    let n = bytes.len().min(buf.len());
    buf[..n].copy_from_slice(&bytes[..n]);
    n
}

impl Read for Typed<'_> {
    fn read(&mut self, buf: &mut [u8]) -> io::Result<usize> {
        self.ready = !self.ready;
        if self.manner.interrupted && !self.ready {
            return Err(io::Error::from(ErrorKind::Interrupted));
        }
        if self.manner.fails && self.text.is_empty() {
            return Err(io::Error::from(ErrorKind::IsADirectory));
        }
        let size = self.manner.piece.min(self.text.len());
        let (piece, rest) = self.text.split_at(size);
        let n = hand(piece, buf);
        if n == piece.len() {
            self.text = rest;
        }
        Ok(n)
    }
}

/// Prints so many bytes more between the notes of a witness, five a write, and then nothing.
#[derive(Drop)]
pub(crate) struct Printer<'a> {
    pub(crate) notes: &'a RefCell<Vec<u8>>,
    pub(crate) left: usize,
}

impl Write for Printer<'_> {
    fn write(&mut self, buf: &[u8]) -> io::Result<usize> {
        let Ok(mut notes) = self.notes.try_borrow_mut() else {
            return Err(io::Error::from(ErrorKind::Other));
        };
        let n = buf.len().min(self.left).min(5);
        notes.extend_from_slice(&buf[..n])?;
        self.left -= n;
        Ok(n)
    }

    fn flush(&mut self) -> io::Result<()> {
        Ok(())
    }
}

/// Notes what it is told, `* LINE [ANSWER]`, where it is to. It refuses one line, with `!` in place of
/// `*`.
#[derive(Drop)]
pub(crate) struct Scribe<'a> {
    pub(crate) notes: &'a RefCell<Vec<u8>>,
    pub(crate) is_told: bool,
    pub(crate) refuses: &'a [u8],
}

fn push_typing(notes: &mut Vec<u8>, mark: &[u8], typing: &Typing) -> Result<(), AllocError> {
    notes.extend_from_slice(mark)?;
    notes.extend_from_slice(typing.line.as_slice())?;
    notes.extend_from_slice(b" [")?;
    notes.extend_from_slice(typing.answer.as_slice())?;
    notes.extend_from_slice(b"]\n")
}

impl Witness<Typing> for Scribe<'_> {
    ghost takes = { λ _ _ _. Unit {0} };

    ghost refuses = { λ _ _ _. Unit {0} };

    fn tell(&mut self, typing: &Typing) -> Result<(), Refused> {
        let Ok(mut notes) = self.notes.try_borrow_mut() else {
            return Err(Refused);
        };
        if typing.line.as_slice() == self.refuses {
            push_typing(&mut notes, b"! ", typing)?;
            return Err(Refused);
        }
        if self.is_told {
            push_typing(&mut notes, b"* ", typing)?;
        }
        Ok(())
    }
}

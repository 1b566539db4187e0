//! A writer that does what a test says.

use std::alloc::Global;
use std::io::{self, ErrorKind, Write};

/// Answers each write by one letter: `i` is an interruption, `x` another error, and a digit a write
/// that takes at most so many bytes. A write after the last letter takes all.
#[derive(Drop)]
pub(crate) struct Scripted<'a> {
    pub(crate) letters: &'a [u8],
    pub(crate) taken: Vec<u8>,
}

impl Scripted<'_> {
    pub(crate) fn new(alloc: Global, letters: &str) -> Scripted<'_> {
        Scripted {
            letters: letters.as_bytes(),
            taken: Vec::new(alloc),
        }
    }
}

impl Write for Scripted<'_> {
    fn write(&mut self, buf: &[u8]) -> io::Result<usize> {
        let mut room = buf.len();
        if let Some((letter, rest)) = self.letters.split_first() {
            self.letters = rest;
            match *letter {
                b'i' => return Err(io::Error::from(ErrorKind::Interrupted)),
                b'x' => return Err(io::Error::from(ErrorKind::StorageFull)),
                letter => room = usize::from(letter.wrapping_sub(b'0')).min(room),
            }
        }
        self.taken.extend_from_slice(&buf[..room])?;
        Ok(room)
    }

    fn flush(&mut self) -> io::Result<()> {
        Ok(())
    }
}

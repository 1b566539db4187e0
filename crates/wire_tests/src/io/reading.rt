//! Inputs that come in parts, are interrupted, fail, or are too long.

use std::alloc::Global;
use std::io::{self, ErrorKind, Read};
use std::process::Abort;
use tac_io::{InputFault, read_whole};

/// Gives a part of its text a read, by one letter each: `i` is an interruption, `x` another error,
/// and a digit a read of at most so many bytes. After the last letter nothing is left.
#[derive(Drop)]
pub(crate) struct Scripted<'a> {
    pub(crate) letters: &'a [u8],
    pub(crate) text: &'a [u8],
}

impl Read for Scripted<'_> {
    fn read(&mut self, buf: &mut [u8]) -> io::Result<usize> {
        let Some((letter, rest)) = self.letters.split_first() else {
            return Ok(0);
        };
        self.letters = rest;
        match *letter {
            b'i' => Err(io::Error::from(ErrorKind::Interrupted)),
            b'x' => Err(io::Error::from(ErrorKind::IsADirectory)),
            letter => {
                let n = usize::from(letter.wrapping_sub(b'0'))
                    .min(self.text.len())
                    .min(buf.len());
                let (part, left) = self.text.split_at(n);
                buf[..n].copy_from_slice(part);
                self.text = left;
                Ok(n)
            }
        }
    }
}

// Reads a text of eight bytes up to a bound. Whether so many are read, or there is this fault.
fn is_read(alloc: Global, letters: &str, bound: usize, wanted: Result<usize, InputFault>) -> bool {
    let text = b"abcdefgh";
    let mut reader = Scripted {
        letters: letters.as_bytes(),
        text,
    };
    match read_whole(alloc, &mut reader, bound) {
        Ok(input) => match wanted {
            Ok(n) => input.as_slice() == &text[..n.min(8)],
            Err(_) => false,
        },
        Err(fault) => wanted == Err(fault),
    }
}

// Reads it by these letters, so that it ends as is wanted.
fn reads<R: Abort + AllocGlobal>(
    rt: &R,
    letters: &str,
    bound: usize,
    wanted: Result<usize, InputFault>,
) {
    assert!(rt;
        is_read(rt.alloc(), letters, bound, wanted),
        "by {letters:?}"
    );
}

#[test]
fn whole(rt: HostRuntime) {
    reads(&rt, "8", 8, Ok(8));
    reads(&rt, "3i1ii2i2", 8, Ok(8));
    reads(&rt, "11111", 5, Ok(5));
    reads(&rt, "ii", 0, Ok(0));
    reads(&rt, "80x", 9, Ok(8));
}

#[test]
fn too_long(rt: HostRuntime) {
    reads(&rt, "8", 7, Err(InputFault::TooLong));
    reads(&rt, "3i5x", 7, Err(InputFault::TooLong));
    reads(&rt, "1", 0, Err(InputFault::TooLong));
}

#[test]
fn failing(rt: HostRuntime) {
    reads(&rt, "x", 8, Err(InputFault::Failed));
    reads(&rt, "3x5", 8, Err(InputFault::Failed));
    reads(&rt, "8ix", 8, Err(InputFault::Failed));
}

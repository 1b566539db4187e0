//! What a server prints beside the answers of its console.

use std::io::{self, Error, ErrorKind, Write};

/// Standard output; or standard error, where the lines of a log go to standard output.
#[derive(Drop)]
pub struct Notices<'a, R, H> {
    output: &'a R,
    error: &'a H,
    has_log: bool,
}

impl<'a, R, H> Notices<'a, R, H> {
    /// The standard output of one runtime, or the standard error of the other, if lines of a log go
    /// to that output.
    pub fn new(output: &'a R, error: &'a H, has_log: bool) -> Notices<'a, R, H> {
        Notices {
            output,
            error,
            has_log,
        }
    }
}

impl<R: Print, H: Eprint> Write for Notices<'_, R, H> {
    fn write(&mut self, buf: &[u8]) -> io::Result<usize> {
        if !self.has_log {
            return self.output.write_some(buf);
        }
        let Ok(text) = str::from_utf8(buf) else {
            return Err(Error::from(ErrorKind::InvalidData));
        };
        eprint!(self.error; "{text}")?;
        Ok(buf.len())
    }

    fn flush(&mut self) -> io::Result<()> {
        Ok(())
    }
}

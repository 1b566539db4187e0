//! A connection whose reads and writes end by a moment.

ghost use Rattle.std.specs.Prelude.{None};

use std::io::{self, ErrorKind, Read, Write};
use std::net::TcpStream;
use std::time::{Clock, Duration};

/// The least time that a read or a write is given, in milliseconds: less may count as none, which is
/// without end.
const LEAST: u64 = 1;

/// A connection, one of whose ends this is: a read or a write that would go on after the moment
/// fails.
#[derive(Drop)]
pub struct Timed<'a, H> {
    clock: &'a H,
    stream: &'a TcpStream,
    until: Duration,
}

/// How much time is left until a moment of this clock; TimedOut where none is.
pub fn time_left<H: Clock>(clock: &H, until: Duration) -> io::Result<Duration> {
    let left = until.saturating_sub(clock.monotonic()?);
    if left.is_zero() {
        return Err(io::Error::from(ErrorKind::TimedOut));
    }
    Ok(left.max(Duration::from_millis(LEAST)))
}

impl<'a, H: Clock> Timed<'a, H> {
    /// An end of this connection.
    pub fn new(clock: &'a H, stream: &'a TcpStream, until: Duration) -> Timed<'a, H> {
        Timed {
            clock,
            stream,
            until,
        }
    }
}

impl<H: Clock> Read for Timed<'_, H> {
    ghost remaining = { λ timed. None };

    fn read(&mut self, buf: &mut [u8]) -> io::Result<usize> {
        let left = time_left(self.clock, self.until)?;
        self.stream.set_read_timeout(Some(left))?;
        let mut stream = self.stream;
        stream.read(buf)
    }
}

impl<H: Clock> Write for Timed<'_, H> {
    ghost contents = { λ timed. None };

    fn write(&mut self, buf: &[u8]) -> io::Result<usize> {
        let left = time_left(self.clock, self.until)?;
        self.stream.set_write_timeout(Some(left))?;
        let mut stream = self.stream;
        stream.write(buf)
    }

    fn flush(&mut self) -> io::Result<()> {
        Ok(())
    }
}

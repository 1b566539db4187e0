//! A session at a console's socket: what is typed, and what is answered.

ghost use Rattle.std.specs.Prelude.{◌≡◌};

use crate::heard::{Heard, Listening};
use std::alloc::Global;
use std::io;
use std::io::{BufRead, BufReader, ErrorKind, Write};
use std::os::unix::net::UnixStream;

/// What is said where a session ends before its answer.
const ENDED: &str = "the server ended the session";

/// The socket, the line of an answer that was read last, and that of the last answer which says
/// whether its line was obeyed.
#[derive(Drop)]
pub(crate) struct Session {
    reader: BufReader<UnixStream>,
    writer: UnixStream,
    line: Vec<u8>,
    said: Vec<u8>,
}

impl Session {
    pub(crate) fn new(alloc: Global, stream: UnixStream) -> io::Result<Session> {
        Ok(Session {
            reader: BufReader::new(alloc, stream.try_clone()?)?,
            writer: stream,
            line: Vec::new(alloc),
            said: Vec::new(alloc),
        })
    }

    /// The line of the last answer that says whether its line was obeyed, with its LF.
    pub(crate) fn said(&self) -> &[u8]
        ensures { result.now ≡ self.now.said.items }
    {
        self.said.as_slice()
    }

    // Reads the next line of an answer. False at the empty line after it.
    fn next_line(&mut self) -> io::Result<bool> {
        self.line.clear();
        if self.reader.read_until(b'\n', &mut self.line)? == 0 {
            return Err(io::Error::new(ErrorKind::UnexpectedEof, ENDED));
        }
        Ok(self.line.as_slice() != b"\n".as_slice())
    }

    // Keeps the present line as the one that says whether the typed line was obeyed.
    fn keep_said(&mut self) -> io::Result<()> {
        self.said.clear();
        self.said.extend_from_slice(self.line.as_slice())?;
        Ok(())
    }

    /// Reads an answer, and writes it.
    pub(crate) fn hear<W: Write>(&mut self, writer: &mut W) -> io::Result<Heard> {
        self.said.clear();
        let mut listening = Listening::new();
        for _ in 0..u64::MAX {
            if !self.next_line()? {
                break;
            }
            if listening.is_open {
                self.keep_said()?;
            }
            listening = listening.after(self.line.as_slice());
            writer.write_all(self.line.as_slice())?;
        }
        Ok(listening.heard)
    }

    /// Types a line, whose LF comes here.
    pub(crate) fn type_line(&mut self, line: &[u8]) -> io::Result<()> {
        self.writer.write_all(line)?;
        self.writer.write_all(b"\n")
    }

    /// Waits until the server has let go of this session, which is the last thing that it does.
    pub(crate) fn see_the_end(&mut self) -> io::Result<()> {
        self.line.clear();
        self.reader.read_until(b'\n', &mut self.line)?;
        Ok(())
    }
}

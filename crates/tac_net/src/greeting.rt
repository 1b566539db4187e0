//! A connection of a proxy, up to the end of the header that tells who called.

ghost use Rattle.std.specs.Prelude.{◌≤◌, length, IfSome};

use crate::intake::Arrival;
use crate::patience::FIRST_IDLE;
use crate::peer::{Peer, Way};
use mio::net::TcpStream;
use std::alloc::Global;
use std::io::{ErrorKind, Read};
use tac_proxy::{Header, Proxy, Source, read_proxy};

/// How many bytes are read of a connection before its header is whole: the longest has as many.
const MOST: usize = 536;

/// A connection of a proxy, of which the header isn't whole.
pub(crate) struct Greeting {
    stream: TcpStream,
    // when it was accepted, in milliseconds
    since: Option<u64>,
    // what was read of it
    begun: Vec<u8>,
}

// By hand, so that a proof of an owner has one call at each exit, not a drop of each field.
impl Drop for Greeting {
    fn drop(self) {
        let Greeting {
            stream: _,
            since: _,
            begun: _,
        } = self;
    }
}

/// What a connection of a proxy has come to.
#[derive(Drop)]
pub(crate) enum Greeted {
    /// Its header isn't whole.
    Waits(Greeting),
    /// The proxy calls on its own, as to see whether the server is up; or nothing came before the
    /// end.
    Gone,
    /// What came is no header, nor the beginning of one; or its header tells of no caller.
    Bad,
    /// Memory ran out.
    Memory,
    /// It was told who called.
    Arrived(Arrival),
}

/// What came of a read.
#[derive(Clone, Copy, PartialEq, Eq)]
enum Came {
    Bytes,
    Nothing,
    End,
    Memory,
}

impl Greeting {
    /// One that was accepted now, on which nothing came.
    pub(crate) fn new(alloc: Global, stream: TcpStream, now: Option<u64>) -> Greeting {
        Greeting {
            stream,
            since: now,
            begun: Vec::new(alloc),
        }
    }

    /// The stream.
    pub(crate) fn stream(&self) -> &TcpStream {
        &self.stream
    }

    /// Whether its header was awaited for too long.
    pub(crate) fn is_over(&self, now: Option<u64>) -> bool {
        match (self.since, now) {
            (Some(since), Some(now)) => FIRST_IDLE <= now.saturating_sub(since),
            _ => false,
        }
    }

    // Reads once, no more than a header may have.
    fn read(&mut self) -> Came {
        let mut piece = [0; MOST];
        let room = MOST.saturating_sub(self.begun.len());
        match self.stream.read(&mut piece[..room]) {
            Ok(0) => Came::End,
            Ok(n) => match self.begun.extend_from_slice(&piece[..n]) {
                Ok(()) => Came::Bytes,
                Err(_) => Came::Memory,
            },
            Err(error) => match error.kind() {
                ErrorKind::WouldBlock => Came::Nothing,
                ErrorKind::Interrupted => Came::Bytes,
                _ => Came::End,
            },
        }
    }

    // The connection that this header tells of, with the bytes after it.
    fn arrived(self, alloc: Global, header: Header) -> Greeted
        requires { header.used ≤ length self.begun.items }
    {
        let Greeting {
            stream,
            since: _,
            begun,
        } = self;
        let address = match header.source {
            Source::Caller(address) => address,
            Source::Local => return Greeted::Gone,
            Source::Unknown => return Greeted::Bad,
        };
        let mut rest = Vec::new(alloc);
        if rest.extend_from_slice(&begun[header.used..]).is_err() {
            return Greeted::Memory;
        }
        let way = Way::Proxy(header.certificate);
        Greeted::Arrived(Arrival {
            stream,
            peer: Peer { address, way },
            begun: rest,
        })
    }

    // Where it ends before a header is whole.
    fn cut(self) -> Greeted {
        if self.begun.is_empty() {
            Greeted::Gone
        } else {
            Greeted::Bad
        }
    }

    /// Reads what is there, up to a whole header.
    pub(crate) fn look(self, alloc: Global) -> Greeted {
        let mut greeting = self;
        for _ in 0..MOST {
            match read_proxy(greeting.begun.as_slice()) {
                Proxy::Found(header) => return greeting.arrived(alloc, header),
                Proxy::Fault => return Greeted::Bad,
                Proxy::Need => {}
            }
            match greeting.read() {
                Came::Bytes => {}
                Came::Nothing => return Greeted::Waits(greeting),
                Came::End => return greeting.cut(),
                Came::Memory => return Greeted::Memory,
            }
        }
        Greeted::Waits(greeting)
    }
}

//! A connection up to its first packet.

use crate::callers::Callers;
use crate::departing::found_again;
use crate::packet_memory::{PacketMemory, PacketShare};
use crate::patience::{Idle, Patience};
use crate::peer::Peer;
use std::alloc::{AllocError, Global};
use std::io::{ErrorKind, Read};
use tac_first::Shown;
use tac_status::Departure;
use tac_worker::Chunk;

/// How many reads are made at once. Each that isn't the last fills its chunk, so these are more
/// than the longest packet takes.
const READS: u32 = 32;

/// A connection that was accepted, as a stream that never waits, and what came on it. Where its
/// device has two keys its first packet is to show which it is (RFC 8907, section 4.5), and until
/// then nothing is served.
#[derive(Drop)]
pub struct Lead<'a, S> {
    pub(crate) stream: S,
    pub(crate) peer: Peer,
    pub(crate) patience: Patience,
    pub(crate) share: PacketShare<'a>,
    pub(crate) begun: Vec<u8>,
}

fn by_memory(_error: AllocError) -> Departure {
    Departure::Memory
}

impl<'a, S> Lead<'a, S> {
    /// One that was accepted now, on which this came: no more than a share of the memory has for
    /// nothing.
    pub fn new(
        stream: S,
        peer: Peer,
        begun: Vec<u8>,
        memory: &'a PacketMemory,
        now: Option<u64>,
    ) -> Lead<'a, S> {
        let mut share = PacketShare::new(memory);
        let _ = share.grow(begun.len());
        Lead {
            stream,
            peer,
            patience: Patience::accepted(now),
            share,
            begun,
        }
    }

    /// Whether its device is given up by now.
    pub(crate) fn is_over(&self, idle: Idle, now: Option<u64>) -> bool {
        self.patience.is_over(idle, false, now)
    }

    // Which of its device's keys it has, as far as what came shows it.
    fn shown(&self, alloc: Global, callers: &Callers) -> Result<Option<Shown>, Departure> {
        found_again(callers, &self.peer)?
            .shown_by(alloc, self.begun.as_slice())
            .map_err(by_memory)
    }
}

impl<S: Read> Lead<'_, S> {
    // Keeps what a read gave.
    fn keep(&mut self, piece: &[u8]) -> Result<(), Departure> {
        if !self.share.grow(piece.len()) {
            return Err(Departure::PacketMemory);
        }
        self.begun.extend_from_slice(piece).map_err(by_memory)
    }

    // Reads once. The answer is whether there may be more.
    fn read(&mut self, chunk: &mut Chunk) -> Result<bool, Departure> {
        match self.stream.read(chunk) {
            Ok(0) => Err(Departure::Finished),
            Ok(n) => {
                self.keep(&chunk[..n])?;
                Ok(true)
            }
            Err(error) => match error.kind() {
                ErrorKind::WouldBlock => Ok(false),
                ErrorKind::Interrupted => Ok(true),
                _ => Err(Departure::Read),
            },
        }
    }

    /// Which of its device's keys it has, once that is shown. Reads what is there until then. The
    /// error says why the connection is over before that.
    pub(crate) fn look(
        &mut self,
        alloc: Global,
        callers: &Callers,
        chunk: &mut Chunk,
    ) -> Result<Option<Shown>, Departure> {
        for _ in 0..READS {
            let shown = self.shown(alloc, callers)?;
            if shown.is_some() || !self.read(chunk)? {
                return Ok(shown);
            }
        }
        Ok(None)
    }
}

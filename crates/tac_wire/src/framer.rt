//! The packets of a stream that comes in pieces.

ghost use Rattle.std.specs.Prelude.{◌≡◌, ◌≢◌, ◌<◌, ◌++◌, List, ℕ, [], length, IfOk, OnOk, OnErr};
ghost use Rattle.tac_wire.specs.Stream as stream;
ghost use Rattle.tac_wire.specs.declared.door.Door.{Door as DoorValue};
ghost use Rattle.tac_wire.specs.declared.frame.Frame.{Frame as FrameValue};

use crate::door::Door;
use crate::frame::{Frame, RefusedHeader, fault_of};
use crate::header::{HEADER_SIZE, Header};
use basics::Bytes;
use std::alloc::{AllocError, Global};
use std::marker::Model;

/// What stands first in what a [`Framer`] holds.
#[derive(Drop)]
pub enum Next {
    /// A whole packet.
    Packet(Frame),
    /// No whole item: the stream has to go on first.
    Need,
    /// A header that is refused. Nothing is read after it.
    Fault(RefusedHeader),
    /// A fault was told before.
    Ended,
}

/// Cuts a stream into packets, however it comes in pieces.
///
/// A header is judged as soon as its twelve bytes are there, and a packet never waits for what
/// follows it. The bytes of packets that were handed out stay in front until they are at least half
/// of the buffer when more is fed, and are removed then: each byte is moved a constant number of
/// times on average, so a stream handed over byte by byte costs linear time in all.
#[derive(Debug, Drop)]
pub struct Framer {
    alloc: Global,
    buffer: Vec<u8>,
    // how many bytes of the buffer were handed out
    read: usize,
    ended: bool,
}

impl Model for Framer {
    ghost use Rattle.std.specs.Prelude.{◌≡◌, ◌≤◌, [], drop, length, IsTrue, if◌then◌else◌};
    ghost use Rattle.tac_wire.specs.Stream as stream;

    ghost Value = { stream.Pending };

    ghost view = { λ framer. if framer.ended then stream.ended
        else stream.unread (drop framer.read framer.buffer.items) };

    ghost invariant = { λ framer. (framer.read ≤ length framer.buffer.items)
        × (IsTrue framer.ended → framer.buffer.items ≡ []) };
}

// What these bytes begin with.
#[tactic(auto, unfolding(crate::specs::Stream::first_item))]
fn first_item(alloc: Global, door: &Door, bytes: &[u8]) -> Result<Next, AllocError>
    ensures exact { IfOk result
        (λ next. next ≡ stream.told (stream.first_item door.now bytes.now)) }
    ensures found { IfOk result (λ next. stream.BeginsWith next bytes.now) }
    ensures memory { OnErr result
        (stream.IsPacket (stream.told (stream.first_item door.now bytes.now))) }
{
    let Some((head, rest)) = bytes.split_first_chunk::<HEADER_SIZE>() else {
        return Ok(Next::Need);
    };
    let header = Header::read(head);
    if let Some(fault) = fault_of(door, &header) {
        return Ok(Next::Fault(RefusedHeader { header, fault }));
    }
    let len = header.length as usize;
    if rest.len() < len {
        return Ok(Next::Need);
    }
    let body = Bytes::from_slice(alloc, &rest[..len])?;
    Ok(Next::Packet(Frame { header, body }))
}

impl Framer {
    /// The beginning of a stream. Takes no memory.
    pub fn new(alloc: Global) -> Framer
        ensures { result ≡ stream.unread [] }
    {
        Framer {
            alloc,
            buffer: Vec::new(alloc),
            read: 0,
            ended: false,
        }
    }

    // Removes what was handed out, if that is at least half of the buffer.
    fn compact(&mut self)
        ensures { self.new ≡ self.old }
    {
        if self.read >= self.buffer.len() - self.read {
            self.buffer.drain(..self.read);
            self.read = 0;
        }
    }

    // Gives up the stream, with all that was kept of it.
    fn end(&mut self)
        ensures { self.new ≡ stream.ended }
    {
        self.buffer = Vec::new(self.alloc);
        self.read = 0;
        self.ended = true;
    }

    /// Takes the next piece of the stream, and does nothing once a fault was told. The error means
    /// that memory ran out; nothing has changed then.
    pub fn feed(&mut self, piece: &[u8]) -> Result<(), AllocError>
        ensures ok { OnOk result (self.new ≡ stream.fed self.old piece.now) }
        ensures err { OnErr result (self.new ≡ self.old) }
        // Only a piece that is kept takes memory.
        ensures memory { OnErr result ((self.old ≢ stream.ended) × (0 < length piece.now)) }
        // However a stream is cut into pieces, the same packets, fault and rest come out.
        ensures pieces { (door : DoorValue) (bytes more : List ℕ) →
            stream.cut door (bytes ++ more) ≡ stream.continued door (stream.cut door bytes) more }
    {
        if self.ended {
            return Ok(());
        }
        self.compact();
        self.buffer.extend_from_slice(piece)
    }

    /// Tells what stands first in what is held, and removes it. A fault is told once. The error
    /// means that memory ran out for a packet's body; nothing has changed then.
    #[inline]
    pub fn next(&mut self, door: &Door) -> Result<Next, AllocError>
        ensures told { IfOk result (λ next. next ≡ stream.next_of door.now self.old) }
        ensures left { OnOk result (self.new ≡ stream.left_of door.now self.old) }
        ensures err { OnErr result (self.new ≡ self.old) }
        // Only a packet takes memory, for its body; all else is told in any case.
        ensures memory { OnErr result (stream.IsPacket (stream.next_of door.now self.old)) }
        // No byte is lost, and none is added.
        ensures found { IfOk result (λ next. stream.WasInFront next self.old self.new) }
        // Each packet that is taken is told as soon as it stands there, whatever follows.
        ensures again { (frame : FrameValue) (rest : List ℕ) → stream.IsTaken door.now frame →
            stream.first_item door.now (stream.frame_bytes frame ++ rest)
            ≡ stream.whole frame rest }
        // One item after another, this gives the parts of the stream.
        ensures items { (bytes : List ℕ) →
            stream.cut door.now bytes
            ≡ stream.parts_by (stream.cut door.now) (stream.first_item door.now bytes) bytes }
    {
        if self.ended {
            return Ok(Next::Ended);
        }
        let next = first_item(self.alloc, door, &self.buffer[self.read..])?;
        match &next {
            Next::Packet(frame) => self.read += HEADER_SIZE + frame.body.len(),
            Next::Fault(_) => self.end(),
            _ => {}
        }
        Ok(next)
    }
}

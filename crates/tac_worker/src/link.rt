//! A connection that is served in turns, while others are served too.

ghost use Rattle.std.specs.Prelude.{◌≡◌, ◌≤◌, length, take, IsTrue, IfOk, OnErr, OnSome, Some};
ghost use Rattle.std.specs.Io.KnownBytes.{Appends, Keeps};
ghost use Rattle.tac_worker.specs.Ahead.{IsSomeOfPassword, WaitsForIt, ask_ahead, waits};
ghost use Rattle.tac_worker.specs.Linked as linked;
ghost use Rattle.tac_worker.specs.declared.due.Due.TheVariants as dues;

use crate::ahead::{Ahead, adopt, first_turn, hash_ahead, look_ahead, password_ahead};
use crate::caller::Caller;
use crate::due::Due;
use crate::end::End;
use crate::hash_work::HashWork;
use crate::hearing::{Chunk, hear};
use crate::notes::{Called, Pieces, Sent};
use crate::queue::Queue;
use crate::terms::Terms;
use crate::turning::{Went, serve_turn};
use std::alloc::{AllocError, Global};
use std::io::{self, Read, Write};
use std::marker::Model;
use std::snapshot::Snapshot;
use tac_audit::{Notice, Witness};
use tac_conn::{Hash, Typed};
use tac_stream::Stream;
use tac_wire::Door;

/// What is known of the digest that the next packet's password takes.
#[derive(Clone, Copy)]
enum Digest {
    /// Nothing yet.
    Unknown,
    /// It is to be worked out under the rounds and the salt of this hash.
    Needed(Hash),
    /// Somebody works it out.
    Awaited,
    /// There is none to be worked out any more.
    Settled,
}

impl Digest {
    // That of the password of the next packet, if it was found and has one.
    fn of<C: Caller>(ahead: &Option<Ahead>, caller: &C) -> Digest
        ensures { WaitsForIt result ahead.now }
    {
        match hash_ahead(ahead, caller) {
            Some(hash) => Digest::Needed(hash),
            None => Digest::Settled,
        }
    }

    // Whether a password is to be worked out first.
    fn waits(&self) -> bool
        ensures { result ≡ waits self.now }
    {
        matches!(self, Digest::Needed(_) | Digest::Awaited)
    }

    // What is to be worked out for the password of the next packet, which was found.
    fn work(&self, alloc: Global, ahead: &Option<Ahead>) -> Result<Option<HashWork>, AllocError>
        ensures { IfOk result (λ work. OnSome work (IsSomeOfPassword (ask_ahead ahead.now))) }
    {
        let (Digest::Needed(hash), Some(password)) = (self, password_ahead(ahead)) else {
            return Ok(None);
        };
        let work = HashWork::new(alloc, password, hash)?;
        Ok(Some(work))
    }
}

/// A connection that is served in turns, by a caller that may call for others in between. It holds
/// what came and isn't served yet, what waits to be sent, and its witness.
///
/// What was called for it, what came and what was sent it knows in proofs alone, so its memory
/// doesn't grow with its age: it holds one packet, or what a read gave, a reply, and its sessions.
pub struct Link<'a, C: Caller, V: Witness<Notice>> {
    door: &'a Door,
    first: Snapshot<V>,
    witness: V,
    caller: Snapshot<C>,
    stream: Stream,
    // the next turn, where it was found already
    ahead: Option<Ahead>,
    digest: Digest,
    queue: Queue,
    pieces: Pieces,
    called: Called,
    sent: Sent,
    // Whether the last turn found no whole packet, and no read went well since.
    rests: bool,
    end: Option<End>,
}

// By hand, so that a proof of an owner has one call at each exit, not a drop of each field.
impl<'a, C: Caller, V: Witness<Notice>> Drop for Link<'a, C, V> {
    fn drop(self) {
        let Link {
            door: _,
            first: _,
            witness: _,
            caller: _,
            stream: _,
            ahead: _,
            digest: _,
            queue: _,
            pieces: _,
            called: _,
            sent: _,
            rests: _,
            end: _,
        } = self;
    }
}

impl<'a, C: Caller, V: Witness<Notice>> Model for Link<'a, C, V> {
    ghost use Rattle.tac_worker.specs.Linked.{Linked};

    ghost Value = { Linked C V };

    ghost use Rattle.tac_worker.specs.Linking.{connection_of, IsKept};

    ghost view = { connection_of };

    ghost invariant = { IsKept C.refuses V.takes V.refuses };
}

impl<'a, C: Caller, V: Witness<Notice>> Link<'a, C, V> {
    /// A connection on which nothing came, which has the door of these terms.
    pub fn new(terms: &Terms<'a>, witness: V, caller: &C) -> Link<'a, C, V>
        ensures { result ≡ linked.fresh terms.now.door.now witness caller.now }
    {
        Link {
            door: terms.door,
            first: Snapshot::of(&witness),
            witness,
            caller: Snapshot::of(caller),
            stream: Stream::new(terms.alloc),
            ahead: None,
            digest: Digest::Unknown,
            queue: Queue::new(terms.alloc),
            pieces: Pieces::new(),
            called: Called::new(),
            sent: Sent::new(),
            rests: false,
            end: None,
        }
    }

    /// What is to be done next.
    pub fn due(&self) -> Due
        ensures { result ≡ linked.due_of self.now }
    {
        if !self.queue.pending().is_empty() {
            return Due::Send;
        }
        if self.end.is_some() {
            return Due::Close;
        }
        if self.rests { Due::Hear } else { Due::Turn }
    }

    /// How it ended, if it has ended.
    ///
    /// The calls for it are the first asks of the bytes that came. What was put on it, which is
    /// what was sent and then what waits, is what is sent by their answers. Its witness took the
    /// notices of that. Once it has ended this is all, or as much as the end allows. Before, it is
    /// so up to some packet, and so it stays where the connection is given up. A reply that the
    /// witness took is put there whole.
    pub fn end(&self) -> Option<End>
        ensures end { result ≡ self.now.end }
        ensures stands { linked.StandsSo C.refuses V.takes V.refuses result self.now }
    {
        self.end
    }

    /// What waits to be sent, in that order.
    pub fn pending(&self) -> &[u8]
        ensures { result.now ≡ self.now.pending }
    {
        self.queue.pending()
    }

    /// Its witness, as the last notice left it.
    pub fn witness(&self) -> &V
        ensures { result.now ≡ self.now.witness }
    {
        &self.witness
    }

    /// If a turn is due, finds the next packet, though it doesn't serve it, and whether that has a
    /// password which is to be worked out first. It may wait for the caller.
    pub fn foresee(&mut self, caller: &C)
        ensures { self.new ≡ self.old }
    {
        match self.due() {
            Due::Turn => {}
            _ => return,
        }
        match self.digest {
            Digest::Unknown => {}
            _ => return,
        }
        look_ahead(self.door, &mut self.stream, &mut self.ahead);
        self.digest = Digest::of(&self.ahead, caller);
    }

    /// Whether a turn is due that waits until a password is worked out.
    pub fn awaits_digest(&self) -> bool
        ensures due { IsTrue result → linked.due_of self.now ≡ dues.Turn }
        ensures password { IsTrue result → linked.AsksPassword self.now }
    {
        match self.due() {
            Due::Turn => self.digest.waits(),
            _ => false,
        }
    }

    /// What is to be worked out for the next packet, unless somebody was handed that before. The
    /// error means that there is no memory for it: then it still is to be.
    pub fn take_work(&mut self, alloc: Global) -> Result<Option<HashWork>, AllocError>
        ensures { self.new ≡ self.old }
    {
        let work = self.digest.work(alloc, &self.ahead)?;
        if work.is_some() {
            self.digest = Digest::Awaited;
        }
        Ok(work)
    }

    /// The password of the next packet was worked out, so that it waits for nothing any more.
    pub fn adopt(&mut self, worked_out: Typed)
        ensures { self.new ≡ self.old }
    {
        adopt(&mut self.ahead, worked_out);
        self.digest = Digest::Settled;
    }

    /// If a turn is due, serves the next packet if it has come whole: has the caller ask, tells the
    /// witness, and puts the reply there to be sent. Else it does nothing.
    ///
    /// The room for a reply is taken before the call. Where memory for it is refused, the
    /// connection ends as Memory and nothing was called. The door is that of the terms by which the
    /// connection was made. It may wait for the caller and the witness, and for nobody at the other
    /// end. Linear in the packet, but for what the caller and the witness take.
    pub fn turn(&mut self, terms: &Terms, caller: &mut C)
        ensures { linked.TurnsAt C.makes C.rests (linked.due_of self.old) self.old self.new
            caller.old caller.new }
    {
        match self.due() {
            Due::Turn => {}
            _ => return,
        }
        let terms = Terms {
            alloc: terms.alloc,
            door: self.door,
        };
        self.digest = Digest::Unknown;
        let turn = first_turn(self.door, &mut self.stream, &mut self.ahead);
        let went = serve_turn(
            &terms,
            caller,
            &mut self.witness,
            &mut self.stream,
            turn,
            &mut self.queue,
            &mut self.called,
        );
        self.caller = Snapshot::of(caller);
        match went {
            Ok(Went::On) => {}
            Ok(Went::Rests) => self.rests = true,
            Err(end) => self.end = Some(end),
        }
    }

    /// If a read is due, reads once, into this chunk, and keeps what came. Else it does nothing.
    ///
    /// An interrupted read gives nothing; a reader that would wait can say so by that error. Any
    /// other error ends the connection as ReadFault, an end of what came as Finished, and want of
    /// memory for what came as Memory. It may wait for the reader.
    pub fn hear<R: Read>(&mut self, reader: &mut R, chunk: &mut Chunk)
        ensures { linked.HearsAt (linked.due_of self.old) self.old self.new
            (R.remaining reader.old) (R.remaining reader.new) }
    {
        match self.due() {
            Due::Hear => {}
            _ => return,
        }
        match hear(reader, chunk, &mut self.stream, &mut self.pieces) {
            Ok(()) => self.rests = false,
            Err(end) => self.end = Some(end),
        }
    }

    /// Writes once what waits, and answers how many bytes of it the writer took. The error is the
    /// writer's, and what waited still waits then. It may wait for the writer. Linear in what
    /// waits.
    pub fn send<W: Write>(&mut self, writer: &mut W) -> io::Result<usize>
        ensures bound { IfOk result (λ n. n ≤ length self.old.pending) }
        ensures bytes { IfOk result (λ n. Appends (W.contents writer.old) (W.contents writer.new)
            (take n self.old.pending)) }
        ensures link { IfOk result (λ n. self.new ≡ linked.after_sending n self.old) }
        ensures err { OnErr result ((self.new ≡ self.old)
            × Keeps (W.contents writer.old) (W.contents writer.new)) }
    {
        let n = writer.write(self.queue.pending())?;
        self.sent.add(&self.queue, n);
        self.queue.advance(n);
        Ok(n)
    }

    /// Its witness, where the connection is given up.
    pub fn into_witness(self) -> V
        ensures { result ≡ self.entry.witness }
    {
        let Link {
            door: _,
            first: _,
            witness,
            caller: _,
            stream: _,
            ahead: _,
            digest: _,
            queue: _,
            pieces: _,
            called: _,
            sent: _,
            rests: _,
            end: _,
        } = self;
        witness
    }
}

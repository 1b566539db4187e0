//! One of many connections.

ghost use Rattle.std.specs.Prelude.{◌≡◌, ◌≤◌, ℕ, None};
ghost use Rattle.tac_worker.specs.Linked as linked;
ghost use Rattle.tac_worker.specs.Steps as steps;

use crate::caller::Caller;
use crate::due::Due;
use crate::hash_work::HashWork;
use crate::hearing::Chunk;
use crate::link::Link;
use crate::source::Source;
use crate::stop::Stop;
use crate::terms::Terms;
use std::alloc::{AllocError, Global};
use std::io::{Read, Write};
use tac_audit::{Notice, Witness};
use tac_conn::Typed;

/// One of many connections: its number, how it stands, and its socket.
pub struct Line<'a, C: Caller, V: Witness<Notice>, S> {
    number: u64,
    link: Link<'a, C, V>,
    source: Source<S>,
}

// By hand, so that a proof of an owner has one call at each exit, not a drop of each field.
impl<'a, C: Caller, V: Witness<Notice>, S: Drop> Drop for Line<'a, C, V, S> {
    fn drop(self) {
        let Line {
            number: _,
            link: _,
            source: _,
        } = self;
    }
}

impl<'a, C: Caller, V: Witness<Notice>, S> Line<'a, C, V, S> {
    /// A connection on which nothing came.
    pub(crate) fn new(
        number: u64,
        terms: &Terms<'a>,
        witness: V,
        socket: S,
        caller: &C,
    ) -> Line<'a, C, V, S>
        ensures line { result ≡ steps.begun number terms.now.door.now witness socket caller.now }
        ensures stands { linked.StandsSo C.refuses V.takes V.refuses result.link.end result.link }
    {
        let link = Link::new(terms, witness, caller);
        link.end();
        Line {
            number,
            link,
            source: Source::new(socket),
        }
    }

    /// Its number.
    pub fn number(&self) -> u64
        ensures { result ≡ self.now.number }
    {
        self.number
    }

    /// How it stands.
    pub fn link(&self) -> &Link<'a, C, V>
        ensures { result.now ≡ self.now.link }
    {
        &self.link
    }

    /// Its socket.
    pub fn socket(&self) -> &S
        ensures { result.now ≡ self.now.source.socket }
    {
        self.source.socket()
    }

    /// Its witness and its socket, once it isn't served any more.
    pub fn into_parts(self) -> (V, S)
        ensures { result ≡ (self.entry.link.witness, self.entry.source.socket) }
    {
        let Line {
            number: _,
            link,
            source,
        } = self;
        (link.into_witness(), source.into_socket())
    }
}

impl<'a, C: Caller, V: Witness<Notice>, S: Read + Write> Line<'a, C, V, S> {
    /// Why it is to be left, if it is.
    fn stop(&self) -> Option<Stop>
        ensures stop { result ≡ steps.stop_of self.now }
        ensures stands { linked.StandsSo C.refuses V.takes V.refuses self.now.link.end
            self.now.link }
    {
        let end = self.link.end();
        match self.link.due() {
            Due::Turn => None,
            Due::Hear => {
                if self.source.is_idle() {
                    return Some(Stop::Idle);
                }
                None
            }
            Due::Send => {
                if self.source.is_broken() {
                    return Some(Stop::Broken);
                }
                if self.source.is_full() {
                    return Some(Stop::Full);
                }
                None
            }
            Due::Close => end.map(Stop::Ended),
        }
    }

    /// Does what is due, once.
    fn step(&mut self, terms: &Terms, caller: &mut C, chunk: &mut Chunk)
        ensures { steps.StepsAt C.makes C.rests S.remaining S.contents (linked.due_of self.old.link)
            self.old self.new caller.old caller.new }
    {
        match self.link.due() {
            Due::Turn => self.link.turn(terms, caller),
            Due::Hear => self.link.hear(&mut self.source, chunk),
            Due::Send => {
                let _ = self.link.send(&mut self.source);
            }
            Due::Close => {}
        }
    }

    /// What is to be worked out for it, unless that was handed out before.
    pub(crate) fn take_work(&mut self, alloc: Global) -> Result<Option<HashWork>, AllocError>
        ensures { self.new ≡ self.old }
    {
        self.link.take_work(alloc)
    }

    /// The password of its next packet was worked out.
    pub(crate) fn adopt(&mut self, worked_out: Typed)
        ensures { self.new ≡ self.old }
    {
        self.link.adopt(worked_out);
    }

    /// Does what is due, one step after another, until it is to be left.
    pub(crate) fn go(
        &mut self,
        terms: &Terms,
        caller: &mut C,
        chunk: &mut Chunk,
        turns: u32,
    ) -> Stop
        ensures goes { steps.GoesUpTo C.makes C.rests S.remaining S.contents turns result
            (steps.woken self.old) self.new caller.old caller.new }
        ensures stands { linked.StandsSo C.refuses V.takes V.refuses self.new.link.end
            self.new.link }
    {
        self.source.wake();
        'steps: for _ in 0..turns {
            if let Some(stop) = self.stop() {
                return stop;
            }
            self.link.foresee(caller);
            if self.link.awaits_digest() {
                return Stop::Digest;
            }
            self.step(terms, caller, chunk);
        }
        match self.stop() {
            Some(stop) => stop,
            None => Stop::Busy,
        }
    }
}

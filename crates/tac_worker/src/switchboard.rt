//! One caller that many connections share.

ghost use Rattle.std.specs.Prelude.{◌≡◌, Some, None, count_by, is_some, option_copied};
ghost use Rattle.std.specs.Prelude.{IfOk, IfErr, OnErr, IfSome, true};
ghost use Rattle.slab.specs.Slab.{entries_from};
ghost use Rattle.tac_worker.specs.Board as board;

use crate::caller::Caller;
use crate::hash_work::HashWork;
use crate::hearing::Chunk;
use crate::line::Line;
use crate::steady::Steady;
use crate::stop::Stop;
use crate::terms::Terms;
use crate::trace::Trace;
use slab::{Iter, Slab};
use std::alloc::{AllocError, Global};
use std::io::{Read, Write};
use std::marker::Model;
use std::snapshot::Snapshot;
use tac_audit::{Notice, Witness};
use tac_conn::Typed;

/// One caller that many connections share, and those connections, each under a key.
///
/// Connections are numbered from 0 in the order in which they were added, and no number is used
/// again, while a key is once its connection was removed. The calls that the caller made, and the
/// connections that were removed, are known in proofs alone, so the memory that is held doesn't
/// grow with its age: a connection has the room of one packet, or of what one read gave, and of one
/// reply.
pub struct Switchboard<'a, C: Caller, V: Witness<Notice>, S> {
    first: Snapshot<C>,
    caller: C,
    lines: Slab<Line<'a, C, V, S>>,
    next: u64,
    over: Trace<Line<'a, C, V, S>>,
}

// By hand, so that a proof of an owner has one call at each exit, not a drop of each field.
impl<'a, C: Caller, V: Witness<Notice>, S: Drop> Drop for Switchboard<'a, C, V, S> {
    fn drop(self) {
        let Switchboard {
            first: _,
            caller: _,
            lines: _,
            next: _,
            over: _,
        } = self;
    }
}

impl<'a, C: Caller, V: Witness<Notice>, S> Model for Switchboard<'a, C, V, S> {
    ghost use Rattle.tac_worker.specs.Board.{Board, IsWorking};

    ghost Value = { Board C V S };

    ghost use Rattle.tac_worker.specs.Boarding.{board_of};

    ghost view = { board_of };

    ghost invariant = { λ board. IsWorking C.makes C.rests C.refuses V.takes V.refuses
        (board_of board) };
}

/// A connection that wasn't added: memory was out, or 2^64 - 1 were added before it.
#[derive(Drop)]
pub struct NotAdded<V, S> {
    pub witness: V,
    pub socket: S,
}

impl<'a, C: Steady, V: Witness<Notice>, S: Read + Write + Drop> Switchboard<'a, C, V, S> {
    /// One without connections. It takes no memory until one is added.
    pub fn new(alloc: Global, caller: C) -> Switchboard<'a, C, V, S>
        ensures { result ≡ board.idle caller }
    {
        Switchboard {
            first: Snapshot::of(&caller),
            caller,
            lines: Slab::new(alloc),
            next: 0,
            over: Trace::new(),
        }
    }

    /// Adds a connection on which nothing came, which has the door of these terms, and
    /// answers under which key it is served. Where memory is refused, nothing changes, and its
    /// witness and its socket come back. It takes memory only where more are served than ever
    /// before; linear in their count then, and else constant.
    pub fn add(&mut self, terms: &Terms<'a>, witness: V, socket: S) -> Result<usize, NotAdded<V, S>>
        ensures added { IfOk result (λ key. board.Adds (board.came terms.now.door.now witness socket
            self.old) key self.old self.new) }
        ensures err { OnErr result (self.new ≡ self.old) }
        ensures back { IfErr result (λ not. not ≡ record { witness = witness; socket = socket }) }
    {
        let number = self.next;
        let Some(next) = number.checked_add(1) else {
            return Err(NotAdded { witness, socket });
        };
        if let Err(_) = self.lines.reserve(1) {
            return Err(NotAdded { witness, socket });
        }
        let line = Line::new(number, terms, witness, socket, &self.caller);
        let key = self.lines.insert_reserved(line);
        self.next = next;
        Ok(key)
    }

    /// Does what is due with the connection of this key, one step after another, until it is to be
    /// left, and no more than so many. A step is a turn, a read or a write, as
    /// [`Link`](crate::Link) says; the chunk is what reads read into.
    ///
    /// Its socket has to answer WouldBlock in place of waiting. It is left as Idle where that came
    /// of a read and no whole packet is there, and as Full where it came of a write and bytes wait:
    /// so the next packet is neither read nor judged until the reply before is sent. An interrupted
    /// read or write is a step that did nothing, and is tried again. Any other error of a read ends
    /// the connection as ReadFault. Any other error of a write, and a write that takes nothing,
    /// leaves it as Broken. What it said of waiting is forgotten at the next call.
    ///
    /// It is left as Digest where its next packet has a password that takes the rounds of a hash,
    /// which [`take_work`](Switchboard::take_work) has worked out, until
    /// [`adopt`](Switchboard::adopt) brings that back: such a packet isn't judged before.
    ///
    /// It may wait for the caller and the witness, and for no socket that keeps to that. Linear in
    /// what is read, but for what the caller and the witness take.
    pub fn serve(&mut self, key: usize, terms: &Terms, chunk: &mut Chunk, turns: u32) -> Stop
        ensures { board.ServesAt C.makes C.rests S.remaining S.contents
            (board.at self.old.lines key) turns key result self.old self.new }
    {
        match self.lines.get_mut(key) {
            Some(line) => line.go(terms, &mut self.caller, chunk, turns),
            None => Stop::Absent,
        }
    }

    /// What is to be worked out for the connection of this key, with its number, unless that was
    /// handed out before. The error means that there is no memory for it. Linear in the password.
    pub fn take_work(
        &mut self,
        key: usize,
        alloc: Global,
    ) -> Result<Option<(u64, HashWork)>, AllocError>
        ensures unseen { self.new ≡ self.old }
        ensures whose { IfOk result (λ work. IfSome work (λ handed.
            board.is_numbered handed.0 (board.at self.old.lines key) ≡ true)) }
    {
        let Some(line) = self.lines.get_mut(key) else {
            return Ok(None);
        };
        let number = line.number();
        match line.take_work(alloc)? {
            Some(work) => Ok(Some((number, work))),
            None => Ok(None),
        }
    }

    /// What was worked out for the connection of this key and number, which goes on by it. The
    /// answer is false where that connection was removed.
    pub fn adopt(&mut self, key: usize, number: u64, worked_out: Typed) -> bool
        ensures unseen { self.new ≡ self.old }
        ensures whose { result ≡ board.is_numbered number (board.at self.old.lines key) }
    {
        let Some(line) = self.lines.get_mut(key) else {
            return false;
        };
        if line.number() != number {
            return false;
        }
        line.adopt(worked_out);
        true
    }

    /// Removes the connection of this key, if there is one, whether it has ended or is given up,
    /// and hands it back. Its key is the next then. Constant.
    pub fn remove(&mut self, key: usize) -> Option<Line<'a, C, V, S>>
        ensures line { result ≡ board.at self.old.lines key }
        ensures rest { self.new ≡ board.removed_at result key self.old }
    {
        let Some(line) = self.lines.try_remove(key) else {
            return None;
        };
        self.over.add(&line);
        Some(line)
    }

    /// The connection of this key, if there is one. Constant.
    pub fn get(&self, key: usize) -> Option<&Line<'a, C, V, S>>
        ensures { option_copied result ≡ board.at self.now.lines key }
    {
        self.lines.get(key)
    }

    /// The connections that are served, each with its key, by rising key. Linear in how many were
    /// served at once.
    pub fn lines(&self) -> Iter<'_, Line<'a, C, V, S>>
        ensures { result ≡ entries_from 0 self.now.lines }
    {
        self.lines.iter()
    }

    /// The key under which the next one is put.
    pub fn next_key(&self) -> usize
        ensures { result ≡ self.now.vacant }
    {
        self.lines.vacant_key()
    }

    /// How many connections are served.
    pub fn len(&self) -> usize
        ensures { result ≡ count_by is_some self.now.lines }
    {
        self.lines.len()
    }

    /// The caller, once no more is to be served. Connections that are still served are given up.
    ///
    /// It made exactly these calls, each for one connection that was added. Of each of these, what
    /// was called for it are the calls of its number, in their order; these are the first asks of
    /// its bytes; and what was put on it is what is sent by their answers, as far as it came.
    pub fn into_caller(self) -> C
        ensures caller { result ≡ self.entry.caller }
        ensures worked { board.IsWorking C.makes C.rests C.refuses V.takes V.refuses self.entry }
    {
        let Switchboard {
            first: _,
            caller,
            lines: _,
            next: _,
            over: _,
        } = self;
        caller
    }
}

//! A server over a desk: its connections, by number.

ghost use Rattle.std.specs.Prelude.{◌≡◌, ◌++◌, [], ◌∷◌, List, ℕ, false, IfOk, OnOk};
ghost use Rattle.tac_wire.specs.declared.door.Door.TheVariants.{Padded};
ghost use Rattle.tac_desk.specs.Meaning.{Meaning as MeaningValue};
ghost use Rattle.tac_desk.specs.Serving.{said_on, unless_closed};
ghost use Rattle.tac_console.specs.Batching.{action_of, batch_after};
ghost use Rattle.tac_console.specs.ConsoleText.{asked_by};
ghost use Rattle.tac_console.specs.declared.batching.Action.TheVariants as acts;
ghost use Rattle.tac_server.specs.Server as servers;
ghost use Rattle.tac_server.specs.Kept as kept;
ghost use Rattle.tac_server.specs.Course as course;
ghost use Rattle.tac_server.specs.Happening.{Happening, Opens, Brings, Loses, Types};
ghost use Rattle.tac_server.specs.Happening.{Given, Nothing};
ghost use Rattle.tac_server.specs.declared.server.ServerFault.TheVariants.{Memory};

use crate::noticed::Noticed;
use crate::turning::serve_piece;
use pol_edit::{Edit, EditFault};
use std::alloc::{AllocError, AllocFailed, Global};
use std::collections::BTreeMap;
use tac_audit::{Nobody, Witness};
use tac_console::{
    Action, Batch, read_console, write_batch_answer, write_edit_answer, write_notice,
    write_query_answer,
};
use tac_desk::{Desk, Query, QueryFault};
use tac_stream::Stream;
use tac_wire::{Key, KeyDoor};

/// Why a server didn't do what was asked.
#[derive(Clone, Copy, Debug, PartialEq, Eq)]
pub enum ServerFault {
    /// No connection of this number is open.
    NoConnection,
    /// A connection of this number is open already.
    AlreadyOpen,
    /// Memory ran out.
    Memory {
        /// Whether the edit of a line of the console, or the batch that it commits, was accepted
        /// all the same.
        accepted: bool,
    },
}

impl From<AllocError> for ServerFault {
    ghost from_gives = { λ _ fault. fault ≡ Memory false };

    fn from(_error: AllocError) -> ServerFault {
        ServerFault::Memory { accepted: false }
    }
}

impl<T: Drop> From<AllocFailed<T>> for ServerFault {
    ghost from_gives = { λ _ fault. fault ≡ Memory false };

    fn from(_error: AllocFailed<T>) -> ServerFault {
        ServerFault::Memory { accepted: false }
    }
}

/// A server of connections, which share its key and its desk.
pub struct Server<D> {
    alloc: Global,
    key: KeyDoor,
    desk: D,
    connections: BTreeMap<u32, Stream>,
    batch: Batch,
}

// By hand, so that a proof of an owner has one call at each exit, not a drop of each field.
impl<D: Drop> Drop for Server<D> {
    fn drop(self) {
        let Server {
            alloc: _,
            key: _,
            desk: _,
            connections: _,
            batch: _,
        } = self;
    }
}

impl<D: Desk> Server<D> {
    /// A server over this desk, before anyone has connected. Takes no memory.
    #[tactic(auto, using(crate::proofs::CourseFacts::run_none))]
    pub fn new(alloc: Global, desk: D, key: Key) -> Server<D>
        ensures state { kept.HasState D.meaning result (servers.opening key (D.meaning desk)) }

        // Nothing has happened yet.
        ensures course { course.HasRun D.meaning result
            (servers.opening key (D.meaning desk)) [] [] }
    {
        Server {
            alloc,
            key: KeyDoor::new(key),
            desk,
            connections: BTreeMap::new(alloc),
            batch: Batch::closed(),
        }
    }

    pub(crate) fn key(&self) -> &KeyDoor
        ensures { result.now ≡ self.now.key }
    {
        &self.key
    }

    /// Opens a connection of this number. Where memory ran out nothing has changed.
    pub fn open(&mut self, conn: u32) -> Result<(), ServerFault>
        ensures step { (state : servers.State) → kept.HasState D.meaning self.old state →
            kept.IsOpened D.meaning self.new conn state result }

        // After all that happened before.
        ensures course { (start : servers.State) (events : List Happening) (outs : List Given)
            → course.HasRun D.meaning self.old start events outs → OnOk result (course.HasRun
            D.meaning self.new start (Opens conn ∷ events) (Nothing ∷ outs)) }
    {
        if self.connections.contains_key(&conn) {
            return Err(ServerFault::AlreadyOpen);
        }
        let stream = Stream::new(self.alloc);
        self.connections.insert(conn, stream)?;
        Ok(())
    }

    /// Takes the next piece of what comes on a connection, adds what is sent for the packets that
    /// it completes, and answers whether the connection was closed. Linear in the piece, but for
    /// what the desk takes.
    ///
    /// Where memory ran out some of these packets were served, from the first on, and their replies
    /// are added; the others had no effect, and the connection is lost.
    pub fn feed(&mut self, conn: u32, piece: &[u8], out: &mut Vec<u8>) -> Result<bool, ServerFault>
        ensures heard { (state : servers.State) → kept.HasState D.meaning self.old state →
            kept.IsHeard D.meaning out.old.items out.new.items self.new conn piece.now state
            result }

        // After all that happened before.
        ensures course { (start : servers.State) (events : List Happening) (outs : List Given)
            → course.HasRun D.meaning self.old start events outs → OnOk result (course.RunsOn
            D.meaning out.old.items out.new.items self.new start
            (Brings conn piece.now) events outs) }

        // Where memory ran out, a beginning of the piece came, and then the connection was lost.
        ensures after_fault { (start : servers.State) (events : List Happening)
            (outs : List Given) → course.HasRun D.meaning self.old start events outs
            → course.RunsAfterFault D.meaning out.old.items out.new.items self.new start
            conn piece.now events outs result }

        // However bytes are cut into pieces, the same is said.
        ensures pieces { (meaning : MeaningValue) (before first second : List ℕ) →
            said_on (Padded self.old.key) meaning before (first ++ second)
            ≡ unless_closed (said_on (Padded self.old.key) meaning before first)
            (λ next. said_on (Padded self.old.key) next (before ++ first) second) }
    {
        self.feed_told(conn, piece, out, &mut Nobody)
    }

    /// The same as [`feed`](Server::feed), with a witness, who is told of each packet just before
    /// its reply is added: as [`Noticed::On`], with the number of the connection and the reply, if
    /// there is one. It is told too of a header that is refused. What it refuses makes no
    /// difference.
    pub fn feed_told<W: Witness<Noticed>>(
        &mut self,
        conn: u32,
        piece: &[u8],
        out: &mut Vec<u8>,
        witness: &mut W,
    ) -> Result<bool, ServerFault>
        ensures heard { (state : servers.State) → kept.HasState D.meaning self.old state →
            kept.IsHeard D.meaning out.old.items out.new.items self.new conn piece.now state
            result }

        // After all that happened before.
        ensures course { (start : servers.State) (events : List Happening) (outs : List Given)
            → course.HasRun D.meaning self.old start events outs → OnOk result (course.RunsOn
            D.meaning out.old.items out.new.items self.new start
            (Brings conn piece.now) events outs) }

        // Where memory ran out, a beginning of the piece came, and then the connection was lost.
        ensures after_fault { (start : servers.State) (events : List Happening)
            (outs : List Given) → course.HasRun D.meaning self.old start events outs
            → course.RunsAfterFault D.meaning out.old.items out.new.items self.new start
            conn piece.now events outs result }

        // However bytes are cut into pieces, the same is said.
        ensures pieces { (meaning : MeaningValue) (before first second : List ℕ) →
            said_on (Padded self.old.key) meaning before (first ++ second)
            ≡ unless_closed (said_on (Padded self.old.key) meaning before first)
            (λ next. said_on (Padded self.old.key) next (before ++ first) second) }
    {
        let Some(stream) = self.connections.get_mut(&conn) else {
            return Err(ServerFault::NoConnection);
        };
        let door = self.key.door();
        match serve_piece(door, &mut self.desk, stream, conn, piece, out, witness) {
            Ok(false) => Ok(false),
            Ok(true) => {
                self.connections.remove(&conn);
                Ok(true)
            }
            Err(_) => {
                self.connections.remove(&conn);
                Err(ServerFault::Memory { accepted: false })
            }
        }
    }

    /// The connection of this number is lost, if there is one. Takes no memory.
    pub fn lost(&mut self, conn: u32)
        ensures step { (state : servers.State) → kept.HasState D.meaning self.old state →
            kept.HasState D.meaning self.new (servers.lost conn state) }

        // After all that happened before.
        ensures course { (start : servers.State) (events : List Happening) (outs : List Given)
            → course.HasRun D.meaning self.old start events outs
            → course.HasRun D.meaning self.new start (Loses conn ∷ events) (Nothing ∷ outs) }
    {
        let _ = self.connections.remove(&conn);
    }

    // Makes an edit, and adds the answer.
    fn answer_edit(&mut self, edit: &Edit, out: &mut Vec<u8>) -> Result<(), ServerFault>
        ensures answered { kept.ActionAnswered (D.meaning self.old.desk) (D.meaning self.new.desk)
            (acts.Edit edit.now) out.old.items out.new.items result }
        ensures key { self.new.key ≡ self.old.key }
        ensures connections { self.new.connections ≡ self.old.connections }
        ensures batch { self.new.batch ≡ self.old.batch }
    {
        match self.desk.edit(edit) {
            Ok(changes) => match write_edit_answer(self.alloc, out, &Ok(changes.get())) {
                Ok(()) => Ok(()),
                Err(_) => Err(ServerFault::Memory { accepted: true }),
            },
            Err(EditFault::Memory) => Err(ServerFault::Memory { accepted: false }),
            Err(fault) => {
                write_edit_answer(self.alloc, out, &Err(fault))?;
                Ok(())
            }
        }
    }

    // Makes the edits of a batch, all or none, and adds the answer.
    fn answer_batch(&mut self, edits: &[Edit], out: &mut Vec<u8>) -> Result<(), ServerFault>
        ensures answered { kept.ActionAnswered (D.meaning self.old.desk) (D.meaning self.new.desk)
            (acts.Commit edits.now) out.old.items out.new.items result }
        ensures key { self.new.key ≡ self.old.key }
        ensures connections { self.new.connections ≡ self.old.connections }
        ensures batch { self.new.batch ≡ self.old.batch }
    {
        match self.desk.edit_all(edits) {
            Ok(changes) => match write_batch_answer(self.alloc, out, &Ok(changes.get())) {
                Ok(()) => Ok(()),
                Err(_) => Err(ServerFault::Memory { accepted: true }),
            },
            Err(refusal) if refusal.fault == EditFault::Memory => {
                Err(ServerFault::Memory { accepted: false })
            }
            Err(refusal) => {
                write_batch_answer(self.alloc, out, &Err(refusal))?;
                Ok(())
            }
        }
    }

    // Answers a question.
    fn answer_query(&mut self, query: &Query, out: &mut Vec<u8>) -> Result<(), ServerFault>
        ensures answered { kept.ActionAnswered (D.meaning self.old.desk) (D.meaning self.new.desk)
            (acts.Query query.now) out.old.items out.new.items result }
        ensures key { self.new.key ≡ self.old.key }
        ensures connections { self.new.connections ≡ self.old.connections }
        ensures batch { self.new.batch ≡ self.old.batch }
    {
        match self.desk.query(query) {
            Ok(report) => {
                write_query_answer(self.alloc, out, query, &Ok(report.get()))?;
                Ok(())
            }
            Err(QueryFault::Memory) => Err(ServerFault::Memory { accepted: false }),
            Err(fault) => {
                write_query_answer(self.alloc, out, query, &Err(fault))?;
                Ok(())
            }
        }
    }

    // Does what is to be done for a line, and adds the answer.
    fn act(&mut self, action: Action, out: &mut Vec<u8>) -> Result<(), ServerFault>
        ensures answered { kept.ActionAnswered (D.meaning self.old.desk) (D.meaning self.new.desk)
            action out.old.items out.new.items result }
        ensures key { self.new.key ≡ self.old.key }
        ensures connections { self.new.connections ≡ self.old.connections }
        ensures batch { self.new.batch ≡ self.old.batch }
    {
        match action {
            Action::Edit(edit) => self.answer_edit(&edit, out),
            Action::Commit(edits) => self.answer_batch(edits.as_slice(), out),
            Action::Query(query) => self.answer_query(&query, out),
            Action::Tell(notice) => {
                write_notice(self.alloc, out, notice)?;
                Ok(())
            }
        }
    }

    // Adds the answer to a line. Where memory ran out a batch may be left open.
    fn tell(&mut self, line: &[u8], out: &mut Vec<u8>) -> Result<(), ServerFault>
        ensures answered { kept.ActionAnswered (D.meaning self.old.desk) (D.meaning self.new.desk)
            (action_of self.old.batch (asked_by line.now)) out.old.items out.new.items result }
        ensures key { self.new.key ≡ self.old.key }
        ensures connections { self.new.connections ≡ self.old.connections }
        ensures batch { OnOk result
            (self.new.batch ≡ batch_after self.old.batch (asked_by line.now)) }
    {
        let asked = read_console(self.alloc, line)?;
        let action = self.batch.take(self.alloc, asked)?;
        self.act(action, out)
    }

    /// Adds the console's answer to a line, without its LF. Any bytes have one. Linear in the line
    /// and in what is added, but for what the desk takes.
    ///
    /// Where memory ran out nothing was added, and no batch is open afterwards, whatever the line
    /// was. The fault says whether the edits of the line were accepted: if they weren't, nothing
    /// else has changed.
    pub fn console(&mut self, line: &[u8], out: &mut Vec<u8>) -> Result<(), ServerFault>
        ensures answered { (state : servers.State) → kept.HasState D.meaning self.old state →
            kept.IsAnswered D.meaning out.old.items out.new.items self.new line.now state result }

        // No other answer is right.
        ensures only { (state : servers.State) → kept.HasState D.meaning self.old state →
            OnOk result (kept.IsOnlyAnswer D.meaning out.old.items out.new.items self.new
            line.now state) }

        // After all that happened before.
        ensures course { (start : servers.State) (events : List Happening) (outs : List Given)
            → course.HasRun D.meaning self.old start events outs → OnOk result (course.RunsOn
            D.meaning out.old.items out.new.items self.new start (Types line.now)
            events outs) }
    {
        if let Err(fault) = self.tell(line, out) {
            self.batch.abandon();
            return Err(fault);
        }
        Ok(())
    }
}

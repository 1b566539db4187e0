//! What a console writes to, where its edits are kept.

ghost use Rattle.std.specs.Prelude.{◌≡◌};

use crate::keeper::{Keeper, Store, Unkept, Untold, send_kept};
use crate::tray::Tray;
use std::io::{self, Write};

/// What standard error is told of a file that isn't kept: once when that begins, and once when it
/// is over.
#[derive(Drop)]
pub struct Complaint<'a, R> {
    rt: &'a R,
    path: &'a str,
    is_open: bool,
}

impl<'a, R: Eprint> Complaint<'a, R> {
    /// Nothing is to complain of yet.
    pub fn new(rt: &'a R, path: &'a str) -> Complaint<'a, R> {
        Complaint {
            rt,
            path,
            is_open: false,
        }
    }

    // Says that edits aren't kept. It doesn't matter whether that can be written.
    fn complain(&mut self, why: &Unkept) {
        if !self.is_open {
            let path = self.path;
            let _ = eprintln!(self.rt; "tacd: {path}: {why}; edits aren't kept");
        }
        self.is_open = true;
    }

    // Says that they are kept again.
    fn relent(&mut self) {
        if self.is_open {
            let path = self.path;
            let _ = eprintln!(self.rt; "tacd: {path}: edits are kept again");
        }
        self.is_open = false;
    }
}

/// What a console writes its answers to: each is written once what lies in the tray is held. Where
/// the store doesn't take it, a note comes before the answer to the line that put it there, and it
/// is tried again before each later answer.
///
/// An operator has to be answered while a disk is full: so the answer is written also where the
/// edit isn't kept.
pub struct KeptOutput<'a, R, S: Store, N, W> {
    tray: &'a Tray,
    keeper: Keeper<S>,
    complaint: Complaint<'a, R>,
    notes: N,
    answers: W,
}

// What isn't held yet is tried a last time.
impl<R, S: Store + Drop, N: Drop, W: Drop> Drop for KeptOutput<'_, R, S, N, W> {
    fn drop(self) {
        let KeptOutput {
            tray,
            mut keeper,
            complaint: _,
            notes: _,
            answers: _,
        } = self;
        look(tray, &mut keeper);
        let _ = keeper.settle();
    }
}

// Says to who made an edit that it isn't kept. It doesn't matter whether that can be written.
fn note<N: Write>(notes: &mut N, why: &Unkept) {
    let _ = writeln!(notes, "not kept: {why}");
}

// Whether something new lay in the tray, which the store is to hold now.
fn look<S: Store>(tray: &Tray, keeper: &mut Keeper<S>) -> bool
    ensures { keeper.new.store ≡ keeper.old.store }
{
    match tray.take() {
        Some(wanted) => {
            keeper.owe(wanted);
            true
        }
        None => false,
    }
}

impl<'a, R: Eprint, S: Store, N: Write, W: Write> KeptOutput<'a, R, S, N, W> {
    /// What writes to this, and notes to the other, which shows them before what is written next.
    pub fn new(
        tray: &'a Tray,
        store: S,
        complaint: Complaint<'a, R>,
        notes: N,
        answers: W,
    ) -> KeptOutput<'a, R, S, N, W> {
        KeptOutput {
            tray,
            keeper: Keeper::new(store),
            complaint,
            notes,
            answers,
        }
    }
}

impl<R: Eprint, S: Store, N: Write, W: Write> Write for KeptOutput<'_, R, S, N, W> {
    ghost contents = { λ output. W.contents output.answers };

    fn write(&mut self, buf: &[u8]) -> io::Result<usize> {
        let is_new = look(self.tray, &mut self.keeper);
        match send_kept(&mut self.keeper, &mut self.answers, buf) {
            Ok(taken) => {
                self.tray.note(true);
                self.complaint.relent();
                Ok(taken)
            }
            Err(Untold::Unwritten(error)) => Err(error),
            Err(Untold::NotKept(why)) => {
                self.tray.note(false);
                self.complaint.complain(&why);
                if is_new {
                    note(&mut self.notes, &why);
                }
                self.answers.write(buf)
            }
        }
    }

    fn flush(&mut self) -> io::Result<()> {
        self.answers.flush()
    }
}

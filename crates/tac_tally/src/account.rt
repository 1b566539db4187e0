//! The account of a user: what the user's records count up to so far.

ghost use Rattle.std.specs.Prelude.{◌≡◌, ◌^◌, ◌++◌, ◌∷◌, [], ℕ, Bool, List, false, length};
ghost use Rattle.std.specs.Prelude.{OnOk, OnErr};
ghost use Rattle.std.specs.List.{list_any};
ghost use Rattle.tac_tally.specs.Book.{Entry};
ghost use Rattle.tac_tally.specs.Tally.{tally_of, IsBelow};
ghost use Rattle.tac_tally.specs.Counting.{HoldsOpen, counted};
ghost use Rattle.tac_tally.specs.Accounts.{Stands, is_by};

use crate::tally::Tally;
use std::alloc::{AllocError, Global};
use std::collections::BTreeSet;
use tac_request::{AcctKind, Record};

// What is kept of one user's records.
pub(crate) struct Account {
    // the tally, but for the open tasks
    pub(crate) counts: Tally,
    // the names of the open tasks
    open_tasks: BTreeSet<Vec<u8>>,
    // where the records stand in the book
    pub(crate) places: Vec<usize>,
}

// By hand, so that a proof of an owner has one call at each exit, not a drop of each field.
impl Drop for Account {
    fn drop(self) {
        let Account {
            counts: _,
            open_tasks: _,
            places: _,
        } = self;
    }
}

// One more record of a user, whose open tasks the set holds.
fn turn(alloc: Global, open: &mut BTreeSet<Vec<u8>>, record: &Record) -> Result<(), AllocError>
    ensures ok { (entries : List Entry) (denied : Bool) → HoldsOpen record.now.user entries open.old
        → OnOk result (HoldsOpen record.now.user
        (entries ++ record { item = «record».now; denied = denied } ∷ []) open.new) }
    ensures err { (user : List ℕ) (entries : List Entry) → HoldsOpen user entries open.old
        → OnErr result (HoldsOpen user entries open.new) }
{
    match record.kind {
        AcctKind::Begin => {
            let task = Vec::from_slice(alloc, record.task.as_slice())?;
            open.insert(task)?;
            Ok(())
        }
        AcctKind::Stop => {
            open.remove(record.task.as_slice());
            Ok(())
        }
        AcctKind::Watch | AcctKind::Update => Ok(()),
    }
}

impl Account {
    // The account of a user without records.
    pub(crate) fn new(alloc: Global) -> Account
        ensures { (user : List ℕ) (entries : List Entry) → list_any (is_by user) entries ≡ false
            → Stands user entries result }
    {
        Account {
            counts: Tally::NONE,
            open_tasks: BTreeSet::new(alloc),
            places: Vec::new(alloc),
        }
    }

    // What the user's records count up to.
    pub(crate) fn tally(&self) -> Tally
        ensures value { (user : List ℕ) (entries : List Entry) → Stands user entries self.now
            → result ≡ tally_of user entries }
        ensures small { IsBelow (2 ^ 96) self.now.counts → IsBelow (2 ^ 96) result }
    {
        Tally {
            open_tasks: self.open_tasks.len() as u128,
            ..self.counts
        }
    }

    // One more record of the user, after all others in the book.
    pub(crate) fn enter(
        &mut self,
        alloc: Global,
        record: &Record,
        denied: bool,
        place: usize,
    ) -> Result<(), AllocError>
        requires { IsBelow (2 ^ 127) self.old.counts }
        ensures ok { (entries : List Entry) → length entries ≡ place
            → Stands «record».now.user entries self.old → OnOk result (Stands «record».now.user
            (entries ++ record { item = «record».now; denied = denied } ∷ []) self.new) }
        ensures err { (user : List ℕ) (entries : List Entry) → Stands user entries self.old
            → OnErr result (Stands user entries self.new) }
    {
        self.places.reserve(1)?;
        turn(alloc, &mut self.open_tasks, record)?;
        self.places.push_reserved(place);
        self.counts = self.counts.with_record(record, denied);
        Ok(())
    }
}

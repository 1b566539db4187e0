//! The book of records: storing them, and reading them.

ghost use Rattle.std.specs.Prelude.{◌≡◌, ◌↔◌, ◌<◌, ◌≤◌, ◌+◌, ◌++◌, List, [], ◌∷◌, length, drop};
ghost use Rattle.std.specs.Prelude.{Err, IsTrue, IfOk, OnOk, OnErr};
ghost use Rattle.tac_tally.specs.declared.book.StoreFault.TheVariants.{Full, Memory};
ghost use Rattle.tac_tally.specs.Book.{Entry, items, empty, AreLast, IsFull, with_entry};
ghost use Rattle.tac_tally.specs.Keeping.{refusing, goes, last_number};
ghost use Rattle.tac_tally.specs.Accounts.{Run, with_mark_at};

use crate::accounts::Accounts;
use crate::limit::RecordLimit;
use std::alloc::{AllocError, Global};
use std::marker::Model;
use tac_request::Record;

/// Why a record isn't stored.
#[derive(Clone, Copy, Debug, PartialEq, Eq)]
pub enum StoreFault {
    /// The book is at its limit and forgets nothing, or there is no number left for the record.
    Full,
    /// Memory ran out.
    Memory,
}

impl From<AllocError> for StoreFault {
    ghost from_gives = { λ _ fault. fault ≡ Memory };

    fn from(_error: AllocError) -> StoreFault {
        StoreFault::Memory
    }
}

/// Accounting records in the order in which they came, at most so many. Where one more comes, it is
/// refused, or the older half of the others is forgotten, as the limit says. Beside each stands its
/// mark: whether the present policy denies its line. What they count up to is kept for each user.
pub struct Book {
    pub(crate) records: Vec<Record>,
    // the records' marks, in the same order
    pub(crate) marks: Vec<bool>,
    // what is counted of each user
    pub(crate) accounts: Accounts,
    limit: RecordLimit,
    // how many came before the first of them
    forgotten: u64,
}

// By hand, so that a proof of an owner has one call at each exit, not a drop of each field.
impl Drop for Book {
    fn drop(self) {
        let Book {
            records: _,
            marks: _,
            accounts: _,
            limit: _,
            forgotten: _,
        } = self;
    }
}

impl Model for Book {
    ghost use Rattle.std.specs.Prelude.{◌≡◌, ◌≤◌, ◌+◌, length};
    ghost use Rattle.tac_tally.specs.Book.{Contents, beside};
    ghost use Rattle.tac_tally.specs.Keeping.{last_number};
    ghost use Rattle.tac_tally.specs.Accounts.{Run};

    ghost Value = { Contents };

    ghost view = { λ book. record {
      entries = beside book.records.items book.marks.items;
      limit = book.limit;
      forgotten = book.forgotten;
    } };

    ghost invariant = { λ book. (length book.marks.items ≡ length book.records.items)
        × (length book.records.items ≤ book.limit.most)
        × Run (beside book.records.items book.marks.items) book.accounts
        × (book.forgotten + length book.records.items ≤ last_number) };
}

impl Book {
    /// No records; there will be at most so many, and further ones are refused. Takes no memory.
    pub fn new(alloc: Global, limit: usize) -> Book
        ensures { result ≡ empty (refusing limit) }
    {
        Book::with_limit(alloc, RecordLimit::refusing(limit))
    }

    /// No records, and a limit to those that come. Takes no memory.
    pub fn with_limit(alloc: Global, limit: RecordLimit) -> Book
        ensures { result ≡ empty limit }
    {
        Book {
            records: Vec::new(alloc),
            marks: Vec::new(alloc),
            accounts: Accounts::new(alloc),
            limit,
            forgotten: 0,
        }
    }

    /// The records that are kept, in order.
    pub fn records(&self) -> &[Record]
        ensures { result.now ≡ items self.now.entries }
    {
        self.records.as_slice()
    }

    /// How many records are kept.
    pub fn len(&self) -> usize
        ensures many { result ≡ length self.now.entries }

        // A book never goes over its limit.
        ensures within { result ≤ self.now.limit.most }
    {
        self.records.len()
    }

    /// Whether no record is kept.
    pub fn is_empty(&self) -> bool
        ensures { IsTrue result ↔ (self.now.entries ≡ []) }
    {
        self.records.is_empty()
    }

    /// The most records that are kept, and what is done with one more.
    pub fn limit(&self) -> RecordLimit
        ensures { result ≡ self.now.limit }
    {
        self.limit
    }

    /// How many records were forgotten: the first that is kept has the number after that.
    pub fn forgotten(&self) -> u64
        ensures many { result ≡ self.now.forgotten }

        // No number is higher than the last that there is.
        ensures within { result + length self.now.entries ≤ last_number }
    {
        self.forgotten
    }

    /// Whether no further record can be stored: the book is at its limit and forgets nothing, or
    /// there is no number left.
    pub fn is_full(&self) -> bool
        ensures { IsTrue result ↔ IsFull self.now }
    {
        self.limit.is_full(self.forgotten, self.records.len())
    }

    // Stores a record after the others, where all of these stay.
    fn append(&mut self, record: Record, denied: bool) -> Result<(), AllocError>
        requires room { IsFull self.old → ⊥ }
        requires stay { goes self.old.limit (length self.old.entries) ≡ 0 }
        ensures ok { OnOk result (self.new ≡ with_entry «record» denied self.old) }
        ensures err { OnErr result (self.new ≡ self.old) }
    {
        self.records.reserve(1)?;
        self.marks.reserve(1)?;
        self.accounts.enter(&record, denied, self.records.len())?;
        self.records.push_reserved(record);
        self.marks.push_reserved(denied);
        Ok(())
    }

    // The accounts of all records but the first so many, and of one more. One look-up for each.
    fn accounts_after(
        &self,
        gone: usize,
        record: &Record,
        denied: bool,
    ) -> Result<Accounts, AllocError>
        requires { gone ≤ length self.now.entries }
        ensures { IfOk result (λ accounts. Run (drop gone self.now.entries
            ++ record { item = «record».now; denied = denied } ∷ []) accounts) }
    {
        let (_, records) = self.records.as_slice().split_at(gone);
        let (_, marks) = self.marks.as_slice().split_at(gone);
        let mut accounts = Accounts::of(self.accounts.alloc, records, marks)?;
        accounts.enter(record, denied, records.len())?;
        Ok(accounts)
    }

    // Stores a record after the others, where the oldest go, so many. They leave room for it.
    fn append_after(&mut self, gone: usize, record: Record, denied: bool) -> Result<(), AllocError>
        requires room { IsFull self.old → ⊥ }
        requires some { 0 < gone }
        requires go { gone ≡ goes self.old.limit (length self.old.entries) }
        ensures ok { OnOk result (self.new ≡ with_entry «record» denied self.old) }
        ensures err { OnErr result (self.new ≡ self.old) }
    {
        let accounts = self.accounts_after(gone, &record, denied)?;
        drop(self.records.drain(..gone));
        drop(self.marks.drain(..gone));
        self.accounts = accounts;
        self.forgotten += gone as u64;
        self.records.push_reserved(record);
        self.marks.push_reserved(denied);
        Ok(())
    }

    /// Stores a record after the others, with its mark: whether the present policy denies its
    /// line, false where it has none. A repeat is another record. Where the book is at its limit
    /// and forgets, the older half of the others goes. A look-up of its user, and for one that
    /// begins or ends a task a look-up among the user's open tasks; where records go, as much for
    /// each that stays.
    pub fn store(&mut self, record: Record, denied: bool) -> Result<(), StoreFault>
        ensures ok { OnOk result (self.new ≡ with_entry «record» denied self.old) }

        // What is kept are the last of all that came, whatever was forgotten.
        ensures last { let entry : Entry = record { item = «record»; denied = denied } in
            (all : List Entry) → AreLast self.old all →
            OnOk result (AreLast self.new (all ++ entry ∷ [])) }

        // The limit comes first: memory runs out only for a book with room.
        ensures full { (result ≡ Err Full) ↔ IsFull self.old }

        // A refused store changes nothing.
        ensures err { OnErr result (self.new ≡ self.old) }
    {
        if self.is_full() {
            return Err(StoreFault::Full);
        }
        match self.limit().goes(self.len()) {
            0 => self.append(record, denied)?,
            gone => self.append_after(gone, record, denied)?,
        }
        Ok(())
    }

    // Gives the record at the place another mark.
    pub(crate) fn put_mark(&mut self, place: usize, denied: bool)
        requires { place < length self.old.entries }
        ensures { self.new
            ≡ record self.old { entries = with_mark_at place denied self.old.entries } }
    {
        let was = self.marks[place];
        self.accounts.remark(&self.records[place], was, denied);
        self.marks[place] = denied;
    }
}

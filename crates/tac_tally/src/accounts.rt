//! The accounts of all users that have records, by name.

ghost use Rattle.std.specs.Prelude.{◌≡◌, ◌^◌, ◌<◌, ◌++◌, ◌∷◌, [], ℕ, Bool, List, Some};
ghost use Rattle.std.specs.Prelude.{length, slice_get, IfOk, OnOk, OnErr};
ghost use Rattle.std.specs.Option.{option_copied};
ghost use Rattle.tac_tally.specs.Book.{Entry, beside};
ghost use Rattle.tac_tally.specs.Accounts.{Run, account_of, with_mark_at};

use crate::account::Account;
use std::alloc::{AllocError, Global};
use std::collections::BTreeMap;
use tac_request::Record;

// The accounts, each under its user's name.
#[derive(Drop)]
pub(crate) struct Accounts {
    pub(crate) alloc: Global,
    by_user: BTreeMap<Vec<u8>, Account>,
}

impl Accounts {
    // No accounts. Takes no memory.
    pub(crate) fn new(alloc: Global) -> Accounts
        ensures { Run [] result }
    {
        Accounts {
            alloc,
            by_user: BTreeMap::new(alloc),
        }
    }

    // The accounts of these records alone, by their marks. One look-up for each.
    pub(crate) fn of(
        alloc: Global,
        records: &[Record],
        marks: &[bool],
    ) -> Result<Accounts, AllocError>
        requires { length marks.now ≡ length records.now }
        ensures { IfOk result (λ accounts. Run (beside records.now marks.now) accounts) }
    {
        let mut accounts = Accounts::new(alloc);
        'records: for (place, record) in records.iter().enumerate() {
            accounts.enter(record, marks[place], place)?;
        }
        Ok(accounts)
    }

    // The account of the user. One look-up.
    pub(crate) fn get(&self, user: &[u8]) -> Option<&Account>
        ensures { option_copied result ≡ account_of self.now.by_user user.now }
    {
        self.by_user.get(user)
    }

    // Counts one more record, after all others in the book. One look-up.
    pub(crate) fn enter(
        &mut self,
        record: &Record,
        denied: bool,
        place: usize,
    ) -> Result<(), AllocError>
        requires { (entries : List Entry) × Run entries self.old × (length entries ≡ place) }
        ensures ok { (entries : List Entry) → length entries ≡ place → Run entries self.old
            → OnOk result (Run
            (entries ++ record { item = «record».now; denied = denied } ∷ []) self.new) }
        ensures err { (entries : List Entry) → Run entries self.old
            → OnErr result (Run entries self.new) }
    {
        let user = record.user.as_slice();
        if let Some(account) = self.by_user.get_mut(user) {
            return account.enter(self.alloc, record, denied, place);
        }
        let mut account = Account::new(self.alloc);
        account.enter(self.alloc, record, denied, place)?;
        let name = Vec::from_slice(self.alloc, user)?;
        self.by_user.insert(name, account)?;
        Ok(())
    }

    // Counts a record by another mark from now on. One look-up.
    pub(crate) fn remark(&mut self, record: &Record, was: bool, denied: bool)
        requires { (entries : List Entry) × (place : ℕ) × Run entries self.old
            × (length entries < 2 ^ 64)
            × (slice_get entries place ≡ Some (record { item = «record».now; denied = was })) }
        ensures { (entries : List Entry) (place : ℕ)
            → slice_get entries place ≡ Some (record { item = «record».now; denied = was })
            → Run entries self.old → Run (with_mark_at place denied entries) self.new }
    {
        let Some(account) = self.by_user.get_mut(record.user.as_slice()) else {
            return;
        };
        account.counts = account.counts.with_mark(record, was, denied);
    }
}

//! How many records are kept, and what is done with one more.

ghost use Rattle.std.specs.Prelude.{◌≡◌, ◌+◌, ◌≤◌};
ghost use Rattle.tac_tally.specs.Keeping as keeping;

/// What is done with a record that comes where as many are kept as may be.
#[derive(Clone, Copy, Debug, PartialEq, Eq)]
pub enum AtLimit {
    /// It isn't stored.
    Refuse,
    /// It is stored, and the older half of the others is forgotten.
    Forget,
}

/// The most records that are kept, and what is done with one more.
#[derive(Clone, Copy, Debug, PartialEq, Eq)]
pub struct RecordLimit {
    pub most: usize,
    pub at_limit: AtLimit,
}

impl RecordLimit {
    /// So many records are kept, and no further one is stored.
    pub const fn refusing(most: usize) -> RecordLimit
        ensures { result ≡ keeping.refusing most }
    {
        RecordLimit {
            most,
            at_limit: AtLimit::Refuse,
        }
    }

    /// So many records are kept at most: where one more comes, the older half of them goes. A limit
    /// of none stores none.
    pub const fn forgetting(most: usize) -> RecordLimit
        ensures { result ≡ keeping.forgetting most }
    {
        RecordLimit {
            most,
            at_limit: AtLimit::Forget,
        }
    }

    // How many of so many records go before one more is stored.
    pub(crate) fn goes(&self, many: usize) -> usize
        ensures { result ≡ keeping.goes self.now many }
    {
        if many != self.most {
            return 0;
        }
        match self.at_limit {
            AtLimit::Refuse => 0,
            AtLimit::Forget => self.most - self.most / 2,
        }
    }

    // Whether no further record is stored where so many were forgotten and so many are kept.
    pub(crate) fn is_full(&self, forgotten: u64, many: usize) -> bool
        requires { forgotten + many ≤ keeping.last_number }
        ensures { result ≡ keeping.is_full self.now forgotten many }
    {
        let stays_full = many == self.most && self.goes(many) == 0;
        stays_full || u64::MAX - forgotten == many as u64
    }
}

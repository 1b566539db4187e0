//! How many records a desk keeps.

ghost use Rattle.std.specs.Prelude.{◌≡◌};
ghost use Rattle.tac_tally.specs.Keeping as keeping;
ghost use Rattle.tac_watch.specs.Filling as filling;

use tac_tally::{AtLimit, RecordLimit};

/// What an operator is told of records that fill up.
#[derive(Clone, Copy, Debug, PartialEq, Eq)]
pub enum Fullness {
    /// Nine tenths of the records that there may be are stored.
    NearlyFull,
    /// All of them are, and no further one will be.
    Full,
}

/// How many records a desk keeps, counted as they are stored, and its limit to them.
#[derive(Clone, Copy, Debug, PartialEq, Eq)]
pub struct Gauge {
    limit: RecordLimit,
    kept: usize,
}

impl Gauge {
    /// The gauge of a desk without records.
    pub fn new(limit: RecordLimit) -> Gauge
        ensures { result ≡ filling.empty limit }
    {
        Gauge { limit, kept: 0 }
    }

    // How many go before one more is stored.
    fn goes(self) -> usize
        ensures { result ≡ keeping.goes self.limit self.kept }
    {
        let RecordLimit { most, at_limit } = self.limit;
        if self.kept != most {
            return 0;
        }
        match at_limit {
            AtLimit::Refuse => 0,
            AtLimit::Forget => most - most / 2,
        }
    }

    /// One more record was stored.
    pub fn count(&mut self)
        ensures { self.new ≡ filling.counted self.old }
    {
        let goes = self.goes();
        self.kept = self.kept.saturating_sub(goes).saturating_add(1);
    }

    /// How many records are kept.
    pub fn kept(self) -> usize
        ensures { result ≡ self.kept }
    {
        self.kept
    }

    /// The most that may be.
    pub fn most(self) -> usize
        ensures { result ≡ self.limit.most }
    {
        self.limit.most
    }

    /// What an operator is to be told once the last record was stored. Where the limit forgets,
    /// there is nothing to tell.
    pub fn fullness(self) -> Option<Fullness>
        ensures { result ≡ filling.said self }
    {
        let RecordLimit { most, at_limit } = self.limit;
        match at_limit {
            AtLimit::Forget => None,
            AtLimit::Refuse if self.kept == most => Some(Fullness::Full),
            AtLimit::Refuse if self.kept == most - most / 10 => Some(Fullness::NearlyFull),
            AtLimit::Refuse => None,
        }
    }
}

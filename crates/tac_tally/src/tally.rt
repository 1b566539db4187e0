//! A tally: the numbers that a user's records, or those of a group's users, count up to.

ghost use Rattle.std.specs.Prelude.{◌≡◌, ◌+◌, ◌^◌, ◌≤◌, ◌<◌, ℕ};
ghost use Rattle.tac_tally.specs.Tally.{IsBelow, plus};
ghost use Rattle.tac_tally.specs.Counting.{counted, drift_of, recounted};

use tac_request::{AcctKind, Record};

/// What records count up to.
#[derive(Clone, Copy, Debug, PartialEq, Eq)]
pub struct Tally {
    /// Records that begin a task.
    pub starts: u128,
    /// Records that end a task.
    pub stops: u128,
    /// Records of a task that goes on, without an update.
    pub watchdogs: u128,
    /// Records of a task that goes on, with an update.
    pub updates: u128,
    /// Tasks that were begun, and not ended since.
    pub open_tasks: u128,
    /// The seconds that records of the end of a task tell.
    pub elapsed: u128,
    /// Records that end a task, of a line that the present policy denies.
    pub drift: u128,
}

impl Tally {
    pub(crate) const NONE: Tally = Tally {
        starts: 0,
        stops: 0,
        watchdogs: 0,
        updates: 0,
        open_tasks: 0,
        elapsed: 0,
        drift: 0,
    };

    // The tally with one more record, except for its open tasks.
    pub(crate) fn with_record(self, record: &Record, denied: bool) -> Tally
        requires { IsBelow (2 ^ 127) self }
        ensures value { result ≡ counted record.now denied self }
        ensures grows { (n : ℕ) → IsBelow n self → IsBelow (n + 2 ^ 32) result }
    {
        let mut tally = self;
        match record.kind {
            AcctKind::Begin => tally.starts += 1,
            AcctKind::Stop => {
                let seconds = record.elapsed;
                tally.stops += 1;
                tally.elapsed += u128::from(seconds);
                if denied && record.line.is_some() {
                    tally.drift += 1;
                }
            }
            AcctKind::Watch => tally.watchdogs += 1,
            AcctKind::Update => tally.updates += 1,
        }
        tally
    }

    // The tally where a record's mark was the one, and is the other.
    pub(crate) fn with_mark(self, record: &Record, was: bool, denied: bool) -> Tally
        requires below { self.drift < 2 ^ 127 }
        requires counts { drift_of record.now was ≤ self.drift }
        ensures { result ≡ recounted record.now was denied self }
    {
        let mut tally = self;
        if record.kind == AcctKind::Stop && record.line.is_some() {
            tally.drift += u128::from(denied);
            tally.drift -= u128::from(was);
        }
        tally
    }

    // The sum of two tallies.
    pub(crate) fn plus(self, other: Tally) -> Tally
        requires left { IsBelow (2 ^ 127) self }
        requires right { IsBelow (2 ^ 127) other }
        ensures { result ≡ plus self other }
    {
        Tally {
            starts: self.starts + other.starts,
            stops: self.stops + other.stops,
            watchdogs: self.watchdogs + other.watchdogs,
            updates: self.updates + other.updates,
            open_tasks: self.open_tasks + other.open_tasks,
            elapsed: self.elapsed + other.elapsed,
            drift: self.drift + other.drift,
        }
    }
}

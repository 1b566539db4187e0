//! What a desk represents, as a value of its own.

ghost use Rattle.std.specs.Prelude.{◌≡◌, ◌↔◌, IsTrue};

use basics::{Sequence, StructuralEq};
use pol_text::Policy;
use std::marker::Model;
use tac_tally::{Record, RecordLimit};

/// What a desk represents, apart from the desk. A contract sees that meaning.
pub struct State {
    pub policy: Policy,
    /// The accepted records that are kept, in the order in which they came.
    pub records: Sequence<Record>,
    /// The most that are kept, and what is done with one more.
    pub record_limit: RecordLimit,
    /// How many were forgotten.
    pub forgotten: u64,
}

// By hand, so that a proof of an owner has one call at each exit, not a drop of each field.
impl Drop for State {
    fn drop(self) {
        let State {
            policy: _,
            records: _,
            record_limit: _,
            forgotten: _,
        } = self;
    }
}

impl Model for State {
    ghost use Rattle.tac_desk.specs.Meaning.{Meaning};

    ghost Value = { Meaning };

    ghost view = { λ state. record {
      policy = state.policy;
      records = state.records;
      limit = state.record_limit;
      forgotten = state.forgotten;
    } };
}

impl State {
    /// Whether the two are the same.
    pub fn same(&self, other: &State) -> bool
        ensures { IsTrue result ↔ (self.now ≡ other.now) }
    {
        self.policy.same(&other.policy)
            && self.records.same(&other.records)
            && self.record_limit == other.record_limit
            && self.forgotten == other.forgotten
    }
}

//! Who counts what becomes of a desk.

use crate::desk_counts::DeskCounts;
use pol_text::Policy;
use tac_watch::{Gauge, Watch};

/// Counts what a desk has, and how often it was changed, where other threads can read it.
#[derive(Drop)]
pub struct CountingWatch<'a> {
    counts: &'a DeskCounts,
}

impl<'a> CountingWatch<'a> {
    /// One of a desk that has this policy at first, and no records.
    pub fn new(counts: &'a DeskCounts, policy: &Policy) -> CountingWatch<'a> {
        counts.see(policy);
        CountingWatch { counts }
    }
}

impl Watch for CountingWatch<'_> {
    // what several threads count is in no contract
    ghost sees = { λ _ _ _. Unit {0} };

    fn stored(&mut self, gauge: Gauge) {
        self.counts.keep(gauge.kept() as u64);
    }

    fn edited(&mut self, policy: &Policy, edits: usize) {
        self.counts.edit(edits as u64);
        self.counts.see(policy);
    }

    fn loaded(&mut self, policy: &Policy) {
        self.counts.reload();
        self.counts.see(policy);
    }

    fn questioned(&mut self, _policy: &Policy) {}
}

//! What a desk has, and how often it was changed.

ghost use Rattle.std.specs.Prelude.{◌≡◌, ◌-◌, ◌^◌, min};
ghost use Rattle.tac_status.specs.Counting as counting;

use crate::counts::Count;
use pol_text::Policy;

/// What the desk of a server has, and how often it was changed since the server began.
#[derive(Drop)]
pub struct DeskCounts {
    subjects: Count,
    rules: Count,
    records: Count,
    edits: Count,
    reloads: Count,
}

// How many rules a policy has, as far as 64 bits count.
fn rules_of(policy: &Policy) -> u64
    ensures { result ≡ min (counting.rules_of policy.now) (2 ^ 64 - 1) }
{
    let mut rules = 0_u64;
    'subjects: for subject in policy.subjects() {
        rules = rules.saturating_add(subject.rules.len() as u64);
    }
    rules
}

impl DeskCounts {
    pub(crate) fn new() -> DeskCounts {
        DeskCounts {
            subjects: Count::new(),
            rules: Count::new(),
            records: Count::new(),
            edits: Count::new(),
            reloads: Count::new(),
        }
    }

    // The desk has this policy now.
    pub(crate) fn see(&self, policy: &Policy) {
        self.subjects.set(policy.len() as u64);
        self.rules.set(rules_of(policy));
    }

    // It keeps so many records now.
    pub(crate) fn keep(&self, records: u64) {
        self.records.set(records);
    }

    // So many edits were made.
    pub(crate) fn edit(&self, edits: u64) {
        self.edits.add(edits);
    }

    // Another policy took the place of the one before.
    pub(crate) fn reload(&self) {
        self.reloads.add(1);
    }

    /// How many subjects its policy has.
    pub fn subjects(&self) -> u64 {
        self.subjects.get()
    }

    /// How many rules these have of their own.
    pub fn rules(&self) -> u64 {
        self.rules.get()
    }

    /// How many records it keeps.
    pub fn records(&self) -> u64 {
        self.records.get()
    }

    /// How many edits were made. Each of a batch counts.
    pub fn edits(&self) -> u64 {
        self.edits.get()
    }

    /// How often another policy took the place of the one before.
    pub fn reloads(&self) -> u64 {
        self.reloads.get()
    }
}

//! Who watches a desk.

use crate::gauge::Gauge;
use pol_text::Policy;

/// Who is told what becomes of a desk, within the call that it comes of. Two who watch are one.
pub trait Watch: Drop {
    ghost use Rattle.tac_watch.specs.Watching.{Seen, stored, edited, loaded, questioned};

    /// It may be so after it was told this.
    ghost sees: { Self → Seen → Self → Type 0 };

    /// A record was stored. The gauge says how many are kept now.
    fn stored(&mut self, gauge: Gauge)
        ensures { sees self.old (stored gauge) self.new };

    /// So many edits were made together, and this is the policy with them.
    fn edited(&mut self, policy: &Policy, edits: usize)
        ensures { sees self.old (edited policy.now edits) self.new };

    /// This policy took the place of the one before.
    fn loaded(&mut self, policy: &Policy)
        ensures { sees self.old (loaded policy.now) self.new };

    /// A question is asked, and this is the policy.
    fn questioned(&mut self, policy: &Policy)
        ensures { sees self.old (questioned policy.now) self.new };
}

impl<A: Watch, B: Watch> Watch for (A, B) {
    ghost sees = { λ was seen now. A.sees was.0 seen now.0 × B.sees was.1 seen now.1 };

    fn stored(&mut self, gauge: Gauge) {
        self.0.stored(gauge);
        self.1.stored(gauge);
    }

    fn edited(&mut self, policy: &Policy, edits: usize) {
        self.0.edited(policy, edits);
        self.1.edited(policy, edits);
    }

    fn loaded(&mut self, policy: &Policy) {
        self.0.loaded(policy);
        self.1.loaded(policy);
    }

    fn questioned(&mut self, policy: &Policy) {
        self.0.questioned(policy);
        self.1.questioned(policy);
    }
}

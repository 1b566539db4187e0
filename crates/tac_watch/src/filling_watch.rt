//! Who says that records fill up.

ghost use Rattle.std.specs.Prelude.{◌≡◌};

use crate::gauge::{Fullness, Gauge};
use crate::watch::Watch;
use pol_text::Policy;

/// Tells standard error when nine tenths of the records that a desk may keep are stored, and when
/// all are, where its limit refuses more. That is said during the call that stores the record,
/// before it is answered: so the host is one whose standard error nobody waits for. What can't be
/// said makes no difference.
#[derive(Drop)]
pub struct FillingWatch<'a, R> {
    rt: &'a R,
}

impl<'a, R: Eprint> FillingWatch<'a, R> {
    /// One that tells this host's.
    pub fn new(rt: &'a R) -> FillingWatch<'a, R> {
        FillingWatch { rt }
    }
}

impl<R: Eprint> Watch for FillingWatch<'_, R> {
    // what it says is in no contract
    ghost sees = { λ was seen now. now ≡ was };

    fn stored(&mut self, gauge: Gauge) {
        let Some(fullness) = gauge.fullness() else {
            return;
        };
        let stored = gauge.kept();
        let most = gauge.most();
        let _ = match fullness {
            Fullness::NearlyFull => eprintln!(self.rt;
                "tacd: {stored} of at most {most} records are stored; once all are, accounting is \
                 answered 'records full'. --keep-records N keeps the latest instead"
            ),
            Fullness::Full => eprintln!(self.rt;
                "tacd: all {stored} records are stored: accounting is answered 'records full' \
                 until a restart. --keep-records N keeps the latest instead"
            ),
        };
    }

    fn edited(&mut self, _policy: &Policy, _edits: usize) {}

    fn loaded(&mut self, _policy: &Policy) {}

    fn questioned(&mut self, _policy: &Policy) {}
}

//! What was found to differ, for all who share an automaton.

ghost use Rattle.std.specs.Prelude.{◌≡◌, List, IfSome, OnOk};
ghost use Rattle.pol_text.specs.declared.subject.Subject.{Subject as SubjectValue};
ghost use Rattle.pol_report.specs.Sharing.{IsDifference, AreKnown, along_at};

use crate::difference::Difference;
use std::alloc::{AllocError, Global};
use std::collections::BTreeMap;

/// What was found to differ between two policies, by where the keepers in the old one and in the
/// new one stand, if there are any. Those with one keeper now may have had several before.
#[derive(Drop)]
pub(crate) struct Differences {
    by_keepers: BTreeMap<(Option<usize>, Option<usize>), Difference>,
}

impl Differences {
    /// Nothing was found yet. Takes no memory.
    pub(crate) fn new(alloc: Global) -> Differences
        ensures { (before after : List SubjectValue) → AreKnown before after result.by_keepers }
    {
        Differences {
            by_keepers: BTreeMap::new(alloc),
        }
    }

    /// What differs for those who had and have their rules by these keepers, if it was found. The
    /// number of look-ups is logarithmic in how much was found.
    pub(crate) fn find(
        &self,
        keeper_before: Option<usize>,
        keeper_after: Option<usize>,
    ) -> Option<&Difference>
        ensures { (before after : List SubjectValue) → AreKnown before after self.now.by_keepers
            → IfSome result (λ difference. IsDifference
            (along_at before keeper_before) (along_at after keeper_after) difference.now) }
    {
        self.by_keepers.get(&(keeper_before, keeper_after))
    }

    /// Keeps what was found to differ for them.
    pub(crate) fn remember(
        &mut self,
        keeper_before: Option<usize>,
        keeper_after: Option<usize>,
        difference: Difference,
    ) -> Result<(), AllocError>
        ensures { (before after : List SubjectValue) → AreKnown before after self.old.by_keepers
            → IsDifference (along_at before keeper_before)
            (along_at after keeper_after) difference
            → OnOk result (AreKnown before after self.new.by_keepers) }
    {
        self.by_keepers
            .insert((keeper_before, keeper_after), difference)?;
        Ok(())
    }
}

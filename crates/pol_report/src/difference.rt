//! What two lists of rules decide otherwise.

ghost use Rattle.std.specs.Prelude.{◌≡◌, ◌++◌, ◌∷◌, [], filter, IfOk, OnOk};
ghost use Rattle.pol_automaton.specs.Automaton.{IsDecider};
ghost use Rattle.pol_automaton.specs.Decision.{Ruling, IsChanged};
ghost use Rattle.pol_automaton.specs.declared.way.Way.TheVariants.{NowPermitted, NowDenied};
ghost use Rattle.pol_meaning.specs.Reach.{IsLeastIfAny};
ghost use Rattle.pol_meaning.specs.LineChanges.{is_change as change_test};

use crate::Changed;
use crate::line::{copied, line_of};
use basics::{Bytes, Sequence};
use pol_automaton::{Decider, Way};
use pol_names::{Name, Verdict};
use std::alloc::{AllocError, Global};

/// What differs for those who had the rules along one chain, and have those along another.
pub(crate) struct Difference {
    /// The least line that is permitted now and was denied before, if there is one.
    pub(crate) permits: Option<Bytes>,
    /// The least line that is denied now and was permitted before, if there is one.
    pub(crate) denies: Option<Bytes>,
}

// By hand, so that a proof of an owner has one call at each exit, not a drop of each field.
impl Drop for Difference {
    fn drop(self) {
        let Difference {
            permits: _,
            denies: _,
        } = self;
    }
}

impl Difference {
    /// What differs between the old rules' automaton and verdicts and the new ones': the least
    /// lines of each kind, by length and then by bytes. Two searches over the pairs of the two
    /// automata's states.
    pub(crate) fn between(
        alloc: Global,
        old: &Decider,
        old_verdicts: &[Verdict],
        new: &Decider,
        new_verdicts: &[Verdict],
    ) -> Result<Difference, AllocError>
        ensures permits { (before after : Ruling) → IsDecider old.now before.entries
            → IsDecider new.now after.entries → before.verdicts ≡ old_verdicts.now
            → after.verdicts ≡ new_verdicts.now → IfOk result (λ difference.
            IsLeastIfAny (IsChanged before after NowPermitted) difference.permits) }
        ensures denies { (before after : Ruling) → IsDecider old.now before.entries
            → IsDecider new.now after.entries → before.verdicts ≡ old_verdicts.now
            → after.verdicts ≡ new_verdicts.now → IfOk result (λ difference.
            IsLeastIfAny (IsChanged before after NowDenied) difference.denies) }
    {
        let permits = Decider::differ(
            alloc,
            old,
            old_verdicts,
            new,
            new_verdicts,
            Way::NowPermitted,
        )?;
        let denies = Decider::differ(alloc, old, old_verdicts, new, new_verdicts, Way::NowDenied)?;
        Ok(Difference {
            permits: line_of(permits),
            denies: line_of(denies),
        })
    }

    /// Lists what changes for a user for whom this differs, if anything does.
    pub(crate) fn list_for(
        &self,
        alloc: Global,
        changes: &mut Sequence<Changed>,
        user: Name,
    ) -> Result<(), AllocError>
        ensures { OnOk result (changes.new ≡ changes.old ++ filter change_test (record
            { user = user; permits = self.now.permits; denies = self.now.denies } ∷ [])) }
    {
        if self.permits.is_some() || self.denies.is_some() {
            let permits = copied(alloc, &self.permits)?;
            let denies = copied(alloc, &self.denies)?;
            changes
                .push(Changed {
                    user,
                    permits,
                    denies,
                })
                .map_err(|_| AllocError)?;
        }
        Ok(())
    }
}

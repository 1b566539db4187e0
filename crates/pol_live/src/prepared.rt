//! Changes of a policy that are ready to be made.

ghost use Rattle.std.specs.Prelude.{◌≡◌, ◌≤◌, ◌↔◌, List, ◌∷◌, [], Err, IsTrue, IfOk, OnErr};
ghost use Rattle.std.specs.Option.{option_copied, option_map};
ghost use Rattle.pol_pattern.specs.Matching.{MatchLaw};
ghost use Rattle.pol_text.specs.Policy.{find_subject, decide, entries};
ghost use Rattle.pol_text.specs.declared.subject.Subject.{Subject as SubjectValue};
ghost use Rattle.pol_edit.specs.declared.fault.EditFault.TheVariants.{NoSuch};
ghost use Rattle.pol_edit.specs.Applying.{applied, is_memory};
ghost use Rattle.pol_edit.specs.Batches.{ran_out, of_edit, IsFirstMissing};
ghost use Rattle.pol_meaning.specs.Sizes.{IsSmall};
ghost use Rattle.pol_live.specs.Refusing.{is_memory as built_without_memory};
ghost use Rattle.pol_live.specs.Rise.{IsEditRise, IsReplacingRise, IsOne, Rises};
ghost use Rattle.pol_live.specs.Live.{Prepares, IsOnlyPrepared, IsDeciderFor};
ghost use Rattle.pol_live.specs.Live.{PreparesAll, IsOnlyPreparedAll};
ghost use Rattle.pol_live.specs.Live.{Replaces, IsOnlyReplaced};
ghost use Rattle.pol_meaning.specs.Memory.{UnlessMemory};

use crate::fault::BuildFault;
use crate::live::Live;
use crate::staying::sharing;
use crate::touching::{has_on_chain, touched_between, touched_by};
use basics::{Sequence, StructuralEq};
use pol_automaton::{Decider, Meter};
use pol_edit::{BatchFault, Edit, EditFault, edited};
use pol_names::{Decision, Name, SubjectId};
use pol_text::Policy;
use std::alloc::Global;
use std::marker::Model;
use std::slice;

/// Edits that were judged, with all that making them takes. A contract sees the policy that they
/// were prepared on, and the one that they make.
pub struct Prepared {
    before: Policy,
    after: Live,
    // one of them must be on a subject's chain for its rules to have changed
    touched: Sequence<SubjectId>,
}

// By hand, so that a proof of an owner has one call at each exit, not a drop of each field.
impl Drop for Prepared {
    fn drop(self) {
        let Prepared {
            before: _,
            after: _,
            touched: _,
        } = self;
    }
}

impl Model for Prepared {
    ghost use Rattle.pol_live.specs.Live.{Step};
    ghost use Rattle.pol_live.specs.Renewing.{LeavesOthers};

    ghost Value = { Step };

    ghost view = { λ prepared. record { before = prepared.before; after = prepared.after } };

    ghost invariant = { λ prepared.
        LeavesOthers prepared.touched prepared.before prepared.after };
}

impl Live {
    // Another policy with its automata, beside the present one.
    fn prepare_other(
        &self,
        alloc: Global,
        policy: Policy,
        meter: &mut Meter,
    ) -> Result<Prepared, BuildFault>
        ensures found { UnlessMemory built_without_memory result
            (Replaces self.now policy result) }
        ensures rises { IfOk result (λ prepared.
            Rises (IsReplacingRise self.now prepared.after) meter.old.total meter.new.total) }
        ensures kept { OnErr result (meter.old.total ≤ meter.new.total) }
    {
        let before = self.policy().copy(alloc)?;
        let touched = touched_between(alloc, self.policy(), &policy)?;
        let shared = sharing(alloc, self.policy(), &touched, policy)?;
        let after = self.renewed(alloc, &touched, shared, meter)?;
        Ok(Prepared {
            before,
            after,
            touched: touched.all,
        })
    }

    /// Makes another policy ready to take the place of this one, and changes nothing. Refused where
    /// one of its subjects has too many residuals, with the first such subject in its order.
    /// Automata that stay right are shared with it: where a subject is new, or has other rules than
    /// before or another group, those along the chains with it are built, and its own. Patterns of
    /// subjects whose rules stayed the same are shared too. So it costs what the edits between the
    /// two policies would, and so does dropping this one once the other has its place.
    ///
    /// Beside these automata it takes a copy of the present policy, two look-ups for each subject
    /// and for each rule, a comparison of each subject's rules, and for each subject on each chain
    /// a comparison of names with each subject that differs: some ten million comparisons at most.
    pub fn prepare_policy(
        &self,
        alloc: Global,
        policy: Policy,
        meter: &mut Meter,
    ) -> Result<Prepared, BuildFault>
        ensures found { UnlessMemory built_without_memory result
            (Replaces self.now policy result) }
        ensures only { UnlessMemory built_without_memory result
            (IsOnlyReplaced self.now policy result) }

        // The meter rises by the residuals of each automaton that is made.
        ensures rises { IfOk result (λ prepared.
            Rises (IsReplacingRise self.now prepared.after) meter.old.total meter.new.total) }
        ensures one_rise { (policy : List SubjectValue) → IsOne (IsReplacingRise self.now policy) }
        ensures kept { OnErr result (meter.old.total ≤ meter.new.total) }
    {
        self.prepare_other(alloc, policy, meter)
    }

    /// Makes an edit ready, and changes nothing. Refused as the edit is, and where a subject of the
    /// new policy has too many residuals, with the first such subject in its order. Automata that
    /// the edit leaves right are shared with it: where it changes a subject's rules or group, those
    /// along the chains with this subject are built, and its own.
    pub fn prepare(
        &self,
        alloc: Global,
        edit: &Edit,
        meter: &mut Meter,
    ) -> Result<Prepared, EditFault>
        ensures found { UnlessMemory is_memory result (Prepares self.now edit.now result) }
        ensures only { UnlessMemory is_memory result (IsOnlyPrepared self.now edit.now result) }

        // An edit of what isn't there is refused so, and takes no memory.
        ensures sure { applied self.now edit.now ≡ Err NoSuch → result ≡ Err NoSuch }

        // The meter rises by the residuals of each automaton that the edit makes anew.
        ensures rises { IfOk result (λ prepared.
            Rises (IsEditRise (edit.now ∷ []) prepared.after) meter.old.total meter.new.total) }
        ensures one_rise { (policy : List SubjectValue) → IsOne (IsEditRise (edit.now ∷ []) policy) }
        ensures kept { OnErr result (meter.old.total ≤ meter.new.total) }
    {
        self.prepare_all(alloc, slice::from_ref(edit), meter)
            .map_err(|fault| fault.fault)
    }

    /// Makes several edits ready as one change, and changes nothing. Each is applied to the policy
    /// that those before it make, and the first that is refused decides. Sizes are judged on the
    /// last policy alone, as for a single edit. Automata that the edits leave right are shared, and
    /// each of the others is built once.
    ///
    /// Beside the edits and the automata that are built, it takes two copies of the policy, and for
    /// each subject on each chain a look-up and a comparison of names with each edit: half a
    /// million comparisons at most for 64 edits.
    pub fn prepare_all(
        &self,
        alloc: Global,
        edits: &[Edit],
        meter: &mut Meter,
    ) -> Result<Prepared, BatchFault>
        ensures found { UnlessMemory ran_out result (PreparesAll self.now edits.now result) }
        ensures only { UnlessMemory ran_out result (IsOnlyPreparedAll self.now edits.now result) }

        // A first edit of what isn't there is refused so, and takes no memory.
        ensures sure { IsFirstMissing self.now edits.now → result ≡ Err (of_edit 1 NoSuch) }

        // The meter rises by the residuals of each automaton that the edits together make anew.
        ensures rises { IfOk result (λ prepared.
            Rises (IsEditRise edits.now prepared.after) meter.old.total meter.new.total) }
        ensures one_rise { (policy : List SubjectValue) → IsOne (IsEditRise edits.now policy) }
        ensures kept { OnErr result (meter.old.total ≤ meter.new.total) }
    {
        self.prepare_edits(alloc, edits, meter)
    }

    fn prepare_edits(
        &self,
        alloc: Global,
        edits: &[Edit],
        meter: &mut Meter,
    ) -> Result<Prepared, BatchFault>
        ensures found { UnlessMemory ran_out result (PreparesAll self.now edits.now result) }
        ensures sure { IsFirstMissing self.now edits.now → result ≡ Err (of_edit 1 NoSuch) }
        ensures rises { IfOk result (λ prepared.
            Rises (IsEditRise edits.now prepared.after) meter.old.total meter.new.total) }
        ensures kept { OnErr result (meter.old.total ≤ meter.new.total) }
    {
        let policy = edited(alloc, self.policy(), edits)?;
        let before = self.policy().copy(alloc)?;
        let touched = touched_by(alloc, edits)?;
        let after = self.renewed(alloc, &touched, policy, meter)?;
        Ok(Prepared {
            before,
            after,
            touched: touched.all,
        })
    }

    /// Makes a prepared edit, of a policy that is the present one. Takes no memory.
    pub fn commit(&mut self, prepared: Prepared)
        requires { prepared.before ≡ self.old }
        ensures { self.new ≡ prepared.after }
    {
        *self = prepared.into_live();
    }
}

impl Prepared {
    // The policy that the edits make, with its automata.
    fn into_live(self) -> Live
        ensures { result ≡ self.after }
    {
        let Prepared {
            before: _,
            after,
            touched: _,
        } = self;
        after
    }

    /// Whether the edit was prepared on the present policy. Compares the policies, and takes no
    /// memory.
    pub fn fits(&self, live: &Live) -> bool
        ensures { IsTrue result ↔ (self.now.before ≡ live.now) }
    {
        self.before.same(live.policy())
    }

    /// The new policy.
    pub fn policy(&self) -> &Policy
        ensures policy { result.now ≡ self.now.after }
        ensures small { IsSmall self.now.after }
    {
        self.after.policy()
    }

    /// Whether the edit leaves the rules along the chain of a subject of the new policy, so that it
    /// changes no decision there. It says no wherever the edit concerns a subject of that chain.
    /// Takes no memory, and a look-up for each subject of the chain.
    pub fn leaves(&self, subject: &SubjectId) -> bool
        ensures { IsTrue result
            → option_map (entries self.now.before) (find_subject subject.now self.now.before)
            ≡ option_map (entries self.now.after) (find_subject subject.now self.now.after) }
    {
        match self.after.policy().find(subject) {
            Some(subject) => !has_on_chain(self.touched.as_slice(), self.after.policy(), subject),
            None => false,
        }
    }

    /// What the new policy says of a user's line. Nothing where it has no such user. Takes no
    /// memory.
    pub fn decide(&self, user: &Name, line: &[u8]) -> Option<Decision>
        ensures { result ≡ decide self.now.after user.now line.now }
    {
        self.after.decide(user, line)
    }

    /// The decider of the rules along the chain of a subject of the new policy. Nothing where it
    /// has no such subject.
    pub fn decider(&self, subject: &SubjectId) -> Option<&Decider>
        ensures decider { IsDeciderFor self.now.after (find_subject subject.now self.now.after)
            (option_copied result) }

        // What an automaton holds a text to be is what the policy does.
        ensures law { MatchLaw }
    {
        self.after.decider(subject)
    }
}

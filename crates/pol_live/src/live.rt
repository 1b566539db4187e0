//! A policy with its automata.

ghost use Rattle.std.specs.Prelude.{◌≡◌, ◌≤◌, slice_get, is_some, None, Some, IsTrue};
ghost use Rattle.std.specs.Prelude.{IfOk, IfErr, IfNone, IfSome, OnOk, OnErr};
ghost use Rattle.std.specs.Option.{option_copied};
ghost use Rattle.pol_pattern.specs.Matching.{MatchLaw};
ghost use Rattle.pol_automaton.specs.Automaton.{IsDecider};
ghost use Rattle.pol_text.specs.declared.subject.Subject.{Subject as SubjectValue};
ghost use Rattle.pol_text.specs.Policy.{WellFormed, find_subject, decide};
ghost use Rattle.pol_meaning.specs.Along.{patterns_along as patterns};
ghost use Rattle.pol_meaning.specs.Deciding.{DecisionLaw};
ghost use Rattle.pol_meaning.specs.Sizes.{IsSmall};
ghost use Rattle.pol_live.specs.Renewing.{IsAlike};
ghost use Rattle.pol_live.specs.Rise.{IsBuildRise, IsOne, IsRenewalRise, Rises};
ghost use Rattle.pol_live.specs.Refusing.{is_memory};
ghost use Rattle.pol_live.specs.declared.fault.BuildFault.TheVariants.{Memory};
ghost use Rattle.pol_live.specs.Live.{Builds, IsOnlyBuilt, IsDeciderFor};
ghost use Rattle.pol_meaning.specs.Memory.{UnlessMemory};

use crate::building::{complete, no_parts};
use crate::deciding::decided;
use crate::fault::BuildFault;
use crate::parents::{Parents, parents_of};
use crate::parts::{Parts, lookup};
use crate::reusing::kept_parts;
use crate::touching::Touched;
use pol_automaton::{Decider, Meter};
use pol_names::{Decision, Name, SubjectId};
use pol_text::Policy;
use std::alloc::Global;
use std::marker::Model;

/// A policy that decides at once: each subject has the automaton of all rules along its chain. A
/// contract sees the policy.
pub struct Live {
    policy: Policy,
    parents: Parents,
    parts: Parts,
}

// By hand, so that a proof of an owner has one call at each exit, not a drop of each field.
impl Drop for Live {
    fn drop(self) {
        let Live {
            policy: _,
            parents: _,
            parts: _,
        } = self;
    }
}

impl Model for Live {
    ghost use Rattle.std.specs.Prelude.{List};
    ghost use Rattle.pol_text.specs.declared.subject.Subject.{Subject as SubjectValue};
    ghost use Rattle.pol_live.specs.Kept.{AreParts, AreAll, HaveKeepers, AreParents};
    ghost use Rattle.pol_meaning.specs.Sizes.{IsSmall};

    ghost Value = { List SubjectValue };

    ghost view = { λ live. live.policy };

    ghost invariant = { λ live. AreParts live.policy live.parts × AreAll live.policy live.parts
        × HaveKeepers live.policy live.parts × IsSmall live.policy
        × AreParents live.policy live.parents };
}

impl Live {
    fn build_anew(alloc: Global, policy: Policy, meter: &mut Meter) -> Result<Live, BuildFault>
        ensures found { UnlessMemory is_memory result (Builds policy result) }
        ensures rises { OnOk result (Rises (IsBuildRise policy) meter.old.total meter.new.total) }
        ensures kept { OnErr result (meter.old.total ≤ meter.new.total) }
    {
        let parents = parents_of(alloc, &policy)?;
        let mut parts = no_parts(alloc, &policy)?;
        complete(alloc, &policy, &mut parts, meter)?;
        Ok(Live {
            policy,
            parents,
            parts,
        })
    }

    /// The policy that edits make, with the automata that stay right where these subjects are
    /// touched, and the others built anew.
    pub(crate) fn renewed(
        &self,
        alloc: Global,
        touched: &Touched,
        policy: Policy,
        meter: &mut Meter,
    ) -> Result<Live, BuildFault>
        requires { IsAlike touched.now self.now policy }
        ensures found { UnlessMemory is_memory result (Builds policy result) }
        ensures rises { OnOk result
            (Rises (IsRenewalRise touched.now policy) meter.old.total meter.new.total) }
        ensures kept { OnErr result (meter.old.total ≤ meter.new.total) }
    {
        let parents = parents_of(alloc, &policy)?;
        let mut parts = kept_parts(alloc, &self.policy, &self.parts, touched, &policy)?;
        complete(alloc, &policy, &mut parts, meter)?;
        Ok(Live {
            policy,
            parents,
            parts,
        })
    }

    /// The policy with its automata, all built anew. Refused where a subject has too many
    /// residuals, with the first such subject in the policy's order.
    pub fn build(alloc: Global, policy: Policy, meter: &mut Meter) -> Result<Live, BuildFault>
        ensures found { UnlessMemory is_memory result (Builds policy result) }
        ensures only { UnlessMemory is_memory result (IsOnlyBuilt policy result) }

        // A policy that may stand is refused only where memory runs out.
        ensures small { IsSmall policy → IfErr result (λ fault. fault ≡ Memory) }

        // The meter rises by the residuals of each automaton that is made.
        ensures rises { OnOk result (Rises (IsBuildRise policy) meter.old.total meter.new.total) }
        ensures one_rise { IsOne (IsBuildRise policy) }
        ensures kept { OnErr result (meter.old.total ≤ meter.new.total) }
    {
        Live::build_anew(alloc, policy, meter)
    }

    /// The policy, without its automata. Takes no memory.
    pub fn into_policy(self) -> Policy
        ensures policy { result ≡ self }
        ensures small { IsSmall self }
    {
        let Live {
            policy,
            parents: _,
            parts: _,
        } = self;
        policy
    }

    /// The present policy.
    pub fn policy(&self) -> &Policy
        ensures policy { result.now ≡ self.now }
        ensures small { IsSmall self.now }
    {
        &self.policy
    }

    // Where the subject of this kind and name stands, and its decider.
    fn part(&self, id: &SubjectId) -> Option<(usize, &Decider)>
        ensures none { IfNone result (find_subject id.now self.now ≡ None) }
        ensures found { IfSome result (λ part.
            find_subject id.now self.now ≡ slice_get self.now part.0) }
        ensures right { IfSome result (λ part. (subject : SubjectValue)
            → slice_get self.now part.0 ≡ Some subject
            → IsDecider part.1.now (patterns self.now subject)) }
        ensures there { IfSome result (λ part. IsTrue (is_some (slice_get self.now part.0))) }
    {
        let Some(index) = self.policy.index_of(id) else {
            return None;
        };
        let Some(whole) = lookup(&self.parts.wholes, index) else {
            return None;
        };
        Some((index, whole.decider()))
    }

    /// What the policy says of a user's line, as a search along the user's chain would. Nothing
    /// where there is no such user. A walk along the line; no memory.
    pub fn decide(&self, user: &Name, line: &[u8]) -> Option<Decision>
        ensures decision { result ≡ decide self.now user.now line.now }
        // What a policy permits by that definition is what the sets of its patterns permit.
        ensures law { DecisionLaw }
    {
        let Some((at, decider)) = self.part(&SubjectId::user(*user)) else {
            return None;
        };
        Some(decided(&self.policy, &self.parents, at, decider, line))
    }

    /// The decider of the rules along the chain of a subject, the subject's own first. Nothing
    /// where there is no such subject.
    pub fn decider(&self, subject: &SubjectId) -> Option<&Decider>
        ensures decider { IsDeciderFor self.now (find_subject subject.now self.now)
            (option_copied result) }

        // What an automaton holds a text to be is what the policy does.
        ensures law { MatchLaw }
    {
        let Some((_, decider)) = self.part(subject) else {
            return None;
        };
        Some(decider)
    }
}

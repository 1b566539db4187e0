//! Taking the rules that stayed the same from the policy before, so that both share their patterns.

ghost use Rattle.std.specs.Prelude.{◌≡◌, ◌&&◌, slice_get, is_some, not, Some, IfOk, OnOk};
ghost use Rattle.std.specs.Option.{option_map, option_and_then};
ghost use Rattle.pol_text.specs.Policy.{WellFormed, id_of, find_subject};
ghost use Rattle.pol_live.specs.Renewing.{IsAlike, is_among as among};

use crate::touching::{Touched, is_among};
use pol_names::SubjectId;
use pol_text::{Policy, Rule, Subject};
use std::alloc::{AllocError, Global};

// Puts a rule in the place of one that is the same.
fn put(policy: &mut Policy, id: &SubjectId, at: usize, rule: Rule) -> Result<(), AllocError>
    requires well_formed { WellFormed policy.old }
    requires there { option_and_then (λ subject. slice_get subject.rules at)
        (find_subject id.now policy.old) ≡ Some rule }
    ensures { OnOk result (policy.new ≡ policy.old) }
{
    policy.remove_rule(id, at);
    policy.insert_rule(id, at, rule)?;
    Ok(())
}

// Takes the rules of a subject from the one of its kind and name before, which has the same.
fn take_rules(alloc: Global, policy: &mut Policy, was: &Subject) -> Result<(), AllocError>
    requires well_formed { WellFormed policy.old }
    requires same { option_map (λ subject. subject.rules)
        (find_subject (id_of was.now) policy.old) ≡ Some was.now.rules }
    ensures { OnOk result (policy.new ≡ policy.old) }
{
    let id = was.id();
    for (at, rule) in was.rules.as_slice().iter().enumerate() {
        let copy = rule.copy(alloc)?;
        put(policy, &id, at, copy)?;
    }
    Ok(())
}

// Whether the policy has the subject with the rules that it had.
fn has_still(policy: &Policy, touched: &Touched, was: &Subject) -> bool
    ensures { result ≡ (is_some (find_subject (id_of was.now) policy.now)
        && not (among touched.now.rewritten was.now)) }
{
    policy.find(&was.id()).is_some() && !is_among(touched.rewritten.as_slice(), was)
}

/// The policy, which then shares the patterns of subjects that weren't rewritten with the one
/// before. So when that is dropped, hardly any pattern is. Takes two look-ups for each rule.
pub(crate) fn sharing(
    alloc: Global,
    before: &Policy,
    touched: &Touched,
    policy: Policy,
) -> Result<Policy, AllocError>
    requires alike { IsAlike touched.now before.now policy }
    requires well_formed { WellFormed policy }
    ensures { IfOk result (λ shared. shared ≡ policy) }
{
    let mut shared = policy;
    for was in before.subjects() {
        if has_still(&shared, touched, was) {
            take_rules(alloc, &mut shared, was)?;
        }
    }
    Ok(shared)
}

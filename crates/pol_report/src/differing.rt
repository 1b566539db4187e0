//! What differs between the rules along two chains.

ghost use Rattle.std.specs.Prelude.{◌≡◌, map, IfOk};
ghost use Rattle.pol_meaning.specs.Along.{entries_of};
ghost use Rattle.pol_live.specs.ChainRules.{chain_rule};
ghost use Rattle.pol_report.specs.Sharing.{IsDifference, along};

use crate::comparison::Comparison;
use crate::difference::Difference;
use pol_live::rules_along;
use pol_names::{SubjectId, Verdict};
use pol_text::Policy;
use std::alloc::{AllocError, Global};

// What each of the rules along a subject's chain says.
fn verdicts_along(
    alloc: Global,
    policy: &Policy,
    id: &SubjectId,
) -> Result<Vec<Verdict>, AllocError>
    ensures { IfOk result (λ verdicts. verdicts.items
        ≡ map (λ rule. rule.verdict) (map chain_rule (entries_of policy.now id.now))) }
{
    let rules = rules_along(alloc, policy, id)?;
    rules.iter().map(|rule| rule.verdict).collect(alloc)
}

/// What differs for a subject between two policies. Who isn't in one may do nothing there. Two
/// searches over the pairs of states of both automata.
pub(crate) fn difference_for(
    alloc: Global,
    policies: &Comparison<'_>,
    id: &SubjectId,
) -> Result<Difference, AllocError>
    ensures { IfOk result (λ difference. IsDifference
        (along policies.now.before id.now) (along policies.now.after id.now) difference) }
{
    let was = policies.decider_before(id);
    let is = policies.decider_after(id);
    let was_says = verdicts_along(alloc, policies.old_policy(), id)?;
    let is_says = verdicts_along(alloc, policies.new_policy(), id)?;
    Difference::between(alloc, was, &was_says, is, &is_says)
}

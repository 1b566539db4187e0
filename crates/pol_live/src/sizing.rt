//! Which subject of a policy is the first with too many residuals.

ghost use Rattle.std.specs.Prelude.{◌≡◌, ◌↔◌, take, slice_get, Some, IsTrue, IfOk};
ghost use Rattle.pol_meaning.specs.Sizes.{IsLarge, AreSmall, IsFirstLarge};
ghost use Rattle.pol_text.specs.Policy.{WellFormed};
ghost use Rattle.pol_live.specs.Kept.{AreParts};
ghost use Rattle.pol_live.specs.Refusing.{IsLargeAt};

use crate::along::patterns_from;
use crate::filling::{FillFault, MOST_STATES, fill};
use crate::parts::Parts;
use pol_automaton::{Decider, DeciderFault, Meter};
use pol_names::SubjectId;
use pol_text::{Policy, Subject};
use std::alloc::{AllocError, Global};

// Whether the rules along the chain of the subject have too many residuals.
fn is_large(alloc: Global, policy: &Policy, subject: &Subject) -> Result<bool, AllocError>
    ensures { IfOk result (λ large. IsTrue large ↔ IsLarge policy.now subject.now) }
{
    let entries = patterns_from(alloc, policy, subject)?;
    let mut meter = Meter::new();
    match Decider::of(entries, MOST_STATES, &mut meter) {
        Ok(_) => Ok(false),
        Err(DeciderFault::TooManyStates) => Ok(true),
        Err(DeciderFault::Memory) => Err(AllocError),
    }
}

// The same of the subject at a place. Its automata are made and kept, if those of its groups can
// be: so subjects of one group share what that takes.
fn is_large_at(
    alloc: Global,
    policy: &Policy,
    subject: &Subject,
    index: usize,
    parts: &mut Parts,
) -> Result<bool, AllocError>
    requires here { slice_get policy.now index ≡ Some subject.now }
    requires well_formed { WellFormed policy.now }
    requires right { AreParts policy.now parts.old }
    ensures right { AreParts policy.now parts.new }
    ensures large { IfOk result (λ large. IsTrue large ↔ IsLarge policy.now subject.now) }
{
    let mut meter = Meter::new();
    match fill(alloc, policy, index, Policy::MAX_CHAIN, parts, &mut meter) {
        Ok(()) => Ok(false),
        Err(FillFault::TooManyStates(large)) => {
            if large == index {
                return Ok(true);
            }
            is_large(alloc, policy, subject)
        }
        Err(FillFault::Memory) => Err(AllocError),
    }
}

/// The first large subject of a policy, where those before a place are small and the one at another
/// is large. Makes the automata of those between that have none.
pub(crate) fn first_large(
    alloc: Global,
    policy: &Policy,
    parts: &mut Parts,
    from: usize,
    large: usize,
) -> Result<SubjectId, AllocError>
    requires well_formed { WellFormed policy.now }
    requires small { AreSmall policy.now (take from policy.now) }
    requires large { IsLargeAt policy.now large }
    requires right { AreParts policy.now parts.old }
    ensures { IfOk result (λ id. IsFirstLarge policy.now policy.now id) }
{
    let subjects = policy.subjects();
    for at in from..large {
        let subject = &subjects[at];
        if is_large_at(alloc, policy, subject, at, parts)? {
            return Ok(subject.id());
        }
    }
    Ok(subjects[large].id())
}

//! Making the automata of a policy: each subject's own, and those along its chain, each from the
//! own one and that of the group that it inherits from.

ghost use Rattle.std.specs.Prelude.{◌≡◌, ◌<◌, ◌≤◌, ◌||◌, ◌&&◌, ◌++◌, ◌⊎◌, ℕ, List, length, slice_get};
ghost use Rattle.std.specs.Prelude.{slice_set, is_some, true, Some, None, IsTrue, if◌then◌else◌};
ghost use Rattle.std.specs.Prelude.{IfOk, IfSome, OnOk, OnErr, IsErrOf, Contains};
ghost use Rattle.std.specs.Option.{option_and_then, option_copied};
ghost use Rattle.pol_scan.specs.Table.{count};
ghost use Rattle.pol_automaton.specs.Automaton.{Automaton, IsDecider};
ghost use Rattle.pol_residual.specs.Residuals.{HasMoreResiduals};
ghost use Rattle.pol_text.specs.declared.subject.Subject.{Subject as SubjectValue};
ghost use Rattle.pol_text.specs.Policy.{parent_of, ends_within, InheritsEntries, max_rules};
ghost use Rattle.pol_meaning.specs.Sizes.{IsLarge, most_residuals};
ghost use Rattle.pol_live.specs.Kept.{IsFit, IsOf, IsPutAt, AreParts, Grows, slot, own_patterns};
ghost use Rattle.pol_live.specs.Kept.{has_rules as with_rules, is_keeper as keeps};
ghost use Rattle.pol_live.specs.Counting.{Raised, NotLowered, Counts, weight, states_of};
ghost use Rattle.pol_live.specs.Refusing.{IsLargeAt};

use crate::along::add_patterns;
use crate::parts::{Parts, Slots, lookup, put};
use crate::shared::Shared;
use pol_automaton::{Decider, DeciderFault, Entries, Meter};
use pol_names::SubjectId;
use pol_text::{Policy, Subject};
use std::alloc::Global;

/// The most residuals that the rules along a subject's chain may have together.
pub(crate) const MOST_STATES: u16 = 16384;

/// Why the automata of a subject aren't made.
#[derive(Clone, Copy)]
pub(crate) enum FillFault {
    /// The subject at this place, which is this one or a group that it inherits from, has too many
    /// residuals.
    TooManyStates(usize),
    /// Memory ran out.
    Memory,
}

/// Whether the subject has rules of its own.
pub(crate) fn has_rules(subject: &Subject) -> bool
    ensures { result ≡ with_rules subject.now }
{
    0 < subject.rules.len()
}

/// Whether the subject has an automaton of its own.
pub(crate) fn is_keeper(subject: &Subject) -> bool
    ensures { result ≡ keeps subject.now }
{
    has_rules(subject) || subject.parent.is_none()
}

/// The subject at a place.
pub(crate) fn subject_at(policy: &Policy, index: usize) -> Option<&Subject>
    ensures found { option_copied result ≡ slice_get policy.now index }
    ensures few { IfSome result (λ subject. length subject.now.rules ≤ max_rules) }
{
    policy.subjects().get(index)
}

/// Where the group that the subject belongs to stands.
pub(crate) fn parent_index(policy: &Policy, subject: &Subject) -> Option<usize>
    ensures found { parent_of policy.now subject.now
        ≡ option_and_then (slice_get policy.now) result }
    ensures within { IfSome result (λ at. at < length policy.now) }
    ensures inherits { Contains policy.now subject.now
        → InheritsEntries policy.now subject.now }
    ensures grouped { Contains policy.now subject.now
        → is_some result ≡ is_some subject.now.parent }
{
    let Some(parent) = subject.parent else {
        return None;
    };
    policy.index_of(&SubjectId::group(parent))
}

// The automaton of a subject's own rules.
fn build_own(alloc: Global, subject: &Subject, meter: &mut Meter) -> Result<Shared, DeciderFault>
    ensures right { IfOk result (λ own. IsFit (own_patterns subject.now) own) }
    ensures too_many { IsErrOf result DeciderFault.TooManyStates
        → HasMoreResiduals (own_patterns subject.now) most_residuals }
    ensures raised { IfOk result (λ own.
        Raised meter.old.total meter.new.total (count own.table)) }
    ensures kept { OnErr result (NotLowered meter.old.total meter.new.total) }
{
    let mut entries = Entries::new(alloc);
    add_patterns(&mut entries, subject)?;
    let decider = Decider::of(entries, MOST_STATES, meter)?;
    let own = Shared::new(alloc, decider)?;
    Ok(own)
}

// The automaton of a subject's own rules, and then those that it inherits.
fn build_joined(
    alloc: Global,
    own: &Decider,
    above: &Decider,
    meter: &mut Meter,
) -> Result<Shared, DeciderFault>
    ensures right { (first rest : List (List ℕ)) → IsDecider own.now first
        → IsDecider above.now rest → IfOk result (λ whole. IsFit (first ++ rest) whole) }
    ensures too_many { (first rest : List (List ℕ)) → IsDecider own.now first
        → IsDecider above.now rest → IsErrOf result DeciderFault.TooManyStates
        → HasMoreResiduals (first ++ rest) most_residuals }
    ensures raised { IfOk result (λ whole.
        Raised meter.old.total meter.new.total (count whole.table)) }
    ensures kept { OnErr result (NotLowered meter.old.total meter.new.total) }
{
    let decider = Decider::join(alloc, own, above, MOST_STATES, meter)?;
    let whole = Shared::new(alloc, decider)?;
    Ok(whole)
}

// Makes the automaton of a subject's own rules, if the subject is a keeper and there is none yet.
fn fill_own(
    alloc: Global,
    subject: &Subject,
    index: usize,
    parts: &mut Parts,
    meter: &mut Meter,
) -> Result<(), DeciderFault>
    requires { index < length parts.old.owns }
    ensures wholes { OnOk result (parts.new.wholes ≡ parts.old.wholes) }
    ensures owns { OnOk result ((parts.new.owns ≡ parts.old.owns)
        ⊎ ((slot parts.old.owns index ≡ None)
        × IsPutAt index (own_patterns subject.now) parts.old.owns parts.new.owns)) }
    ensures there { OnOk result (keeps subject.now ≡ true
        → IsTrue (is_some (slot parts.new.owns index))) }
    ensures keeper { OnOk result ((parts.new.owns ≡ parts.old.owns)
        ⊎ (keeps subject.now ≡ true)) }
    ensures too_many { IsErrOf result DeciderFault.TooManyStates
        → HasMoreResiduals (own_patterns subject.now) most_residuals }
    ensures counts { (policy : List SubjectValue) → slice_get policy index ≡ Some subject.now
        → OnOk result (Counts meter.old.total meter.new.total
        (weight (λ _. true) policy parts.old.owns)
        (weight (λ _. true) policy parts.new.owns)) }
    ensures kept { OnErr result (NotLowered meter.old.total meter.new.total) }
    ensures same { OnErr result (parts.new ≡ parts.old) }
{
    if !is_keeper(subject) || lookup(&parts.owns, index).is_some() {
        return Ok(());
    }
    let own = build_own(alloc, subject, meter)?;
    put(&mut parts.owns, index, own);
    Ok(())
}

// The automaton of the rules of a subject's own and those that it inherits.
fn combine(
    alloc: Global,
    own: Option<&Shared>,
    above: Option<&Shared>,
    meter: &mut Meter,
) -> Result<Shared, DeciderFault>
    requires { IsTrue (is_some own || is_some above) }
    ensures right { (first rest : List (List ℕ)) → IsOf first (option_copied own.entry)
        → IsOf rest (option_copied above.entry)
        → IfOk result (λ whole. IsFit (first ++ rest) whole) }
    ensures too_many { (first rest : List (List ℕ)) → IsOf first (option_copied own.entry)
        → IsOf rest (option_copied above.entry) → IsErrOf result DeciderFault.TooManyStates
        → HasMoreResiduals (first ++ rest) most_residuals }
    ensures raised { IfOk result (λ whole. Raised meter.old.total meter.new.total
        (if is_some own.entry && is_some above.entry then count whole.table else 0)) }
    ensures kept { OnErr result (NotLowered meter.old.total meter.new.total) }
{
    match (own, above) {
        (Some(own), Some(above)) => build_joined(alloc, own.decider(), above.decider(), meter),
        (Some(own), None) => Ok(own.share()?),
        (None, Some(above)) => Ok(above.share()?),
        (None, None) => unreachable!(),
    }
}

// The automaton of the rules that are inherited.
fn lookup_above(wholes: &Slots, parent: Option<usize>) -> Option<&Shared>
    ensures { option_copied result ≡ option_and_then (slot wholes.now) parent }
{
    match parent {
        Some(parent) => lookup(wholes, parent),
        None => None,
    }
}

// Makes the automaton of the rules along a subject's chain.
fn fill_whole(
    alloc: Global,
    index: usize,
    parent: Option<usize>,
    parts: &mut Parts,
    meter: &mut Meter,
) -> Result<(), DeciderFault>
    requires within { index < length parts.old.wholes }
    requires some { IsTrue (is_some (slot parts.old.owns index)
        || is_some (option_and_then (slot parts.old.wholes) parent)) }
    ensures owns { OnOk result (parts.new.owns ≡ parts.old.owns) }
    ensures wholes { (first rest : List (List ℕ)) → IsOf first (slot parts.old.owns index)
        → IsOf rest (option_and_then (slot parts.old.wholes) parent)
        → OnOk result (IsPutAt index (first ++ rest) parts.old.wholes parts.new.wholes) }
    ensures too_many { (first rest : List (List ℕ)) → IsOf first (slot parts.old.owns index)
        → IsOf rest (option_and_then (slot parts.old.wholes) parent)
        → IsErrOf result DeciderFault.TooManyStates
        → HasMoreResiduals (first ++ rest) most_residuals }
    ensures raised { OnOk result ((whole : Automaton)
        × (parts.new.wholes ≡ slice_set parts.old.wholes index (Some whole))
        × Raised meter.old.total meter.new.total (if is_some (slot parts.old.owns index)
        && is_some (option_and_then (slot parts.old.wholes) parent)
        then count whole.table else 0)) }
    ensures kept { OnErr result (NotLowered meter.old.total meter.new.total) }
    ensures same { OnErr result (parts.new ≡ parts.old) }
{
    let own = lookup(&parts.owns, index);
    let above = lookup_above(&parts.wholes, parent);
    let whole = combine(alloc, own, above, meter)?;
    put(&mut parts.wholes, index, whole);
    Ok(())
}

// Makes the automata of the subject at a place, where there are none yet. Those of the group that
// it inherits from are there.
fn fill_here(
    alloc: Global,
    policy: &Policy,
    subject: &Subject,
    index: usize,
    parent: Option<usize>,
    parts: &mut Parts,
    meter: &mut Meter,
) -> Result<(), DeciderFault>
    requires here { slice_get policy.now index ≡ Some subject.now }
    requires found { parent_of policy.now subject.now
        ≡ option_and_then (slice_get policy.now) parent }
    requires within { IfSome parent (λ at. at < length policy.now) }
    requires inherits { InheritsEntries policy.now subject.now }
    requires grouped { is_some parent ≡ is_some subject.now.parent }
    requires above { IfSome parent (λ at. IsTrue (is_some (slot parts.old.wholes at))) }
    requires right { AreParts policy.now parts.old }
    ensures right { AreParts policy.now parts.new }
    ensures grows { OnOk result (Grows parts.old parts.new) }
    ensures there { OnOk result (IsTrue (is_some (slot parts.new.wholes index))) }
    ensures keeper { OnOk result (keeps subject.now ≡ true
        → IsTrue (is_some (slot parts.new.owns index))) }
    ensures too_many { IsErrOf result DeciderFault.TooManyStates
        → IsLarge policy.now subject.now }
    ensures counts { OnOk result (Counts meter.old.total meter.new.total
        (states_of policy.now parts.old) (states_of policy.now parts.new)) }
    ensures kept { OnErr result (NotLowered meter.old.total meter.new.total) }
{
    fill_own(alloc, subject, index, parts, meter)?;
    if lookup(&parts.wholes, index).is_some() {
        return Ok(());
    }
    fill_whole(alloc, index, parent, parts, meter)
}

/// Makes the automata of the subject at a place, where there are none yet, and before them those of
/// the groups that it inherits from. The subject's chain has at most so many subjects. What there
/// is of automata is right whatever the answer.
pub(crate) fn fill(
    alloc: Global,
    policy: &Policy,
    index: usize,
    most: usize,
    parts: &mut Parts,
    meter: &mut Meter,
) -> Result<(), FillFault>
    requires within { index < length policy.now }
    requires ends { (subject : SubjectValue) → slice_get policy.now index ≡ Some subject
        → ends_within most policy.now subject ≡ true }
    requires right { AreParts policy.now parts.old }
    ensures right { AreParts policy.now parts.new }
    ensures grows { OnOk result (Grows parts.old parts.new) }
    ensures there { OnOk result (IsTrue (is_some (slot parts.new.wholes index))) }
    ensures too_many { (at : ℕ) → IsErrOf result (FillFault.TooManyStates at)
        → IsLargeAt policy.now at }
    ensures keeper { OnOk result ((subject : SubjectValue)
        → slice_get policy.now index ≡ Some subject → keeps subject ≡ true
        → IsTrue (is_some (slot parts.new.owns index))) }
    ensures counts { OnOk result (Counts meter.old.total meter.new.total
        (states_of policy.now parts.old) (states_of policy.now parts.new)) }
    ensures kept { OnErr result (NotLowered meter.old.total meter.new.total) }
{
    let Some(subject) = subject_at(policy, index) else {
        return Ok(());
    };
    let parent = parent_index(policy, subject);
    if let Some(parent) = parent {
        fill(alloc, policy, parent, most - 1, parts, meter)?;
    }
    match fill_here(alloc, policy, subject, index, parent, parts, meter) {
        Ok(()) => Ok(()),
        Err(DeciderFault::TooManyStates) => Err(FillFault::TooManyStates(index)),
        Err(DeciderFault::Memory) => Err(FillFault::Memory),
    }
}

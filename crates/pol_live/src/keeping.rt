//! Who keeps automata: of the subjects that a keeper decides for, all have the same rules.

ghost use Rattle.std.specs.Prelude.{◌≡◌, ◌<◌, length, map, slice_get, is_some, true, Some};
ghost use Rattle.std.specs.Option.{option_map, option_and_then};
ghost use Rattle.pol_text.specs.declared.subject.Subject.{Subject as SubjectValue};
ghost use Rattle.pol_text.specs.Policy.{find_subject, ends_within, chain_within, entries};
ghost use Rattle.pol_live.specs.Kept.{first_keeper, keeper_of};

use crate::filling::{is_keeper, parent_index, subject_at};
use pol_names::SubjectId;
use pol_text::Policy;

// Where the first keeper on the chain of the subject at a place stands. The chain has at most so
// many subjects.
fn keeper_within(policy: &Policy, index: usize, most: usize) -> usize
    requires within { index < length policy.now }
    requires ends { (subject : SubjectValue) → slice_get policy.now index ≡ Some subject
        → ends_within most policy.now subject ≡ true }
    ensures keeper { (subject : SubjectValue) → slice_get policy.now index ≡ Some subject
        → slice_get policy.now result ≡ first_keeper (chain_within most policy.now subject) }
    ensures entries { (subject : SubjectValue) → slice_get policy.now index ≡ Some subject
        → option_map (entries policy.now) (slice_get policy.now result)
        ≡ Some (entries policy.now subject) }
{
    let Some(subject) = subject_at(policy, index) else {
        return index;
    };
    if is_keeper(subject) {
        return index;
    }
    match parent_index(policy, subject) {
        Some(parent) => keeper_within(policy, parent, most - 1),
        // a subject without a group is a keeper
        None => index,
    }
}

/// Where the keeper stands by whose automaton a subject's lines are decided: the subject itself, if
/// it has rules or no group, or the nearest above it. Nothing where there is no such subject. Takes
/// no memory, and a look-up for each subject up to the keeper.
pub fn keeper(policy: &Policy, id: &SubjectId) -> Option<usize>
    ensures keeper { option_and_then (slice_get policy.now) result ≡ keeper_of policy.now id.now }
    ensures there { is_some result ≡ is_some (find_subject id.now policy.now) }

    // The same rules are along the keeper's chain as along the subject's.
    ensures entries { option_map (entries policy.now)
        (option_and_then (slice_get policy.now) result)
        ≡ option_map (entries policy.now) (find_subject id.now policy.now) }
{
    match policy.index_of(id) {
        Some(index) => Some(keeper_within(policy, index, Policy::MAX_CHAIN)),
        None => None,
    }
}

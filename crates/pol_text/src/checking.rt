//! Whether the chains of a draft are right, and the policy that it then is.

ghost use Rattle.std.specs.Prelude.{◌≡◌, ◌<◌, Ok, Err, length, map, slice_index, IfSome};
ghost use Rattle.std.specs.Prelude.{MatchResult};
ghost use Rattle.std.specs.List.{zip};
ghost use Rattle.std.specs.Option.{option_map_or};
ghost use Rattle.pol_text.specs.Draft.{first_failing};
ghost use Rattle.pol_text.specs.Policy.{id_of};
ghost use Rattle.pol_text.specs.Policy.{has_parent as parent_test};
ghost use Rattle.pol_text.specs.Policy.{ends_within as chain_ends_within};
ghost use Rattle.pol_text.specs.Text.{with_right_chains};
ghost use Rattle.pol_text.specs.declared.fault.PolicyFault.TheVariants.{Refused};

use crate::chains::{ends_within, find_in};
use crate::fault::{PolicyFault, PolicyRefusal};
use crate::policy::Policy;
use crate::subject::Subject;
use basics::Sequence;
use indexmap::IndexSet;
use pol_names::SubjectId;

// The place of the first subject whose parent isn't among the subjects.
fn first_orphan(subjects: &Sequence<Subject>, places: &IndexSet<SubjectId>) -> Option<usize>
    requires { places.now.keys ≡ map id_of subjects.now }
    ensures { result ≡ first_failing 0 (parent_test subjects.now) subjects.now }
{
    'subjects: for (i, subject) in subjects.as_slice().iter().enumerate() {
        if !has_parent(subjects, places, subject) {
            return Some(i);
        }
    }
    None
}

// Whether the subject's parent, if it has one, is among the subjects.
fn has_parent(subjects: &Sequence<Subject>, places: &IndexSet<SubjectId>, subject: &Subject) -> bool
    requires { places.now.keys ≡ map id_of subjects.now }
    ensures { result ≡ parent_test subjects.now subject.now }
{
    match subject.parent {
        Some(parent) => find_in(subjects, places, &SubjectId::group(parent)).is_some(),
        None => true,
    }
}

// The place of the first subject whose chain has more subjects than so many.
fn first_longer(
    subjects: &Sequence<Subject>,
    places: &IndexSet<SubjectId>,
    most: usize,
) -> Option<usize>
    requires { places.now.keys ≡ map id_of subjects.now }
    ensures { result ≡ first_failing 0 (chain_ends_within most subjects.now) subjects.now }
{
    'subjects: for (i, subject) in subjects.as_slice().iter().enumerate() {
        if !ends_within(subjects, places, most, subject) {
            return Some(i);
        }
    }
    None
}

// The subject at the place is refused, if there is one.
fn refuse(
    lines: &[usize],
    failing: Option<usize>,
    refusal: PolicyRefusal,
) -> Result<(), PolicyFault>
    requires { IfSome failing (λ place. place < length lines.now) }
    ensures { result ≡ option_map_or
        (λ place. Err (PolicyFault.Refused (slice_index lines.now place) refusal)) failing (Ok tt) }
{
    match failing {
        Some(place) => Err(PolicyFault::Refused {
            line: lines[place],
            refusal,
        }),
        None => Ok(()),
    }
}

// Each over all subjects in order: its parent is among them, its chain ends, and ends within 8.
pub(crate) fn check_chains(
    lines: &[usize],
    subjects: &Sequence<Subject>,
    places: &IndexSet<SubjectId>,
) -> Result<(), PolicyFault>
    requires sizes { length lines.now ≡ length subjects.now }
    requires places { places.now.keys ≡ map id_of subjects.now }
    ensures { MatchResult result
        (λ _. with_right_chains (zip lines.now subjects.now) ≡ Ok subjects.now)
        (λ fault. with_right_chains (zip lines.now subjects.now) ≡ Err fault) }
{
    let orphan = first_orphan(subjects, places);
    refuse(lines, orphan, PolicyRefusal::NoSuchParent)?;
    let endless = first_longer(subjects, places, subjects.len());
    refuse(lines, endless, PolicyRefusal::Cycle)?;
    let deep = first_longer(subjects, places, Policy::MAX_CHAIN);
    refuse(lines, deep, PolicyRefusal::TooDeep)?;
    Ok(())
}

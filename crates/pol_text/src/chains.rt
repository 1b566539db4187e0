//! Look-ups and chains over a list of subjects, which may be no policy yet.

ghost use Rattle.std.specs.Prelude.{◌≡◌, map, IfOk};
ghost use Rattle.std.specs.Borrow.{sem};
ghost use Rattle.std.specs.List.{position_or_len};
ghost use Rattle.std.specs.Option.{option_copied, option_map};
ghost use Rattle.basics.specs.Lending.{lends_item};
ghost use Rattle.pol_names.specs.SubjectId.{same_id};
ghost use Rattle.pol_text.specs.contracts.subject.Subject.{the_row as subject_row};
ghost use Rattle.pol_text.specs.Policy.{id_of, find_subject, parent_of as parent_among};
ghost use Rattle.pol_text.specs.Policy.{ends_within as chain_ends_within, chain_within};

use crate::subject::Subject;
use basics::Sequence;
use indexmap::IndexSet;
use pol_names::SubjectId;
use std::alloc::{AllocError, Global};

/// The subject of this kind and name. A hash look-up.
pub(crate) fn find_in<'a>(
    subjects: &'a Sequence<Subject>,
    places: &IndexSet<SubjectId>,
    id: &SubjectId,
) -> Option<&'a Subject>
    requires { places.now.keys ≡ map id_of subjects.now }
    ensures { option_copied result ≡ find_subject id.now subjects.now }
{
    let Some(place) = places.get_index_of(id) else {
        return None;
    };
    subjects.as_slice().get(place)
}

/// The subject of this kind and name, to be changed. A hash look-up.
pub(crate) fn find_mut<'a>(
    subjects: &'a mut Sequence<Subject>,
    places: &IndexSet<SubjectId>,
    id: &SubjectId,
) -> Option<&'a mut Subject>
    requires { places.now.keys ≡ map id_of subjects.old }
    ensures* writes_back { sem 𝓛 (lends_item subject_row subjects.entry
        (position_or_len (same_id id.now) places.now.keys) result) }
    ensures found { option_map (λ subject. subject.now) result ≡ find_subject id.now subjects.old }
{
    let Some(place) = places.get_index_of(id) else {
        return None;
    };
    subjects.get_mut(place)
}

/// The group that the subject belongs to.
pub(crate) fn parent_in<'a>(
    subjects: &'a Sequence<Subject>,
    places: &IndexSet<SubjectId>,
    subject: &Subject,
) -> Option<&'a Subject>
    requires { places.now.keys ≡ map id_of subjects.now }
    ensures { option_copied result ≡ parent_among subjects.now subject.now }
{
    let Some(parent) = subject.parent else {
        return None;
    };
    find_in(subjects, places, &SubjectId::group(parent))
}

/// Whether the subject, its parent, that one's parent and so on are at most so many.
pub(crate) fn ends_within(
    subjects: &Sequence<Subject>,
    places: &IndexSet<SubjectId>,
    most: usize,
    subject: &Subject,
) -> bool
    requires { places.now.keys ≡ map id_of subjects.now }
    ensures { result ≡ chain_ends_within most subjects.now subject.now }
{
    let mut present = subject;
    'chain: for _ in 0..most {
        match parent_in(subjects, places, present) {
            Some(parent) => present = parent,
            None => return true,
        }
    }
    false
}

/// The kinds and names of the subject, its parent, that one's parent and so on, at most so many.
pub(crate) fn ids_within(
    alloc: Global,
    subjects: &Sequence<Subject>,
    places: &IndexSet<SubjectId>,
    most: usize,
    subject: &Subject,
) -> Result<Sequence<SubjectId>, AllocError>
    requires { places.now.keys ≡ map id_of subjects.now }
    ensures { IfOk result (λ ids. ids ≡ map id_of (chain_within most subjects.now subject.now)) }
{
    let mut ids = Sequence::new(alloc);
    let mut present = subject;
    'chain: for _ in 0..most {
        ids.push(present.id())?;
        match parent_in(subjects, places, present) {
            Some(parent) => present = parent,
            None => return Ok(ids),
        }
    }
    Ok(ids)
}

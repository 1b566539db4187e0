//! Whether two policies have the same subjects.

ghost use Rattle.std.specs.Prelude.{◌≡◌, ◌↔◌, IsTrue};
ghost use Rattle.std.specs.List.{list_all};
ghost use Rattle.std.specs.Option.{option_copied};
ghost use Rattle.pol_text.specs.Policy.{WellFormed};
ghost use Rattle.pol_update.specs.Update.{HaveSame, IsAlike, has_subject as subject_test};

use pol_names::SubjectId;
use pol_text::{Policy, Subject};

/// Whether both are the same subject, or there is none.
pub(crate) fn are_alike(one: Option<&Subject>, other: Option<&Subject>) -> bool
    ensures { IsTrue result ↔ (option_copied one.entry ≡ option_copied other.entry) }
{
    match (one, other) {
        (Some(one), Some(other)) => one == other,
        (None, None) => true,
        (Some(_), None) | (None, Some(_)) => false,
    }
}

/// Whether both policies have the subject alike, or neither has it. Two look-ups.
pub(crate) fn is_alike(one: &Policy, other: &Policy, id: &SubjectId) -> bool
    ensures alike { IsTrue result ↔ IsAlike one.now other.now id.now }
    ensures well_formed { WellFormed one.now }
{
    are_alike(one.find(id), other.find(id))
}

// Whether the policy has this subject, with all that it has.
fn has_subject(policy: &Policy, subject: &Subject) -> bool
    ensures { result ≡ subject_test policy.now subject.now }
{
    match policy.find(&subject.id()) {
        Some(present) => present == subject,
        None => false,
    }
}

// Whether the policy has each of these subjects.
fn has_all(policy: &Policy, subjects: &[Subject]) -> bool
    ensures { result ≡ list_all (subject_test policy.now) subjects.now }
{
    subjects.iter().all(|subject| has_subject(policy, subject))
}

/// Whether the policies have the same subjects, with the same parents, secrets, levels and rules,
/// in whatever order. A look-up for each subject of both.
pub(crate) fn have_same(one: &Policy, other: &Policy) -> bool
    ensures { IsTrue result ↔ HaveSame one.now other.now }
{
    has_all(one, other.subjects()) && has_all(other, one.subjects())
}

//! Whether edits make one policy of another, by making them.

ghost use Rattle.std.specs.Prelude.{◌≡◌, IsTrue, IfOk};
ghost use Rattle.pol_text.specs.Policy.{WellFormed, find_subject};
ghost use Rattle.pol_update.specs.Planning.{IsTaken};
ghost use Rattle.pol_update.specs.Update.{subject_of, Updates};

use crate::comparing::{are_alike, have_same, is_alike};
use pol_edit::{Edit, EditFault, apply};
use pol_names::SubjectId;
use pol_text::{Policy, Subject};
use std::alloc::{AllocError, Global};

/// The subject that an edit is of.
pub(crate) fn subject(edit: &Edit) -> SubjectId
    ensures { result ≡ subject_of edit.now }
{
    match edit {
        Edit::AddGroup { name, .. } => SubjectId::group(*name),
        Edit::AddUser { name, .. } => SubjectId::user(*name),
        Edit::SetLogin { user, .. } | Edit::SetEnable { user, .. } | Edit::SetHash { user, .. } =>
            SubjectId::user(*user),
        Edit::Remove { subject }
        | Edit::SetParent { subject, .. }
        | Edit::SetPriv { subject, .. }
        | Edit::AddService { subject, .. }
        | Edit::ClearService { subject, .. }
        | Edit::InsertRule { subject, .. }
        | Edit::RemoveRule { subject, .. }
        | Edit::MoveRule { subject, .. } => *subject,
    }
}

// A copy of the subject, if it is there.
fn copied(alloc: Global, policy: &Policy, id: &SubjectId) -> Result<Option<Subject>, AllocError>
    ensures copied { IfOk result (λ copy. copy ≡ find_subject id.now policy.now) }
    ensures well_formed { WellFormed policy.now }
{
    match policy.find(id) {
        Some(subject) => {
            let copy = subject.copy(alloc)?;
            Ok(Some(copy))
        }
        None => Ok(None),
    }
}

/// Makes an edit of a policy. Answers whether the policy takes it, and is changed by it. Copies the
/// subject that the edit is of.
pub(crate) fn take(alloc: Global, policy: &mut Policy, edit: &Edit) -> Result<bool, AllocError>
    ensures taken { IfOk result
        (λ changed. IsTaken changed policy.old edit.now policy.new) }
    ensures well_formed { WellFormed policy.old }
{
    let id = subject(edit);
    let former = copied(alloc, policy, &id)?;
    match apply(alloc, policy, edit) {
        Ok(()) => Ok(!are_alike(policy.find(&id), former.as_ref())),
        Err(EditFault::Memory) => Err(AllocError),
        Err(_) => Ok(false),
    }
}

/// Whether the edits make of the old policy one that has the same as the new one, where each of
/// them changes something, and none is of a subject that both have alike. Makes them on a copy.
pub(crate) fn are_right(
    alloc: Global,
    old: &Policy,
    new: &Policy,
    edits: &[Edit],
) -> Result<bool, AllocError>
    ensures { IfOk result (λ right. IsTrue right → Updates old.now edits.now new.now) }
{
    let mut made = old.copy(alloc)?;
    'edits: for edit in edits {
        if is_alike(old, new, &subject(edit)) {
            return Ok(false);
        }
        if !take(alloc, &mut made, edit)? {
            return Ok(false);
        }
    }
    Ok(have_same(&made, new))
}

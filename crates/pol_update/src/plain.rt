//! A plain plan: more edits than are needed, but for any two policies.

ghost use Rattle.std.specs.Prelude.{◌≡◌, [], IfOk, OnOk};
ghost use Rattle.pol_update.specs.Planning.{IsThrough, IsOld, IsOut, IsOldOut, IsGone, IsNew};
ghost use Rattle.pol_update.specs.Planning.{IsThere, IsNewThere, IsSet};
ghost use Rattle.pol_update.specs.Update.{Updates};

use crate::comparing::is_alike;
use crate::plan::Plan;
use basics::Sequence;
use pol_edit::Edit;
use pol_text::Policy;
use std::alloc::{AllocError, Global};

// Takes each subject that differs out of its group.
fn take_out(alloc: Global, plan: &mut Plan, old: &Policy, new: &Policy) -> Result<(), AllocError>
    requires made { plan.old.made ≡ old.now }
    requires edits { plan.old.edits ≡ [] }
    ensures { OnOk result
        (IsThrough old.now new.now (IsOld old.now new.now) (IsOut old.now new.now) plan.new) }
{
    'subjects: for subject in old.subjects() {
        let id = subject.id();
        if !is_alike(old, new, &id) {
            plan.put_below(alloc, &id, None)?;
        }
    }
    Ok(())
}

// Removes each subject that the new policy doesn't have.
fn remove(alloc: Global, plan: &mut Plan, old: &Policy, new: &Policy) -> Result<(), AllocError>
    requires { IsThrough old.now new.now (IsOld old.now new.now) (IsOut old.now new.now) plan.old }
    ensures { OnOk result
        (IsThrough old.now new.now (IsOldOut old.now new.now) (IsGone new.now) plan.new) }
{
    'subjects: for subject in old.subjects() {
        let id = subject.id();
        if new.find(&id).is_none() {
            plan.remove(alloc, &id)?;
        }
    }
    Ok(())
}

// Adds each subject that isn't there, to no group.
fn add(alloc: Global, plan: &mut Plan, old: &Policy, new: &Policy) -> Result<(), AllocError>
    requires { IsThrough old.now new.now (IsOldOut old.now new.now) (IsGone new.now) plan.old }
    ensures { OnOk result
        (IsThrough old.now new.now (IsNew old.now new.now) (IsThere new.now) plan.new) }
{
    'subjects: for subject in new.subjects() {
        if plan.made().find(&subject.id()).is_none() {
            plan.add_bare(alloc, subject.kind, subject.name)?;
        }
    }
    Ok(())
}

// Gives each subject that differs all that it has in the new policy.
fn settle(alloc: Global, plan: &mut Plan, old: &Policy, new: &Policy) -> Result<(), AllocError>
    requires { IsThrough old.now new.now (IsNew old.now new.now) (IsThere new.now) plan.old }
    ensures { OnOk result
        (IsThrough old.now new.now (IsNewThere old.now new.now) (IsSet new.now) plan.new) }
{
    'subjects: for subject in new.subjects() {
        if !is_alike(old, new, &subject.id()) {
            plan.settle(alloc, subject)?;
        }
    }
    Ok(())
}

/// Edits that make the new policy of the old one, whatever these are: each subject that differs is
/// taken out of its group, those that go are removed, those that come are added, and then each gets
/// its group, its secrets, its level, its services and its rules, one after another.
///
/// No limit is exceeded in between. A subject that is in no group has no chain, and one that is put
/// below a group of the new policy has no longer a chain than there; what is there when a subject
/// is added is in the new policy too; and a subject has no services when the first of the new ones
/// comes, and no rules when the first of these does.
pub(crate) fn plain(alloc: Global, old: &Policy, new: &Policy) -> Result<Sequence<Edit>, AllocError>
    ensures { IfOk result (λ edits. Updates old.now edits new.now) }
{
    let mut plan = Plan::new(alloc, old)?;
    take_out(alloc, &mut plan, old, new)?;
    remove(alloc, &mut plan, old, new)?;
    add(alloc, &mut plan, old, new)?;
    settle(alloc, &mut plan, old, new)?;
    Ok(plan.into_edits())
}

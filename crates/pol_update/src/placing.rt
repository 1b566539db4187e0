//! Who is in the policy, and below which group.

use crate::plan::Plan;
use pol_edit::Edit;
use pol_names::Kind;
use pol_text::{Policy, Subject};
use std::alloc::{AllocError, Global};

// How many subjects the chain of this one has.
fn depth(policy: &Policy, subject: &Subject) -> usize {
    let mut present = subject;
    'chain: for depth in 1..Policy::MAX_CHAIN {
        match policy.parent_of(present) {
            Some(parent) => present = parent,
            None => return depth,
        }
    }
    Policy::MAX_CHAIN
}

// The subjects, each after its parent.
fn top_first(alloc: Global, policy: &Policy) -> Result<Vec<&Subject>, AllocError> {
    let mut subjects: Vec<&Subject> = policy.subjects().iter().collect(alloc)?;
    subjects.sort_by_key(|subject| depth(policy, subject))?;
    Ok(subjects)
}

// Removes the subjects that the new policy doesn't have, except groups that are still parents.
// Those that come last in the list go first.
fn remove(
    alloc: Global,
    plan: &mut Plan,
    former: &[&Subject],
    new: &Policy,
) -> Result<(), AllocError> {
    for subject in former.iter().rev() {
        let id = subject.id();
        if new.find(&id).is_none() && plan.made().find(&id).is_some() {
            plan.add(alloc, Edit::Remove { subject: id })?;
        }
    }
    Ok(())
}

// The edit that adds the subject.
fn addition(subject: &Subject) -> Edit {
    let (name, parent) = (subject.name, subject.parent);
    match subject.kind {
        Kind::Group => Edit::AddGroup { name, parent },
        Kind::User => Edit::AddUser { name, parent },
    }
}

// Adds the subjects that aren't there, and moves those that are below another group, except where
// this is refused.
fn place(alloc: Global, plan: &mut Plan, wanted: &[&Subject]) -> Result<(), AllocError> {
    for subject in wanted {
        let id = subject.id();
        let parent = subject.parent;
        let former = plan.made().find(&id).map(|present| present.parent);
        match former {
            None => plan.add(alloc, addition(subject))?,
            Some(former) if former == parent => {}
            Some(_) => plan.add(
                alloc,
                Edit::SetParent {
                    subject: id,
                    parent,
                },
            )?,
        }
    }
    Ok(())
}

// Takes the subjects that are still below another group than they should be out of it.
fn take_out(alloc: Global, plan: &mut Plan, wanted: &[&Subject]) -> Result<(), AllocError> {
    for subject in wanted {
        let id = subject.id();
        let former = plan.made().find(&id).and_then(|present| present.parent);
        if former.is_some() && former != subject.parent {
            plan.add(
                alloc,
                Edit::SetParent {
                    subject: id,
                    parent: None,
                },
            )?;
        }
    }
    Ok(())
}

/// Removes, adds and moves subjects until those of the new policy are there, each below its group.
///
/// A subject is moved straight below its group where it can be. It can't where a chain would become
/// too long in between, or where the group can't be added before another goes: then it is taken out
/// of its group first. After that nothing is refused: each chain is a beginning of the one that the
/// new policy has.
pub(crate) fn place_subjects(
    alloc: Global,
    plan: &mut Plan,
    old: &Policy,
    new: &Policy,
) -> Result<(), AllocError> {
    let former = top_first(alloc, old)?;
    let wanted = top_first(alloc, new)?;
    remove(alloc, plan, &former, new)?;
    place(alloc, plan, &wanted)?;
    remove(alloc, plan, &former, new)?;
    place(alloc, plan, &wanted)?;
    take_out(alloc, plan, &wanted)?;
    remove(alloc, plan, &former, new)?;
    place(alloc, plan, &wanted)
}

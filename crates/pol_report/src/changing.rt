//! What users may do, and are given, by one policy and not by another.

ghost use Rattle.std.specs.Prelude.{◌≡◌, ◌++◌, ℕ, List, IfOk, OnOk};
ghost use Rattle.pol_meaning.specs.Changes.{AreChanges};
ghost use Rattle.pol_meaning.specs.LineChanges.{ChangesOf, AreLineChanges, users_of, users_alone};
ghost use Rattle.pol_report.specs.Sharing.{AreKnown, IsListed};
ghost use Rattle.pol_meaning.specs.declared.Changed.{Changed as ChangedValue};
ghost use Rattle.pol_meaning.specs.declared.Changes.{Changes as ChangesValue};

use crate::comparison::{Comparison, Later};
use crate::differing::difference_for;
use crate::known::Differences;
use crate::serving::list_services;
use crate::users::{is_alone, is_user};
use crate::{Changed, Changes};
use basics::Sequence;
use pol_live::{Live, Prepared, keeper};
use pol_names::{Name, SubjectId};
use std::alloc::{AllocError, Global};

// Lists what changes for a user. Searches once for all whose lines were decided by one keeper, and
// are by another.
fn list_searched(
    alloc: Global,
    changes: &mut Sequence<Changed>,
    known: &mut Differences,
    policies: &Comparison<'_>,
    user: &Name,
) -> Result<(), AllocError>
    requires known { AreKnown policies.now.before policies.now.after known.old.by_keepers }
    ensures known { OnOk result
        (AreKnown policies.now.before policies.now.after known.new.by_keepers) }
    ensures listed { OnOk result
        (IsListed policies.now.before policies.now.after user.now changes.old changes.new) }
{
    let id = SubjectId::user(*user);
    let before = keeper(policies.old_policy(), &id);
    let after = keeper(policies.new_policy(), &id);
    if let Some(difference) = known.find(before, after) {
        return difference.list_for(alloc, changes, *user);
    }
    let difference = difference_for(alloc, policies, &id)?;
    difference.list_for(alloc, changes, *user)?;
    known.remember(before, after, difference)
}

// Lists what changes for a user, if it isn't to be skipped.
fn list_user(
    alloc: Global,
    changes: &mut Sequence<Changed>,
    known: &mut Differences,
    policies: &Comparison<'_>,
    user: &Name,
) -> Result<(), AllocError>
    requires known { AreKnown policies.now.before policies.now.after known.old.by_keepers }
    ensures known { OnOk result
        (AreKnown policies.now.before policies.now.after known.new.by_keepers) }
    ensures listed { OnOk result
        (IsListed policies.now.before policies.now.after user.now changes.old changes.new) }
{
    if policies.skips(&SubjectId::user(*user)) {
        return Ok(());
    }
    list_searched(alloc, changes, known, policies, user)
}

// Lists what changes for the users of the new policy.
fn list_present(
    alloc: Global,
    changes: &mut Sequence<Changed>,
    known: &mut Differences,
    policies: &Comparison<'_>,
) -> Result<(), AllocError>
    requires known { AreKnown policies.now.before policies.now.after known.old.by_keepers }
    ensures known { OnOk result
        (AreKnown policies.now.before policies.now.after known.new.by_keepers) }
    ensures listed { (users : List (List ℕ))
        → ChangesOf policies.now.before policies.now.after users changes.old
        → OnOk result (ChangesOf policies.now.before policies.now.after
        (users ++ users_of policies.now.after) changes.new) }
{
    for subject in policies.new_policy().subjects() {
        if is_user(subject) {
            list_user(alloc, changes, known, policies, &subject.name)?;
        }
    }
    Ok(())
}

// Lists what changes for the users of the old policy alone.
fn list_gone(
    alloc: Global,
    changes: &mut Sequence<Changed>,
    known: &mut Differences,
    policies: &Comparison<'_>,
) -> Result<(), AllocError>
    requires known { AreKnown policies.now.before policies.now.after known.old.by_keepers }
    ensures { (users : List (List ℕ))
        → ChangesOf policies.now.before policies.now.after users changes.old
        → OnOk result (ChangesOf policies.now.before policies.now.after
        (users ++ users_alone policies.now.after policies.now.before) changes.new) }
{
    for subject in policies.old_policy().subjects() {
        if is_alone(policies.new_policy(), subject) {
            list_searched(alloc, changes, known, policies, &subject.name)?;
        }
    }
    Ok(())
}

// Lists which lines change for the users of the new policy, and then for those of the old one
// alone.
fn list_lines(alloc: Global, policies: &Comparison<'_>) -> Result<Sequence<Changed>, AllocError>
    ensures found { IfOk result (λ changes.
        AreLineChanges policies.now.before policies.now.after changes) }
    ensures only { IfOk result (λ changes. (other : List ChangedValue)
        → AreLineChanges policies.now.before policies.now.after other → changes ≡ other) }
{
    let mut changes = Sequence::new(alloc);
    let mut known = Differences::new(alloc);
    list_present(alloc, &mut changes, &mut known, policies)?;
    list_gone(alloc, &mut changes, &mut known, policies)?;
    Ok(changes)
}

// Lists what changes for users: their lines, and their services.
fn list_changes(alloc: Global, policies: &Comparison<'_>) -> Result<Changes, AllocError>
    ensures found { IfOk result (λ changes.
        AreChanges policies.now.before policies.now.after changes) }
    ensures only { IfOk result (λ changes. (other : ChangesValue)
        → AreChanges policies.now.before policies.now.after other → changes ≡ other) }
{
    let lines = list_lines(alloc, policies)?;
    let services = list_services(alloc, policies)?;
    Ok(Changes { lines, services })
}

/// What prepared edits change for users, all together: those of the new policy in its order, then
/// those of the old one alone. A user for whom nothing changes isn't listed, nor is a service of
/// which nothing changes for the user.
///
/// It searches once for each two automata, of the old policy and of the new one, that users share
/// whom the edits concern, however many they are. For services it compares once what the subjects
/// say of levels and services. Where they don't all say the same, it compares that along each
/// user's chain, and where it differs there, looks up for this user each service that is named
/// along it, and reads a byte for each other service. All else takes a few look-ups for each
/// subject, and the lists themselves.
pub fn changes(alloc: Global, live: &Live, prepared: &Prepared) -> Result<Changes, AllocError>
    requires { prepared.now.before ≡ live.now }
    ensures found { IfOk result (λ changes. AreChanges live.now prepared.now.after changes) }

    // There is one such answer.
    ensures only { IfOk result (λ changes. (other : ChangesValue)
        → AreChanges live.now prepared.now.after other → changes ≡ other) }
{
    let policies = Comparison::new(alloc, live, Later::Edited(prepared))?;
    list_changes(alloc, &policies)
}

/// What users may do by the new policy and not by the old one, and the other way, and what they are
/// given for services by the one and not by the other: users of the new policy in its order, then
/// those of the old one alone. A user for whom nothing changes isn't listed. So what is listed from
/// a policy to itself is nothing, and from a policy to what an edit makes of it, what that edit
/// changes.
///
/// It searches once for each two automata that decide for the same user, however many users share
/// them. All else takes as much as it does for edits.
pub fn compare(alloc: Global, old: &Live, new: &Live) -> Result<Changes, AllocError>
    ensures found { IfOk result (λ changes. AreChanges old.now new.now changes) }

    // There is one such answer.
    ensures only { IfOk result (λ changes. (other : ChangesValue)
        → AreChanges old.now new.now other → changes ≡ other) }
{
    let policies = Comparison::new(alloc, old, Later::Other(new))?;
    list_changes(alloc, &policies)
}

//! The subjects that edits touch, or another policy that takes the place of the present one.

ghost use Rattle.std.specs.Prelude.{◌≡◌, ◌++◌, [], Some, None, if◌then◌else◌, IfOk, OnOk};
ghost use Rattle.std.specs.List.{cons_option};
ghost use Rattle.pol_text.specs.Policy.{WellFormed, id_of};
ghost use Rattle.pol_live.specs.Renewing as renewing;
ghost use Rattle.pol_live.specs.Renewing.{is_among as among, has_on_chain as on_chain};

use crate::along::parent;
use basics::Sequence;
use pol_edit::Edit;
use pol_names::SubjectId;
use pol_text::{Policy, Subject};
use std::alloc::{AllocError, Global};

/// The subjects that a change of the policy touches.
#[derive(Drop)]
pub(crate) struct Touched {
    /// Whose rules or whose group they may change, also those that they add.
    pub(crate) all: Sequence<SubjectId>,
    /// Whose rules they may change.
    pub(crate) rewritten: Sequence<SubjectId>,
}

// The subject whose rules or whose group the edit may change, also one that it adds.
fn touches(edit: &Edit) -> Option<SubjectId>
    ensures { result ≡ renewing.touches edit.now }
{
    match edit {
        Edit::AddGroup { name, .. } => Some(SubjectId::group(*name)),
        Edit::AddUser { name, .. } => Some(SubjectId::user(*name)),
        Edit::SetParent { subject, .. } => Some(*subject),
        Edit::InsertRule { subject, .. } => Some(*subject),
        Edit::RemoveRule { subject, .. } => Some(*subject),
        Edit::MoveRule { subject, .. } => Some(*subject),
        Edit::Remove { .. }
        | Edit::SetLogin { .. }
        | Edit::SetEnable { .. }
        | Edit::SetHash { .. }
        | Edit::SetPriv { .. }
        | Edit::AddService { .. }
        | Edit::ClearService { .. } => None,
    }
}

// The subject whose rules it may change.
fn rewrites(edit: &Edit) -> Option<SubjectId>
    ensures { result ≡ renewing.rewrites edit.now }
{
    match edit {
        Edit::SetParent { .. } => None,
        edit => touches(edit),
    }
}

// Adds the subject, if there is one.
fn add(subjects: &mut Sequence<SubjectId>, subject: Option<SubjectId>) -> Result<(), AllocError>
    ensures { OnOk result (subjects.new ≡ subjects.old ++ cons_option subject []) }
{
    if let Some(subject) = subject {
        subjects.push(subject)?;
    }
    Ok(())
}

/// The subjects that the edits touch.
pub(crate) fn touched_by(alloc: Global, edits: &[Edit]) -> Result<Touched, AllocError>
    ensures { IfOk result (λ touched. touched ≡ renewing.touched_by edits.now) }
{
    let mut all = Sequence::new(alloc);
    let mut rewritten = Sequence::new(alloc);
    for edit in edits {
        add(&mut all, touches(edit))?;
        add(&mut rewritten, rewrites(edit))?;
    }
    Ok(Touched { all, rewritten })
}

// Whether the subject was there with these rules, and whether in this group too.
fn was(before: &Policy, subject: &Subject) -> (bool, bool)
    ensures rules { result.0 ≡ renewing.had_rules before.now subject.now }
    ensures alike { result.1 ≡ renewing.was_alike before.now subject.now }
{
    match before.find(&subject.id()) {
        Some(was) => {
            let had_rules = was.rules == subject.rules;
            (had_rules, had_rules && was.parent == subject.parent)
        }
        None => (false, false),
    }
}

// The subject, unless it is passed over.
fn unless(passed: bool, subject: &Subject) -> Option<SubjectId>
    ensures { result ≡ (if passed then None else Some (id_of subject.now)) }
{
    if passed { None } else { Some(subject.id()) }
}

/// The subjects that another policy touches. Takes a look-up for each of its subjects, and a
/// comparison of its rules.
pub(crate) fn touched_between(
    alloc: Global,
    before: &Policy,
    after: &Policy,
) -> Result<Touched, AllocError>
    ensures touched { IfOk result (λ touched.
        touched ≡ renewing.touched_between before.now after.now) }
    ensures well_formed { WellFormed after.now }
{
    let mut all = Sequence::new(alloc);
    let mut rewritten = Sequence::new(alloc);
    for subject in after.subjects() {
        let (had_rules, was_alike) = was(before, subject);
        add(&mut all, unless(was_alike, subject))?;
        add(&mut rewritten, unless(had_rules, subject))?;
    }
    Ok(Touched { all, rewritten })
}

/// Whether the subject is one of these.
pub(crate) fn is_among(ids: &[SubjectId], subject: &Subject) -> bool
    ensures { result ≡ among ids.now subject.now }
{
    ids.contains(&subject.id())
}

/// Whether one of these is on a subject's chain. Takes no memory, and a look-up for each subject of
/// the chain.
pub(crate) fn has_on_chain(ids: &[SubjectId], policy: &Policy, subject: &Subject) -> bool
    ensures { result ≡ on_chain ids.now policy.now subject.now }
{
    let mut present = subject;
    'chain: for _ in 0..Policy::MAX_CHAIN {
        if is_among(ids, present) {
            return true;
        }
        match parent(policy, present) {
            Some(group) => present = group,
            None => return false,
        }
    }
    false
}

//! Levels, attributes and logins of shells that nobody may start.

use crate::question;
use basics::Sequence;
use pol_names::{Kind, SubjectId, Verdict};
use pol_text::{Policy, Subject};
use pol_words::words_of;
use std::alloc::{AllocError, Global};

fn is_among(ids: &[SubjectId], owner: &SubjectId) -> bool {
    ids.iter().any(|id| *owner == *id)
}

// Whether the subject is a user on whose chain the owner is.
fn is_user_of(
    alloc: Global,
    policy: &Policy,
    owner: &SubjectId,
    subject: &Subject,
) -> Result<bool, AllocError> {
    if subject.kind != Kind::User {
        return Ok(false);
    }
    let chain = policy.chain(alloc, &subject.id())?;
    Ok(is_among(chain.as_slice(), owner))
}

// Whether the user is permitted the empty line.
fn may_start(policy: &Policy, user: &Subject) -> Result<bool, AllocError> {
    match policy.plain_decide(&user.name, b"")? {
        Some(decision) => Ok(decision.verdict == Verdict::Permit),
        None => Ok(false),
    }
}

fn starts_for(
    alloc: Global,
    policy: &Policy,
    owner: &SubjectId,
    subject: &Subject,
) -> Result<bool, AllocError> {
    if is_user_of(alloc, policy, owner, subject)? {
        return may_start(policy, subject);
    }
    Ok(false)
}

// Whether the owner has a user.
fn has_user(alloc: Global, policy: &Policy, owner: &SubjectId) -> Result<bool, AllocError> {
    let subjects = policy.subjects();
    'subjects: for subject in subjects {
        if is_user_of(alloc, policy, owner, subject)? {
            return Ok(true);
        }
    }
    Ok(false)
}

// Whether a user of the owner may start a shell.
fn has_shell(alloc: Global, policy: &Policy, owner: &SubjectId) -> Result<bool, AllocError> {
    let subjects = policy.subjects();
    'subjects: for subject in subjects {
        if starts_for(alloc, policy, owner, subject)? {
            return Ok(true);
        }
    }
    Ok(false)
}

fn is_closed(alloc: Global, policy: &Policy, owner: &SubjectId) -> Result<bool, AllocError> {
    if has_user(alloc, policy, owner)? {
        let starts = has_shell(alloc, policy, owner)?;
        return Ok(!starts);
    }
    Ok(false)
}

// Adds the subject, if it has users and no shell of theirs may start.
fn add(
    alloc: Global,
    found: &mut Sequence<SubjectId>,
    policy: &Policy,
    subject: &Subject,
) -> Result<(), AllocError> {
    let owner = subject.id();
    if is_closed(alloc, policy, &owner)? {
        found.push(owner)?;
    }
    Ok(())
}

/// The subjects that have users, none of whom may start a shell. A look at all subjects for each.
pub(crate) fn closed(alloc: Global, policy: &Policy) -> Result<Sequence<SubjectId>, AllocError> {
    let mut found = Sequence::new(alloc);
    let subjects = policy.subjects();
    'subjects: for subject in subjects {
        add(alloc, &mut found, policy, subject)?;
    }
    Ok(found)
}

/// What is asked about a subject under which no shell starts, where it is one of these.
pub(crate) fn closed_habit(shut: &Sequence<SubjectId>, owner: &SubjectId) -> Option<&'static str> {
    if is_among(shut.as_slice(), owner) {
        return Some(question::NO_SHELL);
    }
    None
}

// Whether a line gives an attribute to the shell, by what comes after its first word.
fn gives_shell(rest: &[u8]) -> bool {
    let (service, attribute) = words_of(rest);
    service == b"shell".as_slice() && !attribute.is_empty()
}

/// What is asked about a line about services of this owner, where no shell starts under these.
pub(crate) fn shell_habit(
    shut: &Sequence<SubjectId>,
    owner: &SubjectId,
    rest: &[u8],
) -> Option<&'static str> {
    if gives_shell(rest) {
        return closed_habit(shut, owner);
    }
    None
}

// Whether the subject has a line about a service.
fn has_services(policy: &Policy, id: &SubjectId) -> bool {
    match policy.find(id) {
        Some(subject) => !subject.services.is_empty(),
        None => false,
    }
}

fn any_has_services(policy: &Policy, ids: &[SubjectId]) -> bool {
    ids.iter().any(|id| has_services(policy, id))
}

// Whether a user's login is for shells alone.
fn is_for_shells(alloc: Global, policy: &Policy, user: &Subject) -> Result<bool, AllocError> {
    if user.login.is_none() {
        return Ok(false);
    }
    let chain = policy.chain(alloc, &user.id())?;
    Ok(!any_has_services(policy, chain.as_slice()))
}

fn logs_in_for(
    alloc: Global,
    policy: &Policy,
    owner: &SubjectId,
    subject: &Subject,
) -> Result<bool, AllocError> {
    if is_user_of(alloc, policy, owner, subject)? {
        return is_for_shells(alloc, policy, subject);
    }
    Ok(false)
}

// Whether a user of the owner logs in for shells.
fn any_logs_in(alloc: Global, policy: &Policy, owner: &SubjectId) -> Result<bool, AllocError> {
    let subjects = policy.subjects();
    'subjects: for subject in subjects {
        if logs_in_for(alloc, policy, owner, subject)? {
            return Ok(true);
        }
    }
    Ok(false)
}

// Whether the parent is one of these.
fn is_below(shut: &Sequence<SubjectId>, subject: &Subject) -> bool {
    match &subject.parent {
        Some(name) => is_among(shut.as_slice(), &SubjectId::group(*name)),
        None => false,
    }
}

fn is_told(
    alloc: Global,
    policy: &Policy,
    shut: &Sequence<SubjectId>,
    subject: &Subject,
) -> Result<bool, AllocError> {
    if subject.priv_lvl.is_some() || is_below(shut, subject) {
        return Ok(false);
    }
    any_logs_in(alloc, policy, &subject.id())
}

/// What is asked about a subject whose users log in for shells that don't start. A look at all
/// subjects, where it is one of these under which none starts.
pub(crate) fn login_habit(
    alloc: Global,
    policy: &Policy,
    shut: &Sequence<SubjectId>,
    subject: &Subject,
) -> Result<Option<&'static str>, AllocError> {
    let habit = closed_habit(shut, &subject.id());
    if habit.is_none() {
        return Ok(None);
    }
    if is_told(alloc, policy, shut, subject)? {
        return Ok(habit);
    }
    Ok(None)
}

//! What a user is given for a service, and who gives it.

ghost use Rattle.std.specs.Prelude.{◌≡◌, ◌++◌, IfOk, OnOk};
ghost use Rattle.std.specs.Option.{option_copied};
ghost use Rattle.pol_text.specs.Policy.{chain, id_of};
ghost use Rattle.pol_given.specs.Granting as granting;
ghost use Rattle.pol_given.specs.Granting.{first_levelled, level_given, line_gives};
ghost use Rattle.pol_given.specs.Granting.{subject_gives};

use crate::deciding::{attribute_in, refuses, speaking};
use crate::giving::level_argument;
use crate::grant::{Given, GivenArgument, Grant};
use crate::naming::shell;
use basics::Sequence;
use pol_names::{Decision, Name, ServiceId, ServiceLine, SubjectId, Verdict};
use pol_text::{Policy, Subject};
use std::alloc::{AllocError, Global};

// The nearest level along the chain of the subject, and whose it is.
fn nearest_level(policy: &Policy, subject: &Subject) -> Option<(SubjectId, u8)>
    ensures { result ≡ first_levelled (chain policy.now subject.now) }
{
    let mut present = subject;
    'chain: for _ in 0..Policy::MAX_CHAIN {
        if let Some(level) = present.priv_lvl {
            return Some((present.id(), level));
        }
        match policy.parent_of(present) {
            Some(parent) => present = parent,
            None => return None,
        }
    }
    None
}

// Adds what carries the level of the user's shells, if there is one.
fn add_level(
    alloc: Global,
    arguments: &mut Sequence<GivenArgument>,
    policy: &Policy,
    user: &Name,
) -> Result<(), AllocError>
    ensures { OnOk result (arguments.new ≡ arguments.old ++ level_given policy.now user.now) }
{
    let Some(subject) = policy.find(&SubjectId::user(*user)) else {
        return Ok(());
    };
    let Some((owner, level)) = nearest_level(policy, subject) else {
        return Ok(());
    };
    let argument = level_argument(alloc, level)?;
    arguments.push(GivenArgument { owner, argument })?;
    Ok(())
}

// Adds the attribute that the subject's line gives to the service, if it gives one.
fn add_attribute(
    alloc: Global,
    arguments: &mut Sequence<GivenArgument>,
    subject: &Subject,
    line: &ServiceLine,
    service: &ServiceId,
) -> Result<(), AllocError>
    ensures { OnOk result (arguments.new
        ≡ arguments.old ++ line_gives (id_of subject.now) service.now line.now) }
{
    let Some(attribute) = attribute_in(line, service) else {
        return Ok(());
    };
    let argument = attribute.copy(alloc)?;
    let owner = subject.id();
    arguments.push(GivenArgument { owner, argument })?;
    Ok(())
}

// Adds the attributes that the subject gives to the service.
fn add_attributes(
    alloc: Global,
    arguments: &mut Sequence<GivenArgument>,
    subject: &Subject,
    service: &ServiceId,
) -> Result<(), AllocError>
    ensures { OnOk result (arguments.new
        ≡ arguments.old ++ subject_gives service.now subject.now) }
{
    for line in subject.services.as_slice() {
        add_attribute(alloc, arguments, subject, line, service)?;
    }
    Ok(())
}

// What a permitted shell is given.
fn shell_given(
    alloc: Global,
    policy: &Policy,
    user: &Name,
    decision: Decision,
) -> Result<Given, AllocError>
    ensures { IfOk result (λ given.
        given ≡ granting.shell_given policy.now user.now decision decision.verdict) }
{
    let mut given = Given::nothing(alloc, Grant::Decided(decision));
    if decision.verdict == Verdict::Deny {
        return Ok(given);
    }
    add_level(alloc, &mut given.arguments, policy, user)?;
    let service = shell();
    if let Some(owner) = speaking(policy, user, &service) {
        add_attributes(alloc, &mut given.arguments, owner, &service)?;
    }
    Ok(given)
}

// What is given for another service by the subject that decides on it, if there is one.
fn service_given(
    alloc: Global,
    owner: Option<&Subject>,
    service: &ServiceId,
) -> Result<Given, AllocError>
    ensures { IfOk result (λ given.
        given ≡ granting.service_given service.now (option_copied owner.entry)) }
{
    let Some(owner) = owner else {
        return Ok(Given::nothing(alloc, Grant::Unserved));
    };
    if refuses(owner, service) {
        return Ok(Given::nothing(alloc, Grant::Refused(owner.id())));
    }
    let mut given = Given::nothing(alloc, Grant::Granted(owner.id()));
    add_attributes(alloc, &mut given.arguments, owner, service)?;
    Ok(given)
}

// What the user is given for the service where this is decided of the empty line.
fn grant(
    alloc: Global,
    policy: &Policy,
    user: &Name,
    service: &ServiceId,
    decision: Option<Decision>,
) -> Result<Given, AllocError>
    ensures { IfOk result (λ given.
        given ≡ granting.given policy.now user.now service.now decision) }
{
    let Some(decision) = decision else {
        return Ok(Given::nothing(alloc, Grant::UnknownUser));
    };
    if *service == shell() {
        return shell_given(alloc, policy, user, decision);
    }
    service_given(alloc, speaking(policy, user, service), service)
}

/// What the user is given for the service, and who gives it, where the policy decides so of the
/// user's empty command line, which asks for a shell. There is no decision exactly where there is
/// no such user. Linear in the lines about services along the user's chain. The error means that
/// memory ran out.
pub fn given(
    alloc: Global,
    policy: &Policy,
    user: &Name,
    service: &ServiceId,
    decision: Option<Decision>,
) -> Result<Given, AllocError>
    ensures exact { IfOk result (λ given.
        given ≡ granting.given policy.now user.now service.now decision) }

    // What is told is what a device is sent.
    ensures sent { IfOk result (λ given.
        granting.texts given ≡ granting.sent policy.now user.now service.now decision) }
{
    grant(alloc, policy, user, service, decision)
}

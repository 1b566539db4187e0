//! What a user is given for a service, by whoever decides on it.

ghost use Rattle.std.specs.Prelude.{◌≡◌, ◌≤◌, ◌+◌, ◌++◌, [], is_some, Some, false, length, All};
ghost use Rattle.std.specs.Prelude.{IsOk, IfOk, OnOk};
ghost use Rattle.std.specs.List.{list_any};
ghost use Rattle.std.specs.Option.{option_copied};
ghost use Rattle.pol_given.specs.Given as given;
ghost use Rattle.pol_given.specs.Given.{attributes_of};
ghost use Rattle.pol_text.specs.Policy.{max_services};
ghost use Rattle.tac_request.specs.Arguments.{level_arguments};
ghost use Rattle.tac_desk.specs.Asking as asking;
ghost use Rattle.tac_desk.specs.Asking.{gives_arguments};

use pol_given::{attribute_in, refuses, service_named, speaking};
use pol_names::{Name, ServiceId, ServiceLine};
use pol_text::{Policy, Subject};
use std::alloc::{AllocError, Global};
use tac_conn::{Answer, Arguments};
use tac_request::level_argument;

// Whether the line gives an attribute to the service.
fn gives(line: &ServiceLine, service: &ServiceId) -> bool
    ensures { result ≡ is_some (given.attribute_in service.now line.now) }
{
    attribute_in(line, service).is_some()
}

/// Whether the subject gives any attribute to the service. Takes no memory.
pub(crate) fn gives_any(subject: &Subject, service: &ServiceId) -> bool
    ensures { result ≡ list_any (λ line. is_some (given.attribute_in service.now line))
        subject.now.services }
{
    subject
        .services
        .as_slice()
        .iter()
        .any(|line| gives(line, service))
}

/// Adds the argument that carries the level, if there is one. The error means that memory ran out.
pub(crate) fn push_level(arguments: &mut Arguments, level: Option<u8>) -> Result<(), AllocError>
    requires { arguments.old ≡ [] }
    ensures { OnOk result (arguments.new ≡ level_arguments level) }
{
    match level {
        Some(level) => arguments.push(level_argument(level).as_slice()),
        None => Ok(()),
    }
}

/// Adds the attributes that the subject gives to the service, in the order of its lines. The error
/// means that memory ran out; some of them may have been added then.
pub(crate) fn push_attributes(
    arguments: &mut Arguments,
    subject: &Subject,
    service: &ServiceId,
) -> Result<(), AllocError>
    requires few { length arguments.old + length (attributes_of service.now subject.now) ≤ 255 }
    requires short { All (λ text. length text ≤ 255) (attributes_of service.now subject.now) }
    ensures ok { OnOk result
        (arguments.new ≡ arguments.old ++ attributes_of service.now subject.now) }
    ensures sure { attributes_of service.now subject.now ≡ [] → IsOk result }
{
    for line in subject.services.as_slice() {
        if let Some(attribute) = attribute_in(line, service) {
            arguments.push(attribute.as_slice())?;
        }
    }
    Ok(())
}

// What the subject gives to the service, on which it decides.
fn served_by(alloc: Global, owner: &Subject, service: &ServiceId) -> Result<Answer, AllocError>
    requires few { length (attributes_of service.now owner.now) ≤ max_services }
    requires short { All (λ text. length text ≤ 255) (attributes_of service.now owner.now) }
    ensures answer { IfOk result (λ answer.
        answer ≡ asking.served_by service.now (Some owner.now)) }
    ensures sure { gives_arguments (asking.served_by service.now (Some owner.now)) ≡ false
        → IsOk result }
{
    if refuses(owner, service) {
        return Ok(Answer::Refused(owner.id()));
    }
    let mut arguments = Arguments::new(alloc);
    push_attributes(&mut arguments, owner, service)?;
    Ok(Answer::Granted(arguments))
}

/// What the user of this name is given for the service, perhaps with a protocol. Looks at the lines
/// about services along the user's chain, and takes memory only for attributes. The error means
/// that memory ran out.
pub(crate) fn service_answer(
    alloc: Global,
    policy: &Policy,
    user: &[u8],
    service: &[u8],
    protocol: Option<&[u8]>,
) -> Result<Answer, AllocError>
    ensures answer { IfOk result (λ answer. answer ≡ asking.service_answer
        policy.now user.now service.now (option_copied protocol.entry)) }
    ensures sure { gives_arguments (asking.service_answer
        policy.now user.now service.now (option_copied protocol.entry)) ≡ false → IsOk result }
{
    let Some(user) = Name::read(user) else {
        return Ok(Answer::Unserved);
    };
    let Some(service) = service_named(service, protocol) else {
        return Ok(Answer::Unserved);
    };
    match speaking(policy, &user, &service) {
        Some(owner) => served_by(alloc, owner, &service),
        None => Ok(Answer::Unserved),
    }
}

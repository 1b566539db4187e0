//! What a user is given for a service, as a list of arguments.

ghost use Rattle.std.specs.Prelude.{◌≡◌, ◌++◌, IfOk, OnOk};
ghost use Rattle.pol_given.specs.Given as given;
ghost use Rattle.pol_given.specs.Given.{attributes_of};

use crate::deciding::{attribute_in, refuses, speaking};
use crate::naming::shell;
use basics::{Bytes, Sequence};
use itoa::Buffer;
use pol_names::{Name, ServiceId, SubjectId};
use pol_text::{Policy, Subject};
use std::alloc::{AllocError, Global};

// The name and the sign of the argument that carries a level.
const LEVEL_NAME: &[u8] = b"priv-lvl=";

/// The argument that carries a privilege level (RFC 8907, section 8.2): its name and sign, and the
/// digits. The error means that memory ran out.
pub fn level_argument(alloc: Global, level: u8) -> Result<Bytes, AllocError>
    ensures { IfOk result (λ argument. argument ≡ given.level_argument level) }
{
    let mut argument = Bytes::from_slice(alloc, LEVEL_NAME)?;
    argument.extend_from_slice(Buffer::new().format(level).as_bytes())?;
    Ok(argument)
}

// Adds the argument that carries the level, if there is one.
fn push_level(
    alloc: Global,
    arguments: &mut Sequence<Bytes>,
    level: Option<u8>,
) -> Result<(), AllocError>
    ensures { OnOk result (arguments.new ≡ arguments.old ++ given.level_arguments level) }
{
    if let Some(level) = level {
        let argument = level_argument(alloc, level)?;
        arguments.push(argument)?;
    }
    Ok(())
}

// Adds the attributes that the subject gives to the service, in the order of its lines.
fn push_attributes(
    alloc: Global,
    arguments: &mut Sequence<Bytes>,
    subject: &Subject,
    service: &ServiceId,
) -> Result<(), AllocError>
    ensures { OnOk result
        (arguments.new ≡ arguments.old ++ attributes_of service.now subject.now) }
{
    for line in subject.services.as_slice() {
        if let Some(attribute) = attribute_in(line, service) {
            let copy = attribute.copy(alloc)?;
            arguments.push(copy)?;
        }
    }
    Ok(())
}

/// The arguments that a user is given for a service other than a shell, by whoever decides on it;
/// `None` where it isn't granted. Looks at each line about services along the chain. The error
/// means that memory ran out.
pub fn service_arguments(
    alloc: Global,
    policy: &Policy,
    user: &Name,
    service: &ServiceId,
) -> Result<Option<Sequence<Bytes>>, AllocError>
    ensures { IfOk result (λ arguments.
        arguments ≡ given.service_arguments policy.now user.now service.now) }
{
    let Some(owner) = speaking(policy, user, service) else {
        return Ok(None);
    };
    if refuses(owner, service) {
        return Ok(None);
    }
    let mut arguments = Sequence::new(alloc);
    push_attributes(alloc, &mut arguments, owner, service)?;
    Ok(Some(arguments))
}

/// The arguments of a user's shell, where the rules permit one: the level, and then the attributes
/// by whoever decides on those. The error means that memory ran out.
pub fn shell_arguments(
    alloc: Global,
    policy: &Policy,
    user: &Name,
) -> Result<Sequence<Bytes>, AllocError>
    ensures { IfOk result (λ arguments.
        arguments ≡ given.shell_arguments policy.now user.now) }
{
    let mut arguments = Sequence::new(alloc);
    push_level(
        alloc,
        &mut arguments,
        policy.level_of(&SubjectId::user(*user)),
    )?;
    let service = shell();
    if let Some(owner) = speaking(policy, user, &service) {
        push_attributes(alloc, &mut arguments, owner, &service)?;
    }
    Ok(arguments)
}

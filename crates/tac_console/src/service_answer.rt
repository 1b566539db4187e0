//! How it is told what a change of the policy gives users for services.

ghost use Rattle.std.specs.Prelude.{◌≡◌, ◌++◌, OnOk};
ghost use Rattle.tac_console.specs.ServiceAnswers as answers;

use basics::Bytes;
use pol_meaning::ServiceChange;
use std::io;
use std::io::Write;

// Whether the argument is one of these.
fn has(arguments: &[Bytes], argument: &Bytes) -> bool
    ensures { result ≡ answers.has arguments.now argument.now }
{
    arguments
        .iter()
        .any(|other| argument.as_slice() == other.as_slice())
}

// Whether all of the others are among these.
fn has_all(arguments: &[Bytes], others: &[Bytes]) -> bool
    ensures { result ≡ answers.has_all arguments.now others.now }
{
    others.iter().all(|other| has(arguments, other))
}

// The user, the service, and what is said of it: `what`, and then the argument.
fn write_said(
    out: &mut Vec<u8>,
    change: &ServiceChange,
    what: &str,
    argument: &[u8],
) -> io::Result<()>
    ensures { OnOk result (out.new.items
        ≡ out.old.items ++ answers.said_line change.now (what.now ++ argument.now)) }
{
    let ServiceChange { user, service, .. } = change;
    write!(out, "user {user} service {service}{what}")?;
    out.extend_from_slice(argument)?;
    out.push(b'\n')?;
    Ok(())
}

// A line for the argument, unless the others have it.
fn write_unless_had(
    out: &mut Vec<u8>,
    change: &ServiceChange,
    what: &str,
    others: &[Bytes],
    argument: &Bytes,
) -> io::Result<()>
    ensures { OnOk result (out.new.items
        ≡ out.old.items ++ answers.unless_had change.now what.now others.now argument.now) }
{
    if has(others, argument) {
        return Ok(());
    }
    write_said(out, change, what, argument.as_slice())
}

// Lines for the arguments that the others don't have.
fn write_without(
    out: &mut Vec<u8>,
    change: &ServiceChange,
    what: &str,
    others: &[Bytes],
    arguments: &[Bytes],
) -> io::Result<()>
    ensures { OnOk result (out.new.items
        ≡ out.old.items ++ answers.without change.now what.now others.now arguments.now) }
{
    'arguments: for argument in arguments {
        write_unless_had(out, change, what, others, argument)?;
    }
    Ok(())
}

// What is given now, and what is no longer.
fn write_regiven(
    out: &mut Vec<u8>,
    change: &ServiceChange,
    was: &[Bytes],
    is: &[Bytes],
) -> io::Result<()>
    ensures { OnOk result (out.new.items
        ≡ out.old.items ++ answers.regiven_lines change.now was.now is.now) }
{
    if has_all(was, is) && has_all(is, was) {
        return write_said(out, change, " gives the same in another order", b"");
    }
    write_without(out, change, " now gives: ", was, is)?;
    write_without(out, change, " no longer gives: ", is, was)
}

/// Adds what is told of a user and a service for which something changes: a line that it is
/// granted or refused now, and a line for each argument that is given now or no longer. Compares
/// each argument with each other one. The error means that memory ran out.
pub(crate) fn write_service_change(out: &mut Vec<u8>, change: &ServiceChange) -> io::Result<()>
    ensures { OnOk result
        (out.new.items ≡ out.old.items ++ answers.service_lines change.now) }
{
    match (&change.was, &change.is) {
        (Some(was), Some(is)) => write_regiven(out, change, was.as_slice(), is.as_slice()),
        (Some(_), None) => write_said(out, change, " now refused", b""),
        (None, Some(is)) => {
            write_said(out, change, " now granted", b"")?;
            write_without(out, change, " now gives: ", &[], is.as_slice())
        }
        (None, None) => Ok(()),
    }
}

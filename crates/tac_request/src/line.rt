//! The command line that a request is about, and what it asks for.

ghost use Rattle.std.specs.Prelude.{◌≡◌, ◌++◌, IfOk, OnOk, OnErr, slice_get};
ghost use Rattle.std.specs.Option.{option_copied};
ghost use Rattle.std.specs.List.{flat_map, list_all};
ghost use Rattle.tac_request.specs.Line.{has_sign, value_under as value_of, values_under, spaced};
ghost use Rattle.tac_request.specs.Line.{IsLine, line_of, HasText};
ghost use Rattle.tac_request.specs.Line as line;
ghost use Rattle.tac_request.specs.Record.{command_of};

use crate::argument::split_arg;
use basics::Bytes;
use std::alloc::{AllocError, Global};

const CMD: &[u8] = b"cmd";

const CMD_ARG: &[u8] = b"cmd-arg";

const SERVICE: &[u8] = b"service";

const SHELL: &[u8] = b"shell";

/// What the arguments of a request make.
#[derive(Debug, Drop)]
pub enum LineOf {
    /// The command line of a shell.
    Line(Bytes),
    /// An argument has neither `=` nor `*`.
    BadArgument,
    /// The request is about no command of a shell.
    NotShell,
}

/// What an authorisation request asks for.
#[derive(Debug, Drop)]
pub enum Requested {
    /// The command line of a shell.
    Shell(Bytes),
    /// Another service, and perhaps a protocol of it. Both may be any bytes.
    Other {
        service: Bytes,
        protocol: Option<Bytes>,
    },
    /// An argument has neither `=` nor `*`.
    NoSign,
    /// No service is named, or a shell without a command.
    NoService,
}

// Whether each argument has a sign.
fn are_arguments(args: &[Bytes]) -> bool
    ensures { result ≡ list_all has_sign args.now }
{
    args.iter().all(|arg| split_arg(arg.as_slice()).is_some())
}

// The value of an argument, if it has this name.
fn value_under<'a>(argument: &'a [u8], name: &[u8]) -> Option<&'a [u8]>
    ensures { option_copied result ≡ value_of name.now argument.now }
{
    match split_arg(argument) {
        Some(arg) if arg.name == name => Some(arg.value),
        _ => None,
    }
}

// The value of the first argument with this name.
pub(crate) fn first_value<'a>(args: &'a [Bytes], name: &[u8]) -> Option<&'a [u8]>
    ensures { option_copied result ≡ slice_get (values_under name.now args.now) 0 }
{
    for argument in args {
        if let Some(value) = value_under(argument.as_slice(), name) {
            return Some(value);
        }
    }
    None
}

// Adds a space and the value of each `cmd-arg`.
fn add_cmd_args(line: &mut Bytes, args: &[Bytes]) -> Result<(), AllocError>
    ensures { OnOk result
        (line.new ≡ line.old ++ flat_map spaced (values_under CMD_ARG.now args.now)) }
{
    for argument in args {
        if let Some(value) = value_under(argument.as_slice(), CMD_ARG) {
            line.push(b' ')?;
            line.extend_from_slice(value)?;
        }
    }
    Ok(())
}

// The line of this command and of each `cmd-arg`.
fn joined(alloc: Global, cmd: &[u8], args: &[Bytes]) -> Result<Bytes, AllocError>
    ensures { IfOk result
        (λ joined. joined ≡ line.joined cmd.now (values_under CMD_ARG.now args.now)) }
{
    let mut line = Bytes::from_slice(alloc, cmd)?;
    add_cmd_args(&mut line, args)?;
    Ok(line)
}

/// The command line that a request's arguments make (RFC 8907, section 8.2): the value of the first
/// `cmd`, and for each `cmd-arg` a space and its value. The error means that memory ran out.
pub fn request_line(alloc: Global, args: &[Bytes]) -> Result<LineOf, AllocError>
    ensures value { IfOk result (λ line. line ≡ line_of args.now) }
    // Only a line takes memory.
    ensures memory { OnErr result (IsLine (line_of args.now)) }
{
    if !are_arguments(args) {
        return Ok(LineOf::BadArgument);
    }
    let Some(service) = first_value(args, SERVICE) else {
        return Ok(LineOf::NotShell);
    };
    if service != SHELL {
        return Ok(LineOf::NotShell);
    }
    let Some(cmd) = first_value(args, CMD) else {
        return Ok(LineOf::NotShell);
    };
    let line = joined(alloc, cmd, args)?;
    Ok(LineOf::Line(line))
}

// The line that the arguments of a record make: that of the first `cmd`, whatever the service is.
pub(crate) fn command_line(alloc: Global, args: &[Bytes]) -> Result<Option<Bytes>, AllocError>
    ensures { IfOk result (λ line. line ≡ command_of args.now) }
{
    if !are_arguments(args) {
        return Ok(None);
    }
    let Some(cmd) = first_value(args, CMD) else {
        return Ok(None);
    };
    let line = joined(alloc, cmd, args)?;
    Ok(Some(line))
}

// The protocol that an argument names, where that isn't empty.
fn protocol_in(argument: &[u8]) -> Option<&[u8]>
    ensures { option_copied result ≡ line.protocol_in argument.now }
{
    match value_under(argument, b"protocol") {
        Some([]) | None => None,
        Some(value) => Some(value),
    }
}

// The first of them.
fn first_protocol(args: &[Bytes]) -> Option<&[u8]>
    ensures { option_copied result ≡ line.protocol_of args.now }
{
    for argument in args {
        if let Some(protocol) = protocol_in(argument.as_slice()) {
            return Some(protocol);
        }
    }
    None
}

// A copy of a text, where there is one.
fn copied(alloc: Global, text: Option<&[u8]>) -> Result<Option<Bytes>, AllocError>
    ensures { IfOk result (λ copy. copy ≡ option_copied text.entry) }
{
    match text {
        Some(text) => {
            let copy = Bytes::from_slice(alloc, text)?;
            Ok(Some(copy))
        }
        None => Ok(None),
    }
}

// The service that is asked for where no line is.
fn other_service(alloc: Global, args: &[Bytes]) -> Result<Requested, AllocError>
    ensures value { let first = slice_get (values_under SERVICE.now args.now) 0 in
        IfOk result (λ asked. asked ≡ line.without_line first (line.protocol_of args.now)) }
    ensures memory { let first = slice_get (values_under SERVICE.now args.now) 0 in
        OnErr result (HasText (line.without_line first (line.protocol_of args.now))) }
{
    let Some(service) = first_value(args, SERVICE) else {
        return Ok(Requested::NoService);
    };
    if service == SHELL {
        return Ok(Requested::NoService);
    }
    let service = Bytes::from_slice(alloc, service)?;
    let protocol = copied(alloc, first_protocol(args))?;
    Ok(Requested::Other { service, protocol })
}

/// What the arguments of an authorisation request ask for (RFC 8907, sections 6.1 and 8.2): the
/// line of a shell, as [`request_line`] makes it, or the first `service`, if that isn't a shell,
/// with the first `protocol` that isn't empty. The error means that memory ran out.
pub fn asked_for(alloc: Global, args: &[Bytes]) -> Result<Requested, AllocError>
    ensures value { IfOk result (λ asked. asked ≡ line.requested args.now) }
    // Only what has a text takes memory.
    ensures memory { OnErr result (HasText (line.requested args.now)) }
{
    match request_line(alloc, args)? {
        LineOf::Line(line) => Ok(Requested::Shell(line)),
        LineOf::BadArgument => Ok(Requested::NoSign),
        LineOf::NotShell => other_service(alloc, args),
    }
}

//! The arguments by which something is asked.

ghost use Rattle.std.specs.Prelude.{◌≡◌, ◌++◌, ◌∷◌, [], map, IfOk, OnOk};
ghost use Rattle.std.specs.Option.{option_copied};
ghost use Rattle.tac_ask.specs.Arguments as asked;

use basics::{Bytes, Sequence};
use std::alloc::{AllocError, Global};

const SHELL_SERVICE: &[u8] = b"service=shell";

const CMD: &[u8] = b"cmd=";

const CMD_ARG: &[u8] = b"cmd-arg=";

// Adds the argument that has this name with its sign, and this value.
fn add(
    args: &mut Sequence<Bytes>,
    alloc: Global,
    name: &[u8],
    value: &[u8],
) -> Result<(), AllocError>
    ensures { OnOk result (args.new ≡ args.old ++ (name.now ++ value.now) ∷ []) }
{
    let mut argument = Bytes::from_slice(alloc, name)?;
    argument.extend_from_slice(value)?;
    args.push(argument)?;
    Ok(())
}

// Adds one for each of these values.
fn add_each(
    args: &mut Sequence<Bytes>,
    alloc: Global,
    name: &[u8],
    values: &[Bytes],
) -> Result<(), AllocError>
    ensures { OnOk result (args.new ≡ args.old ++ map (λ it. name.now ++ it) values.now) }
{
    for value in values {
        add(args, alloc, name, value.as_slice())?;
    }
    Ok(())
}

// Adds a copy of each of these.
fn add_copies(args: &mut Sequence<Bytes>, alloc: Global, texts: &[Bytes]) -> Result<(), AllocError>
    ensures { OnOk result (args.new ≡ args.old ++ texts.now) }
{
    for text in texts {
        args.push(text.copy(alloc)?)?;
    }
    Ok(())
}

// Adds those of a line, or of a shell where there is no word.
fn add_command(args: &mut Sequence<Bytes>, alloc: Global, words: &[Bytes]) -> Result<(), AllocError>
    ensures { OnOk result (args.new ≡ args.old ++ asked.command_arguments words.now) }
{
    add(args, alloc, SHELL_SERVICE, b"")?;
    let Some((command, rest)) = words.split_first() else {
        return add(args, alloc, CMD, b"");
    };
    add(args, alloc, CMD, command.as_slice())?;
    add_each(args, alloc, CMD_ARG, rest)
}

/// The arguments that ask whether a user may give the line of these words, or without a word
/// whether he gets a shell (RFC 8907, section 8.2). The error means that memory ran out.
pub fn command_arguments(alloc: Global, words: &[Bytes]) -> Result<Sequence<Bytes>, AllocError>
    ensures { IfOk result (λ args. args ≡ asked.command_arguments words.now) }
{
    let mut args = Sequence::new(alloc);
    add_command(&mut args, alloc, words)?;
    Ok(args)
}

// Adds the one that names a protocol, if there is one.
fn add_protocol(
    args: &mut Sequence<Bytes>,
    alloc: Global,
    protocol: Option<&[u8]>,
) -> Result<(), AllocError>
    ensures { OnOk result
        (args.new ≡ args.old ++ asked.protocol_argument (option_copied protocol.entry)) }
{
    match protocol {
        Some(protocol) => add(args, alloc, b"protocol=", protocol),
        None => Ok(()),
    }
}

/// The arguments that ask what a user is given for a service (RFC 8907, section 8.2): its name, a
/// protocol of it, if there is one, and attributes as they are. The error means that memory ran
/// out.
pub fn service_arguments(
    alloc: Global,
    service: &[u8],
    protocol: Option<&[u8]>,
    attributes: &[Bytes],
) -> Result<Sequence<Bytes>, AllocError>
    ensures { let named = option_copied protocol.entry in IfOk result
        (λ args. args ≡ asked.service_arguments service.now named attributes.now) }
{
    let mut args = Sequence::new(alloc);
    add(&mut args, alloc, b"service=", service)?;
    add_protocol(&mut args, alloc, protocol)?;
    add_copies(&mut args, alloc, attributes)?;
    Ok(args)
}

/// The arguments of a record of the task with this id (RFC 8907, section 8.3): one of the line of
/// these words, or without a word of a shell. The error means that memory ran out.
pub fn record_arguments(
    alloc: Global,
    task: &[u8],
    words: &[Bytes],
) -> Result<Sequence<Bytes>, AllocError>
    ensures { IfOk result (λ args. args ≡ asked.record_arguments task.now words.now) }
{
    let mut args = Sequence::new(alloc);
    add(&mut args, alloc, b"task_id=", task)?;
    if words.is_empty() {
        add(&mut args, alloc, SHELL_SERVICE, b"")?;
        return Ok(args);
    }
    add_command(&mut args, alloc, words)?;
    Ok(args)
}

//! How an answer is printed.

ghost use Rattle.std.specs.Prelude.{◌≡◌, ◌<◌, ◌++◌, true, false, IfOk, OnOk};
ghost use Rattle.std.specs.List.{flat_map, list_any};
ghost use Rattle.std.specs.Fmt.{digit_glyph};
ghost use Rattle.basics.specs.Symbol.{is_text};
ghost use Rattle.tac_ask.specs.Answer as answers;

use crate::reply::ReplyFields;
use basics::{Bytes, is_symbol};
use std::alloc::{AllocError, Global};

// Whether the byte represents itself, where this one doesn't.
fn is_plain(also: u8, byte: u8) -> bool
    ensures { result ≡ answers.is_plain also byte }
{
    is_symbol(byte) && byte != b'\\' && byte != also
}

fn hex_digit(value: u8) -> u8
    requires { value < 16 }
    ensures { result ≡ digit_glyph false value }
{
    if value < 10 {
        b'0' + value
    } else {
        b'a' + (value - 10)
    }
}

fn add_byte(out: &mut Vec<u8>, also: u8, byte: u8) -> Result<(), AllocError>
    ensures { OnOk result (out.new.items ≡ out.old.items ++ answers.shown_byte also byte) }
{
    if is_plain(also, byte) {
        out.push(byte)?;
        return Ok(());
    }
    let shown = [b'\\', b'x', hex_digit(byte / 16), hex_digit(byte % 16)];
    out.extend_from_slice(&shown)
}

fn add_escaped(out: &mut Vec<u8>, also: u8, text: &[u8]) -> Result<(), AllocError>
    ensures { OnOk result (out.new.items ≡ out.old.items ++ answers.escaped also text.now) }
{
    'bytes: for byte in text {
        add_byte(out, also, *byte)?;
    }
    Ok(())
}

fn has_blank(text: &[u8]) -> bool
    ensures { result ≡ list_any answers.is_blank text.now }
{
    text.iter().any(|byte| *byte == b' ')
}

fn add_argument(out: &mut Vec<u8>, argument: &[u8]) -> Result<(), AllocError>
    ensures { OnOk result (out.new.items ≡ out.old.items ++ answers.shown_argument argument.now) }
{
    out.push(b' ')?;
    if has_blank(argument) {
        out.push(b'\'')?;
        add_escaped(out, b'\'', argument)?;
        out.push(b'\'')?;
        return Ok(());
    }
    add_escaped(out, b'\'', argument)
}

fn add_arguments(out: &mut Vec<u8>, arguments: &[Bytes]) -> Result<(), AllocError>
    ensures { OnOk result
        (out.new.items ≡ out.old.items ++ flat_map answers.shown_argument arguments.now) }
{
    'arguments: for argument in arguments {
        add_argument(out, argument.as_slice())?;
    }
    Ok(())
}

// What comes before the message.
fn message_mark(arguments: &[Bytes]) -> &'static [u8]
    ensures { result.now ≡ answers.message_mark arguments.now }
{
    if arguments.is_empty() {
        b" ".as_slice()
    } else {
        b"; message ".as_slice()
    }
}

// Adds a text with what comes before it, unless it is empty.
fn add_marked(out: &mut Vec<u8>, mark: &[u8], text: &[u8]) -> Result<(), AllocError>
    ensures { OnOk result (out.new.items ≡ out.old.items ++ answers.marked_text mark.now text.now) }
{
    if text.is_empty() {
        return Ok(());
    }
    out.extend_from_slice(mark)?;
    add_escaped(out, b'\\', text)
}

// The line.
fn told(alloc: Global, name: &str, reply: &ReplyFields) -> Result<Vec<u8>, AllocError>
    ensures { IfOk result (λ line. line.items ≡ answers.answer_line name.now reply.now) }
{
    let args = reply.args.as_slice();
    let mut line = Vec::from_slice(alloc, name.as_bytes())?;
    add_arguments(&mut line, args)?;
    add_marked(&mut line, message_mark(args), reply.server_msg.as_slice())?;
    add_marked(&mut line, b"; data ", reply.extra.as_slice())?;
    line.push(b'\n')?;
    Ok(line)
}

/// The line that tells of a reply, with its LF: the name of the status, the arguments, the
/// server_msg and the data. The error means that memory ran out.
pub fn answer_line(alloc: Global, name: &str, reply: &ReplyFields) -> Result<Vec<u8>, AllocError>
    ensures exact { IfOk result (λ line. line.items ≡ answers.answer_line name.now reply.now) }
    // Whatever the server sends, no control character is printed but the LF at the end.
    ensures symbols { is_text name.now ≡ true → answers.HasBytes reply.now →
        IfOk result (λ line. answers.IsLineOfSymbols line.items) }
{
    told(alloc, name, reply)
}

//! Cases as text: a call, the bytes that it is given, and what it answers.

use crate::wire::accounting::{accounting_reply, accounting_request, kind, record, user};
use crate::wire::authentication::{authentication_reply, continuation, start};
use crate::wire::doors::{came, said};
use crate::wire::requests::{argument, asked, authorisation_reply, authorisation_request, line};
use crate::wire::wire::{key, pad};
use basics::{Bytes, is_text};
use std::alloc::Global;
use std::fmt::{Debug, Write};
use std::process::Abort;
use std::test::Fail;

/// The bytes that a text spells: hexadecimal digits in pairs, and symbols in quotes.
pub(crate) fn bytes(alloc: Global, text: &str) -> Result<Bytes, Fail> {
    Ok(Bytes::from(packet_notation::bytes(alloc, text)?))
}

// Adds a blank and the field, spelled as `bytes` reads it: in quotes where it is a text.
fn push_field(text: &mut String, field: &[u8]) -> Result<(), Fail> {
    if is_text(field) {
        let symbols = str::from_utf8(field)?;
        write!(text, " '{symbols}'")?;
        return Ok(());
    }
    text.push(' ')?;
    for byte in field {
        write!(text, "{byte:02x}")?;
    }
    Ok(())
}

fn push_fields(text: &mut String, fields: &[&[u8]]) -> Result<(), Fail> {
    for field in fields {
        push_field(text, field)?;
    }
    Ok(())
}

fn push_arguments(text: &mut String, arguments: &[Bytes]) -> Result<(), Fail> {
    for argument in arguments {
        push_field(text, argument.as_slice())?;
    }
    Ok(())
}

fn push_numbers(text: &mut String, numbers: &[u32]) -> Result<(), Fail> {
    for number in numbers {
        write!(text, " {number}")?;
    }
    Ok(())
}

// Adds all three, each after a blank.
fn push_shown(
    text: &mut String,
    numbers: &[u32],
    fields: &[&[u8]],
    arguments: &[Bytes],
) -> Result<(), Fail> {
    push_numbers(text, numbers)?;
    push_fields(text, fields)?;
    push_arguments(text, arguments)
}

/// An answer of numbers, fields and arguments, each after a blank.
pub(crate) fn shown(
    alloc: Global,
    numbers: &[u32],
    fields: &[&[u8]],
    arguments: &[Bytes],
) -> Result<String, Fail> {
    let mut text = String::new(alloc);
    push_shown(&mut text, numbers, fields, arguments)?;
    Ok(text)
}

/// An answer of one word, for whatever has none of those.
pub(crate) fn told<W: Debug + Drop>(alloc: Global, word: W) -> Result<String, Fail> {
    let text = format!(in alloc; " {word:?}")?;
    Ok(text)
}

fn answer(alloc: Global, call: &str, given: &str) -> Result<String, Fail> {
    match call {
        "start" => start(alloc, given),
        "continue" => continuation(alloc, given),
        "authentication-reply" => authentication_reply(alloc, given),
        "authorisation" => authorisation_request(alloc, given),
        "authorisation-reply" => authorisation_reply(alloc, given),
        "argument" => argument(alloc, given),
        "line" => line(alloc, given),
        "asked" => asked(alloc, given),
        "accounting" => accounting_request(alloc, given),
        "accounting-reply" => accounting_reply(alloc, given),
        "kind" => kind(alloc, given),
        "record" => record(alloc, given),
        "user" => user(alloc, given),
        "key" => key(alloc, given),
        "pad" => pad(alloc, given),
        "came" => came(alloc, given),
        "said" => said(alloc, given),
        _ => Err(Fail::from("no such call")),
    }
}

// One line of the cases.
fn is_answered<R: Abort + AllocGlobal>(rt: &R, line: &str) -> Result<(), Fail> {
    let (asked, wanted) = line.split_once(" =").ok_or("no answer is wanted")?;
    let (call, given) = asked.split_once(' ').unwrap_or((asked, ""));
    let found = answer(rt.alloc(), call, given)?;
    assert_eq!(rt; found.as_str(), wanted, "by {asked}");
    Ok(())
}

/// Compares what each line's call answers with what follows its ` =`. A line that begins with
/// `#` is a comment.
pub(crate) fn answers<R: Abort + AllocGlobal>(rt: &R, text: &str) -> Result<(), Fail> {
    for line in text.lines() {
        let line = line.trim_start();
        if !line.is_empty() && !line.starts_with('#') {
            is_answered(rt, line)?;
        }
    }
    Ok(())
}

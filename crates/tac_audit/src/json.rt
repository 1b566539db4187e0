//! Texts, lists of texts and members of objects as JSON (RFC 8259).

ghost use Rattle.std.specs.Prelude.{◌≡◌, ◌<◌, ◌≤◌, ◌-◌, ◌++◌, ◌∷◌, [], length, take, true, false};
ghost use Rattle.std.specs.Prelude.{IfOk, OnOk};
ghost use Rattle.std.specs.List.{flat_map};
ghost use Rattle.std.specs.Option.{option_copied};
ghost use Rattle.std.specs.Fmt.{decimal, digit_glyph};
ghost use Rattle.tac_audit.specs.Json as json;

use basics::Bytes;
use std::alloc::AllocError;
use std::io;
use std::io::Write;

/// A hexadecimal digit, in lower case.
pub(crate) fn hex_digit(value: u8) -> u8
    requires { value < 16 }
    ensures { result ≡ digit_glyph false value }
{
    if value < 10 {
        b'0' + value
    } else {
        b'a' + (value - 10)
    }
}

// Whether a byte is a control character.
fn is_control(byte: u8) -> bool
    ensures { result ≡ json.is_control byte }
{
    byte < 0x20 || 0x7E < byte && byte < 0xA0
}

// Whether a byte is shown as itself.
fn is_plain(byte: u8) -> bool
    ensures { result ≡ true → json.shown_byte byte ≡ byte ∷ [] }
{
    0x20 <= byte && byte < 0x7F && byte != b'"' && byte != b'\\'
}

// A byte within quotation marks, as the character of its number.
fn write_byte(out: &mut Vec<u8>, byte: u8) -> Result<(), AllocError>
    ensures { OnOk result (out.new.items ≡ out.old.items ++ json.shown_byte byte) }
{
    if byte == b'"' || byte == b'\\' {
        return out.extend_from_slice(&[b'\\', byte]);
    }
    if is_control(byte) {
        let digits = [hex_digit(byte / 16), hex_digit(byte % 16)];
        return out.extend_from_slice(&[b'\\', b'u', b'0', b'0', digits[0], digits[1]]);
    }
    if byte < 0x80 {
        return out.extend_from_slice(&[byte]);
    }
    out.extend_from_slice(&[0xC0 + byte / 64, 0x80 + byte % 64])
}

// How many of the first bytes are shown as they are.
fn plain_front(text: &[u8]) -> usize
    ensures within { result ≤ length text.now }
    ensures plain { flat_map json.shown_byte (take result text.now) ≡ take result text.now }
{
    let mut count = 0;
    'bytes: for byte in text {
        if !is_plain(*byte) {
            return count;
        }
        count += 1;
    }
    count
}

// Writes the first byte, if there is one, and answers what follows it.
fn write_first<'a>(out: &mut Vec<u8>, text: &'a [u8]) -> Result<&'a [u8], AllocError>
    ensures written { IfOk result (λ rest. out.new.items ++ flat_map json.shown_byte rest.now
        ≡ out.old.items ++ flat_map json.shown_byte text.now) }
    ensures shorter { IfOk result (λ rest. length rest.now ≡ length text.now - 1) }
{
    match text.split_first() {
        Some((first, rest)) => {
            write_byte(out, *first)?;
            Ok(rest)
        }
        None => Ok(text),
    }
}

// The bytes of a text, without the quotation marks. Bytes that are shown as they are, which most
// are, are copied together.
fn write_bytes(out: &mut Vec<u8>, text: &[u8]) -> Result<(), AllocError>
    ensures { OnOk result (out.new.items ≡ out.old.items ++ flat_map json.shown_byte text.now) }
{
    let mut rest = text;
    'runs: while !rest.is_empty() {
        let (plain, more) = rest.split_at(plain_front(rest));
        out.extend_from_slice(plain)?;
        rest = write_first(out, more)?;
    }
    Ok(())
}

/// Any bytes within quotation marks.
#[tactic(auto, unfolding(crate::specs::Json::text_json))]
pub(crate) fn write_text(out: &mut Vec<u8>, text: &[u8]) -> Result<(), AllocError>
    ensures { OnOk result (out.new.items ≡ out.old.items ++ json.text_json text.now) }
{
    out.extend_from_slice(b"\"")?;
    write_bytes(out, text)?;
    out.extend_from_slice(b"\"")
}

/// An array of texts.
#[tactic(auto, unfolding(crate::specs::Json::texts_json))]
pub(crate) fn write_texts(out: &mut Vec<u8>, texts: &[Bytes]) -> Result<(), AllocError>
    ensures { OnOk result (out.new.items ≡ out.old.items ++ json.texts_json texts.now) }
{
    let Some((first, more)) = texts.split_first() else {
        return out.extend_from_slice(b"[]");
    };
    out.extend_from_slice(b"[")?;
    write_text(out, first.as_slice())?;
    'texts: for text in more {
        out.extend_from_slice(b",")?;
        write_text(out, text.as_slice())?;
    }
    out.extend_from_slice(b"]")
}

/// The name of a member that follows another, up to its value.
#[tactic(auto, unfolding(crate::specs::Json::member))]
pub(crate) fn write_name(out: &mut Vec<u8>, name: &[u8]) -> Result<(), AllocError>
    ensures { OnOk result (out.new.items ≡ out.old.items ++ json.member name.now []) }
{
    out.extend_from_slice(b",\"")?;
    out.extend_from_slice(name)?;
    out.extend_from_slice(b"\":")
}

/// A member with a text.
#[tactic(auto, unfolding(crate::specs::Json::member))]
pub(crate) fn write_member(out: &mut Vec<u8>, name: &[u8], text: &[u8]) -> Result<(), AllocError>
    ensures { OnOk result (out.new.items
        ≡ out.old.items ++ json.member name.now (json.text_json text.now)) }
{
    write_name(out, name)?;
    write_text(out, text)
}

/// A member with a text, or null where there is none.
#[tactic(auto, unfolding(crate::specs::Json::member, crate::specs::Json::optional_json))]
pub(crate) fn write_optional(
    out: &mut Vec<u8>,
    name: &[u8],
    text: Option<&[u8]>,
) -> Result<(), AllocError>
    ensures { OnOk result (out.new.items
        ≡ out.old.items ++ json.member name.now (json.optional_json (option_copied text.entry))) }
{
    write_name(out, name)?;
    match text {
        Some(text) => write_text(out, text),
        None => out.extend_from_slice(b"null"),
    }
}

/// A member with an array of texts.
#[tactic(auto, unfolding(crate::specs::Json::member))]
pub(crate) fn write_list(out: &mut Vec<u8>, name: &[u8], texts: &[Bytes]) -> Result<(), AllocError>
    ensures { OnOk result (out.new.items
        ≡ out.old.items ++ json.member name.now (json.texts_json texts.now)) }
{
    write_name(out, name)?;
    write_texts(out, texts)
}

/// A member with a number.
#[tactic(auto, unfolding(crate::specs::Json::member))]
pub(crate) fn write_number(out: &mut Vec<u8>, name: &[u8], number: u64) -> io::Result<()>
    ensures { OnOk result (out.new.items
        ≡ out.old.items ++ json.member name.now (decimal number)) }
{
    write_name(out, name)?;
    write!(out, "{number}")
}

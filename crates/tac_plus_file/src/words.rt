//! Words, quoted words and lines, as a file spells them.

use basics::Bytes;
use memchr::memchr;
use std::alloc::{AllocError, Global};

/// The text from its next end of a line on.
pub(crate) fn from_line_end(text: &[u8]) -> &[u8] {
    match memchr(b'\n', text) {
        Some(at) => &text[at..],
        None => &[],
    }
}

// A word without quotes goes on to the next blank, `=` or end of a line: a `}`, a `#` or a quotation
// mark within it belongs to it.
fn ends_word(byte: u8) -> bool {
    matches!(byte, b' ' | b'\t' | b'=' | b'\n')
}

/// The first word of a text, and what comes after it.
pub(crate) fn split_word(text: &[u8]) -> (&[u8], &[u8]) {
    match text.iter().position(|byte| ends_word(*byte)) {
        Some(at) => (&text[..at], &text[at..]),
        None => (text, &[]),
    }
}

// The next part of what stands between quotes, and what comes after it; none where it ends. A `\`
// takes a quotation mark as it is; elsewhere it stays, and what follows it is no sign.
fn split_quoted(text: &[u8]) -> Option<(&[u8], &[u8])> {
    match text {
        [] | [b'"', ..] => None,
        [b'\\', b'"', later @ ..] => Some((b"\"", later)),
        [b'\\', _, later @ ..] => Some((&text[..2], later)),
        [_, later @ ..] => Some((&text[..1], later)),
    }
}

/// A text from its next quotation mark on.
pub(crate) fn from_quote(text: &[u8]) -> &[u8] {
    let mut rest = text;
    'parts: for _ in 0..text.len() {
        match split_quoted(rest) {
            Some((_, later)) => rest = later,
            None => break,
        }
    }
    rest
}

/// The text that stands between quotes.
pub(crate) fn unquoted(alloc: Global, quoted: &[u8]) -> Result<Bytes, AllocError> {
    let mut text = Bytes::new(alloc);
    let mut rest = quoted;
    'parts: for _ in 0..quoted.len() {
        let Some((part, later)) = split_quoted(rest) else {
            break;
        };
        text.extend_from_slice(part)?;
        rest = later;
    }
    Ok(text)
}

//! Whether a pattern fits the word ` <cr>`, with which Cisco IOS ends each line: by how it ends.

use crate::habits::last_habit;
use pol_pattern::{Pattern, PatternFault, Version};
use pol_words::last_atom;
use std::alloc::{AllocError, Global};

// The text without this end of it.
fn without_end<'a>(text: &'a [u8], end: &[u8]) -> &'a [u8] {
    let kept = text.len().saturating_sub(end.len());
    &text[..kept]
}

// The text from its first `)` on.
fn from_close(text: &[u8]) -> &[u8] {
    match text.iter().position(|byte| *byte == b')') {
        Some(place) => &text[place..],
        None => &[],
    }
}

/// The pattern ends in ` <cr>`, but for the `)` and the repeats after that.
pub(crate) fn names_end(version: Version, pattern: &[u8]) -> bool {
    let (_, after) = last_atom(version, pattern);
    without_end(pattern, after).ends_with(b" <cr>")
}

// The part of a pattern holds ` <cr>` by itself.
fn holds_ending(alloc: Global, part: &[u8]) -> Result<bool, AllocError> {
    match Pattern::read(alloc, part) {
        Ok(pattern) => Ok(pattern.contains(b" <cr>")),
        Err(PatternFault::Memory) => Err(AllocError),
        Err(_) => Ok(false),
    }
}

// The last atom with its own repeats holds it, as `.*` and `[^x]{0,30}` do.
fn repeats_end(alloc: Global, version: Version, pattern: &[u8]) -> Result<bool, AllocError> {
    let (atom, after) = last_atom(version, pattern);
    holds_ending(alloc, without_end(atom, from_close(after)))
}

/// The pattern fits no line with ` <cr>`, by how it ends, and nothing else is asked of its end.
pub(crate) fn lacks_end(
    alloc: Global,
    version: Version,
    pattern: &[u8],
) -> Result<bool, AllocError> {
    let is_shell = pattern == b"".as_slice() || pattern == b"()".as_slice();
    if names_end(version, pattern) || is_shell || last_habit(pattern).is_some() {
        return Ok(false);
    }
    Ok(!repeats_end(alloc, version, pattern)?)
}

//! Services: what other programs and devices take otherwise, and slips of the pen.

use crate::habits::blank_after;
use crate::question;
use crate::question::{Asked, ask};
use basics::{Sequence, split_once};
use pol_words::{column_of, words_of};
use std::alloc::AllocError;

/// The names of a shell's arguments that devices know (RFC 8907, section 8.2).
const KNOWN: [&[u8]; 10] = [
    b"acl",
    b"inacl",
    b"outacl",
    b"addr",
    b"addr-pool",
    b"timeout",
    b"idletime",
    b"autocmd",
    b"noescape",
    b"nohangup",
];

fn is_known(name: &[u8]) -> bool {
    KNOWN.iter().any(|known| *known == name)
}

// A mandatory attribute, whose first sign is `=`, with another name before it.
fn asks_much(attribute: &[u8]) -> bool {
    match split_once(attribute, b'=') {
        Some((name, _)) => split_once(name, b'*').is_none() && !is_known(name),
        None => false,
    }
}

fn service_habit(service: &[u8]) -> Option<&'static str> {
    if service == b"exec".as_slice() {
        return Some(question::EXEC);
    }
    None
}

fn attribute_habit(service: &[u8], attribute: &[u8]) -> Option<&'static str> {
    if service == b"shell".as_slice() && asks_much(attribute) {
        return Some(question::MANDATORY);
    }
    None
}

// A text from its first `"` on.
fn from_quote(text: &[u8]) -> &[u8] {
    match text.iter().position(|byte| *byte == b'"') {
        Some(place) => &text[place..],
        None => &[],
    }
}

fn quote_habit(attribute: &[u8]) -> Option<&'static str> {
    let quotes = attribute.iter().filter(|byte| **byte == b'"').count();
    if quotes % 2 == 1 {
        return Some(question::ODD_QUOTES);
    }
    None
}

/// Asks about the service at the end of a line, about its attribute, and about a space at its end.
pub(crate) fn ask_service(
    asked: &mut Sequence<Asked>,
    number: usize,
    line: &[u8],
    rest: &[u8],
) -> Result<(), AllocError> {
    let (service, attribute) = words_of(rest);
    ask(asked, number, column_of(line, rest), service_habit(service))?;
    let habit = attribute_habit(service, attribute);
    ask(asked, number, column_of(line, attribute), habit)?;
    let column = column_of(line, from_quote(attribute));
    ask(asked, number, column, quote_habit(attribute))?;
    ask(asked, number, line.len(), blank_after(rest))
}

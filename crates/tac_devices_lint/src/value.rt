//! What follows the word with which a line begins.

ghost use Rattle.std.specs.Prelude.{◌≡◌, IfSome};
ghost use Rattle.tac_devices_lint.specs.Places.{InLine};
ghost use Rattle.tac_devices_lint.specs.Words as words;

use crate::address::address_finding;
use crate::beginning::Beginning;
use crate::finding::Finding;
use crate::remark::{Found, placed};
use crate::word::LineWord;
use basics::{read_number, split_once, without_leading_spaces};
use pol_names::Name;
use std::fmt;
use tac_proxy::CommonName;
use tac_wire::Key;

/// The most connections of an address that a line may allow.
const MOST_CONNECTIONS: u32 = 10_000;

/// What is wrong with a value that isn't an address.
#[derive(Clone, Copy)]
pub enum ValueFault {
    /// It is missing.
    Missing,
    /// A space ends the line.
    SpaceAtEnd,
    /// Two spaces are next to each other.
    TwoSpaces,
    /// A comment follows it.
    Comment,
    /// Something else follows the value of this word.
    More(LineWord),
    /// A byte isn't one of a name.
    NameByte,
    /// The name is too long.
    LongName,
    /// The key is too long.
    LongKey,
    /// The common name is too long.
    LongCommonName,
    /// It isn't a number of connections.
    Connections,
}

impl fmt::Display for ValueFault {
    fn fmt<W: fmt::Write>(&self, f: &mut fmt::Formatter<W>) -> fmt::Result {
        match self {
            ValueFault::Missing => f.write_str("a value is missing at its end"),
            ValueFault::SpaceAtEnd => f.write_str("it ends with a space"),
            ValueFault::TwoSpaces => {
                f.write_str("two spaces in a row, where words are set apart by one")
            }
            ValueFault::Comment => {
                f.write_str("no comment stands after a value: give it a line of its own")
            }
            ValueFault::More(word) => {
                write!(f, "after '{word}' one value may follow, and nothing else")
            }
            ValueFault::NameByte => f.write_str("no byte of a name: these are A-Z a-z 0-9 _ - . @"),
            ValueFault::LongName => f.write_str("a name of over 32 bytes"),
            ValueFault::LongKey => f.write_str("a key of over 128 characters"),
            ValueFault::LongCommonName => f.write_str("a common name of over 64 characters"),
            ValueFault::Connections => f.write_str("no number of 1 to 10000, of 1 to 5 digits"),
        }
    }
}

// What is wrong at this end of a line.
fn fault(line: &[u8], end: &[u8], what: ValueFault) -> Found
    ensures { InLine line.now result.column }
{
    placed(line, end, Finding::Value(what))
}

// The last byte of a line.
fn last_of(line: &[u8]) -> &[u8] {
    &line[line.len().saturating_sub(1)..]
}

// What is wrong with spaces between the value of this word, which begins here, and what follows its
// first space.
pub(crate) fn spaced(line: &[u8], text: &[u8], word: LineWord, rest: &[u8]) -> Found
    ensures { InLine line.now result.column }
{
    let said = without_leading_spaces(rest);
    if said.is_empty() {
        return fault(line, last_of(line), ValueFault::SpaceAtEnd);
    }
    if text.starts_with(b"= ") {
        return placed(line, text, Finding::Beginning(Beginning::Equals(word)));
    }
    if text.starts_with(b" ") {
        return fault(line, text, ValueFault::TwoSpaces);
    }
    if said.starts_with(b"#") {
        return fault(line, said, ValueFault::Comment);
    }
    if rest.starts_with(b" ") {
        return fault(line, rest, ValueFault::TwoSpaces);
    }
    fault(line, rest, ValueFault::More(word))
}

fn is_name_byte(byte: u8) -> bool {
    matches!(byte, b'A'..=b'Z' | b'a'..=b'z' | b'0'..=b'9' | b'_' | b'-' | b'.' | b'@')
}

// The text from its first byte on that is none of a name.
fn from_other(text: &[u8]) -> &[u8] {
    match text.iter().position(|byte| !is_name_byte(*byte)) {
        Some(at) => &text[at..],
        None => &[],
    }
}

// What keeps what follows `device` from being a name.
fn name_finding(line: &[u8], text: &[u8]) -> Option<Found>
    ensures { IfSome result (λ found. InLine line.now found.column) }
{
    if Name::read(text).is_some() {
        return None;
    }
    if let Some((_, rest)) = split_once(text, b' ') {
        return Some(spaced(line, text, LineWord::Device, rest));
    }
    let rest = from_other(text);
    if rest.is_empty() {
        return Some(fault(line, text, ValueFault::LongName));
    }
    Some(fault(line, rest, ValueFault::NameByte))
}

fn is_number(text: &[u8]) -> bool {
    match read_number(text, 5) {
        Some(n) => 1 <= n && n <= MOST_CONNECTIONS,
        None => false,
    }
}

// What keeps what follows `connections` from being their number.
fn number_finding(line: &[u8], text: &[u8]) -> Option<Found>
    ensures { IfSome result (λ found. InLine line.now found.column) }
{
    if is_number(text) {
        return None;
    }
    match split_once(text, b' ') {
        Some((_, rest)) => Some(spaced(line, text, LineWord::Connections, rest)),
        None => Some(fault(line, text, ValueFault::Connections)),
    }
}

// The longest that a text of this word may be is so long.
fn size_finding(line: &[u8], text: &[u8], most: usize, long: ValueFault) -> Option<Found>
    ensures { IfSome result (λ found. InLine line.now found.column) }
{
    if text.len() <= most {
        return None;
    }
    Some(fault(line, text, long))
}

/// What is wrong with the value of a line that begins with this word, if anything is. What follows
/// the word and a space is the value.
pub(crate) fn value_finding(line: &[u8], word: LineWord, value: Option<&[u8]>) -> Option<Found>
    ensures { IfSome result (λ found. InLine line.now found.column) }
{
    let Some(text) = value else {
        return match word {
            LineWord::Tls => None,
            _ => Some(fault(line, &[], ValueFault::Missing)),
        };
    };
    if text.is_empty() {
        return Some(fault(line, text, ValueFault::Missing));
    }
    match word {
        LineWord::Device => name_finding(line, text),
        LineWord::At => address_finding(line, text),
        LineWord::Key | LineWord::OldKey => size_finding(line, text, Key::MAX, ValueFault::LongKey),
        LineWord::Tls => size_finding(line, text, CommonName::MAX, ValueFault::LongCommonName),
        LineWord::Connections => number_finding(line, text),
    }
}

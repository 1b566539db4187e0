//! Habits of other pattern languages, and spaces that nobody sees.

use crate::abbreviation::abbreviation_in;
use crate::question;
use crate::question::{Asked, Question, ask};
use basics::Sequence;
use pol_names::Hash;
use pol_pattern::Version;
use pol_words::{Place, column_of};
use std::alloc::AllocError;

// Digits and commas up to a `}`.
fn ends_count(text: &[u8]) -> bool {
    let other = text
        .iter()
        .find(|byte| !matches!(**byte, b'0'..=b'9' | b','));
    matches!(other, Some(b'}'))
}

// A count like `{1,3}`. In version 2 it is a repetition.
fn count_habit(version: Version, rest: &[u8]) -> Option<&'static str> {
    match (version, rest) {
        (Version::One, [b'{', b'0'..=b'9', after @ ..]) if ends_count(after) => {
            Some(question::COUNT)
        }
        _ => None,
    }
}

// `\d`, `\w` and `\s`, where a pattern has one from here on.
fn letter_habit(rest: &[u8]) -> Option<&'static str> {
    match rest {
        [b'\\', b'd', ..] => Some(question::DIGIT),
        [b'\\', b'w', ..] => Some(question::WORD_BYTE),
        [b'\\', b's', ..] => Some(question::SPACE),
        _ => None,
    }
}

// `[[:alpha:]]`, ` # ` and `{1,3}`.
fn outer_habit(version: Version, rest: &[u8]) -> Option<&'static str> {
    if rest.starts_with(b"[[:") {
        return Some(question::NAMED_CLASS);
    }
    if rest.starts_with(b" # ") {
        return Some(question::COMMENT);
    }
    count_habit(version, rest)
}

// What a pattern has from this place on that stands for something else in other languages. A symbol
// after a `\` is no beginning of it.
fn habit(version: Version, place: Place, rest: &[u8]) -> Option<&'static str> {
    match place {
        Place::Outside => match letter_habit(rest) {
            Some(habit) => Some(habit),
            None => outer_habit(version, rest),
        },
        Place::Class => letter_habit(rest),
        Place::Quoted | Place::QuotedInClass | Place::Count => None,
    }
}

// Asks about the habits within the pattern at the end of a line.
fn ask_within(
    asked: &mut Sequence<Asked>,
    version: Version,
    number: usize,
    line: &[u8],
    pattern: &[u8],
) -> Result<(), AllocError> {
    let mut place = Place::Outside;
    let mut rest = pattern;
    'symbols: while let [byte, after @ ..] = rest {
        ask(
            asked,
            number,
            column_of(line, rest),
            habit(version, place, rest),
        )?;
        place = place.after(version, *byte);
        rest = after;
    }
    Ok(())
}

/// A text that ends with a space.
pub(crate) fn blank_after(text: &[u8]) -> Option<&'static str> {
    if text.ends_with(b" ") {
        Some(question::BLANK_AFTER)
    } else {
        None
    }
}

// Between quotes of one kind.
fn is_quoted(text: &[u8]) -> bool {
    match text {
        [b'"', .., b'"'] | [b'\'', .., b'\''] => true,
        _ => false,
    }
}

// A secret or a pattern in quotes, or one that begins with a space.
fn wrapped(text: &[u8]) -> Option<&'static str> {
    if is_quoted(text) {
        return Some(question::QUOTED);
    }
    if text.starts_with(b" ") {
        return Some(question::BLANK_BEFORE);
    }
    None
}

fn first_habit(pattern: &[u8]) -> Option<&'static str> {
    if pattern.starts_with(b"^") {
        return Some(question::CARET);
    }
    wrapped(pattern)
}

// Asks about a pattern's beginning: a habit, or else words that a device expands before it asks.
fn ask_first(
    asked: &mut Sequence<Asked>,
    number: usize,
    column: usize,
    pattern: &[u8],
) -> Result<(), AllocError> {
    if let Some(habit) = first_habit(pattern) {
        return ask(asked, number, column, Some(habit));
    }
    if let Some(words) = abbreviation_in(pattern) {
        asked.push(Asked {
            line: number,
            column,
            question: Question::Abbreviated(words),
        })?;
    }
    Ok(())
}

// Whether the last symbol stands after a `\` that says that it is meant. `\\` means a `\` itself.
fn ends_quoted(pattern: &[u8]) -> bool {
    let [before @ .., _] = pattern else {
        return false;
    };
    let mut quoted = false;
    for byte in before {
        quoted = !quoted && *byte == b'\\';
    }
    quoted
}

/// `$` at a pattern's end, or a space, unless a `\` says that it is meant.
pub(crate) fn last_habit(pattern: &[u8]) -> Option<&'static str> {
    if ends_quoted(pattern) {
        return None;
    }
    if pattern.ends_with(b"$") {
        return Some(question::DOLLAR);
    }
    blank_after(pattern)
}

/// Asks about the habits of the pattern at the end of a line.
pub(crate) fn ask_pattern(
    asked: &mut Sequence<Asked>,
    version: Version,
    number: usize,
    line: &[u8],
    pattern: &[u8],
) -> Result<(), AllocError> {
    ask_first(asked, number, column_of(line, pattern), pattern)?;
    ask_within(asked, version, number, line, pattern)?;
    ask(asked, number, line.len(), last_habit(pattern))
}

fn is_letter_or_digit(byte: u8) -> bool {
    matches!(byte, b'0'..=b'9' | b'A'..=b'Z' | b'a'..=b'z')
}

// `$6$`, as the texts of hashes begin: letters or digits, at least one, between two `$`.
fn looks_hashed(text: &[u8]) -> bool {
    match text {
        [b'$', first, rest @ ..] if is_letter_or_digit(*first) => {
            let other = rest.iter().find(|byte| !is_letter_or_digit(**byte));
            matches!(other, Some(b'$'))
        }
        _ => false,
    }
}

fn secret_habit(secret: &[u8]) -> Option<&'static str> {
    if looks_hashed(secret) {
        return Some(question::HASH_IN_CLEAR);
    }
    wrapped(secret)
}

// How many rounds a hash has at most that isn't asked about.
const FEW_ROUNDS: u32 = 20_000;

/// A hash of so many rounds that a login by it takes long.
pub(crate) fn rounds_habit(text: &[u8]) -> Option<&'static str> {
    match Hash::read(text) {
        Some(hash) if hash.rounds() > FEW_ROUNDS => Some(question::MANY_ROUNDS),
        _ => None,
    }
}

/// Asks about the secret at the end of a line: that it looks like a hash, and the quotes and spaces
/// round it.
pub(crate) fn ask_secret(
    asked: &mut Sequence<Asked>,
    number: usize,
    line: &[u8],
    secret: &[u8],
) -> Result<(), AllocError> {
    ask(asked, number, column_of(line, secret), secret_habit(secret))?;
    ask(asked, number, line.len(), blank_after(secret))
}

//! What follows a `\`, a `[` or a `{`.

ghost use Rattle.std.specs.Prelude.{◌≡◌, ◌≤◌, IsTrue, length, drop};
ghost use Rattle.basics.specs.Memory.{GivesUnlessMemory};
ghost use Rattle.posix_expression.specs.Memory.{is_memory};
ghost use Rattle.posix_expression.specs.Syntax.{is_reserved as reserved_test};
ghost use Rattle.posix_expression.specs.Trees.{expression_of};
ghost use Rattle.posix_expression.specs.Reading.{escaped_at, begins_name as name_test};
ghost use Rattle.posix_expression.specs.Reading.{begins_range as range_test, range_of, item_at};
ghost use Rattle.posix_expression.specs.Reading.{items_within, members_at, bracketed_at};
ghost use Rattle.posix_expression.specs.Reading.{ends_class as end_test};
ghost use Rattle.posix_expression.specs.Reading.{number_in, repeats_of, repeats_in, repeats_at};

use crate::tree::{Item, Repeats, Tree};
use crate::unsaid::Unsaid;
use basics::{is_symbol, read_number, split_once};
use std::alloc::Global;

/// How often something may stand by a count.
const MOST_REPEATS: u32 = 32;

// Whether a byte may mean something of its own after a `\`.
fn is_reserved(byte: u8) -> bool
    ensures { result ≡ reserved_test byte }
{
    matches!(
        byte,
        b'a'..=b'z' | b'A'..=b'Z' | b'0'..=b'9' | b'<' | b'>' | b'`' | b'\''
    )
}

/// The symbol after a `\`, and what comes after it.
#[tactic(auto, unfolding(crate::specs::Reading::escaped_at))]
pub(crate) fn read_escaped(text: &[u8]) -> Result<(u8, &[u8]), Unsaid>
    ensures { GivesUnlessMemory is_memory (λ found. (found.0, found.1.now)) result
        (escaped_at text.now) }
{
    let [byte, rest @ ..] = text else {
        return Err(Unsaid::Escape);
    };
    let byte = *byte;
    if b'1' <= byte && byte <= b'9' {
        return Err(Unsaid::Reference);
    }
    if is_reserved(byte) {
        return Err(Unsaid::Escape);
    }
    if !is_symbol(byte) {
        return Err(Unsaid::NotSymbol);
    }
    Ok((byte, rest))
}

// Whether a class by name begins with this byte.
fn begins_name(byte: u8, rest: &[u8]) -> bool
    ensures { result ≡ name_test byte rest.now }
{
    let next = rest.first();
    byte == b'[' && (next == Some(&b':') || next == Some(&b'.') || next == Some(&b'='))
}

// Whether a `-` stands here that isn't the last of its class.
fn begins_range(rest: &[u8]) -> bool
    ensures { result ≡ range_test rest.now }
{
    rest.len() >= 2 && rest[0] == b'-' && rest[1] != b']'
}

// A range. After one POSIX doesn't say what a further `-` means.
#[tactic(auto, unfolding(crate::specs::Reading::range_of))]
fn read_range(first: u8, last: u8, rest: &[u8]) -> Result<(Item, &[u8]), Unsaid>
    ensures { GivesUnlessMemory is_memory (λ found. (found.0, found.1.now)) result
        (range_of first last rest.now) }
{
    if last < first || last == b'[' || begins_range(rest) {
        return Err(Unsaid::BadClass);
    }
    if is_symbol(first) && is_symbol(last) {
        return Ok((Item::Range(first, last), rest));
    }
    Err(Unsaid::NotSymbol)
}

// The next item of a class, and what comes after it.
#[tactic(auto, unfolding(crate::specs::Reading::item_at))]
fn read_item(text: &[u8]) -> Result<(Item, &[u8]), Unsaid>
    ensures { GivesUnlessMemory is_memory (λ found. (found.0, found.1.now)) result
        (item_at text.now) }
{
    let [byte, rest @ ..] = text else {
        return Err(Unsaid::BadClass);
    };
    let byte = *byte;
    if begins_name(byte, rest) {
        return Err(Unsaid::NamedClass);
    }
    if begins_range(rest) {
        return read_range(byte, rest[1], &rest[2..]);
    }
    if !is_symbol(byte) {
        return Err(Unsaid::NotSymbol);
    }
    Ok((Item::One(byte), rest))
}

/// What comes after the first byte.
pub(crate) fn after_first(text: &[u8]) -> &[u8]
    requires { 1 ≤ length text.now }
    ensures { result.now ≡ drop 1 text.now }
{
    &text[1..]
}

// Whether a class ends here.
fn ends_class(rest: &[u8]) -> bool
    ensures exact { result ≡ end_test rest.now }
    ensures within { IsTrue result → 1 ≤ length rest.now }
{
    !rest.is_empty() && rest[0] == b']'
}

// The items up to a `]`, and what comes after it.
fn read_items(alloc: Global, text: &[u8]) -> Result<(Vec<Item>, &[u8]), Unsaid>
    ensures { GivesUnlessMemory is_memory (λ found. (found.0.items, found.1.now)) result
        (items_within (length text.now) text.now) }
{
    let mut items = Vec::new(alloc);
    let mut rest = text;
    'items: for _item in 0..text.len() {
        if ends_class(rest) {
            return Ok((items, after_first(rest)));
        }
        let (item, later) = read_item(rest)?;
        items.push(item)?;
        rest = later;
    }
    Err(Unsaid::BadClass)
}

// A class after its `[` and a `^`, if it has one. A `]` that stands first is a symbol of it.
#[tactic(auto, unfolding(crate::specs::Reading::members_at))]
fn read_members(alloc: Global, is_negated: bool, text: &[u8]) -> Result<(Tree, &[u8]), Unsaid>
    ensures { GivesUnlessMemory is_memory (λ found. (expression_of found.0, found.1.now)) result
        (members_at is_negated text.now) }
{
    let (first, others) = read_item(text)?;
    let (items, rest) = read_items(alloc, others)?;
    Ok((Tree::Bracketed(is_negated, first, items), rest))
}

/// A class after its `[`, and what comes after it.
#[tactic(auto, unfolding(crate::specs::Reading::bracketed_at))]
pub(crate) fn read_bracketed(alloc: Global, text: &[u8]) -> Result<(Tree, &[u8]), Unsaid>
    ensures { GivesUnlessMemory is_memory (λ found. (expression_of found.0, found.1.now)) result
        (bracketed_at text.now) }
{
    if !text.is_empty() && text[0] == b'^' {
        return read_members(alloc, true, &text[1..]);
    }
    read_members(alloc, false, text)
}

// A number of a count.
#[tactic(auto, unfolding(crate::specs::Reading::number_in))]
fn read_count(digits: &[u8]) -> Result<u8, Unsaid>
    ensures { result ≡ number_in digits.now }
{
    let Some(number) = read_number(digits, 9) else {
        return Err(Unsaid::BadCount);
    };
    if number > MOST_REPEATS {
        return Err(Unsaid::LargeCount);
    }
    Ok(number as u8)
}

// The numbers of a count.
#[tactic(auto, unfolding(crate::specs::Reading::repeats_of))]
fn read_numbers(lows: &[u8], highs: &[u8]) -> Result<Repeats, Unsaid>
    ensures { result ≡ repeats_of lows.now highs.now }
{
    let low = read_count(lows)?;
    if highs.is_empty() {
        return Ok(Repeats::AtLeast(low));
    }
    let high = read_count(highs)?;
    if high < low {
        return Err(Unsaid::BadCount);
    }
    Ok(Repeats::Between(low, high))
}

// What stands between the braces of a count.
#[tactic(auto, unfolding(crate::specs::Reading::repeats_in))]
fn read_braced(text: &[u8]) -> Result<Repeats, Unsaid>
    ensures { result ≡ repeats_in text.now }
{
    match split_once(text, b',') {
        Some((lows, highs)) => read_numbers(lows, highs),
        None => read_numbers(text, text),
    }
}

/// A count after its `{`, and what comes after it.
#[tactic(auto, unfolding(crate::specs::Reading::repeats_at))]
pub(crate) fn read_repeats(text: &[u8]) -> Result<(Repeats, &[u8]), Unsaid>
    ensures { GivesUnlessMemory is_memory (λ found. (found.0, found.1.now)) result
        (repeats_at text.now) }
{
    let Some((braced, rest)) = split_once(text, b'}') else {
        return Err(Unsaid::BadCount);
    };
    let repeats = read_braced(braced)?;
    Ok((repeats, rest))
}

//! What makes it doubtful that a key is the one that was meant.

ghost use Rattle.std.specs.Prelude.{◌≡◌, ◌<◌, Some};
ghost use Rattle.tac_devices.specs.KeyDoubt as doubts;

use basics::{is_symbol, read_number, split_once};
use std::fmt;

/// What Cisco's type 7 hides a text under.
const MASK: [u8; 53] = *b"dsfd;kfoA,.iyewrkldJKDHSUBsgvca69834ncxv9873254k;fg87";

/// The last place of the mask at which a text begins.
const LAST_PLACE: u32 = 15;

/// Why it is doubtful that a key is the one that was meant. It is the key all the same. What is
/// told of it never shows the key.
#[derive(Clone, Copy, Debug, PartialEq, Eq)]
pub enum KeyDoubt {
    /// A blank begins or ends it.
    BlankAtEnd,
    /// It stands in quotes.
    Quoted,
    /// A `#` follows a blank.
    Comment,
    /// It begins as an assignment does.
    Assignment,
    /// It looks like one that Cisco's type 7 hides.
    Type7,
    /// It is one character, alone or again and again.
    OneCharacter,
}

impl KeyDoubt {
    // How it is told.
    fn text(&self) -> &'static str
        ensures { result.now ≡ doubts.doubt_text self.now }
    {
        match self {
            KeyDoubt::BlankAtEnd => "a key with a blank at an end, which is part of it",
            KeyDoubt::Quoted => "a key in quotes, which are part of it",
            KeyDoubt::Comment => "a key with '#' after a blank: no comment, but part of it",
            KeyDoubt::Assignment => "a key that begins with 'key =' or '= ', which is part of it",
            KeyDoubt::Type7 => "a key that looks like Cisco's type 7: it is taken as it stands",
            KeyDoubt::OneCharacter => "a key of one character, alone or repeated",
        }
    }
}

impl fmt::Display for KeyDoubt {
    ghost output = { λ doubt. Some (doubts.doubt_text doubt) };

    fn fmt<W: fmt::Write>(&self, f: &mut fmt::Formatter<W>) -> fmt::Result {
        f.write_str(self.text())
    }
}

fn has_blank_at_end(key: &[u8]) -> bool
    ensures { result ≡ doubts.has_blank_at_end key.now }
{
    key.starts_with(b" ") || key.ends_with(b" ")
}

fn is_between(quote: u8, key: &[u8]) -> bool
    ensures { result ≡ doubts.is_between quote key.now }
{
    match key {
        [first, rest @ ..] => *first == quote && rest.ends_with(&[quote]),
        [] => false,
    }
}

fn is_quoted(key: &[u8]) -> bool
    ensures { result ≡ doubts.is_quoted key.now }
{
    is_between(b'"', key) || is_between(b'\'', key)
}

fn has_comment(key: &[u8]) -> bool
    ensures { result ≡ doubts.has_comment key.now }
{
    let mut rest = key;
    'blanks: while let Some((_, after)) = split_once(rest, b' ') {
        if after.starts_with(b"#") {
            return true;
        }
        rest = after;
    }
    false
}

fn is_assignment(key: &[u8]) -> bool
    ensures { result ≡ doubts.is_assignment key.now }
{
    key.starts_with(b"= ") || key.starts_with(b"key =") || key.starts_with(b"key=")
}

// The number that a hexadecimal digit is.
fn digit_of(symbol: u8) -> Option<u8>
    ensures { result ≡ doubts.digit_of symbol }
{
    match symbol {
        b'0'..=b'9' => Some(symbol - b'0'),
        b'A'..=b'F' => Some(symbol - b'A' + 10),
        b'a'..=b'f' => Some(symbol - b'a' + 10),
        _ => None,
    }
}

// The byte that two of them are.
fn byte_of(high: u8, low: u8) -> Option<u8>
    ensures { result ≡ doubts.byte_of high low }
{
    match (digit_of(high), digit_of(low)) {
        (Some(high), Some(low)) => Some(high * 16 + low),
        _ => None,
    }
}

// Whether two digits hide a symbol at this place of the mask.
fn hide_symbol(place: usize, high: u8, low: u8) -> bool
    requires { place < 53 }
    ensures { result ≡ doubts.hide_symbol place high low }
{
    match byte_of(high, low) {
        Some(byte) => is_symbol(byte ^ MASK[place]),
        None => false,
    }
}

// Whether digits hide symbols from this place of the mask on.
fn hide_text(start: usize, digits: &[u8]) -> bool
    requires { start < 53 }
    ensures { result ≡ doubts.hide_text start digits.now }
{
    let mut place = start;
    let mut rest = digits;
    'symbols: while let [high, low, after @ ..] = rest {
        if !hide_symbol(place, *high, *low) {
            return false;
        }
        place = (place + 1) % MASK.len();
        rest = after;
    }
    rest.is_empty()
}

fn are_decimal(text: &[u8]) -> bool
    ensures { result ≡ doubts.are_decimal text.now }
{
    text.iter().all(u8::is_ascii_digit)
}

fn is_hidden(key: &[u8]) -> bool
    ensures { result ≡ doubts.is_hidden key.now }
{
    if key.len() <= 2 || are_decimal(key) {
        return false;
    }
    let (place, digits) = key.split_at(2);
    match read_number(place, 2) {
        Some(place) if place <= LAST_PLACE => hide_text(place as usize, digits),
        _ => false,
    }
}

fn are_hex(text: &[u8]) -> bool
    ensures { result ≡ doubts.are_hex text.now }
{
    text.iter().all(|symbol| digit_of(*symbol).is_some())
}

fn is_hex(text: &[u8]) -> bool
    ensures { result ≡ doubts.is_hex text.now }
{
    text.len() >= 4 && text.len() % 2 == 0 && are_hex(text)
}

fn is_type_7(key: &[u8]) -> bool
    ensures { result ≡ doubts.is_type_7 key.now }
{
    key.starts_with(b"7 ") && is_hex(&key[2..]) || is_hidden(key)
}

fn are_all(letter: u8, text: &[u8]) -> bool
    ensures { result ≡ doubts.are_all letter text.now }
{
    text.iter().all(|other| *other == letter)
}

fn is_one_character(key: &[u8]) -> bool
    ensures { result ≡ doubts.is_one_character key.now }
{
    match key {
        [first, rest @ ..] => are_all(*first, rest),
        [] => false,
    }
}

impl KeyDoubt {
    /// Why a key is doubtful, by the first reason of the enum that there is; none of most keys.
    /// Linear in the key, no memory.
    pub fn of(key: &[u8]) -> Option<KeyDoubt>
        ensures { result ≡ doubts.doubt_of key.now }
    {
        if has_blank_at_end(key) {
            return Some(KeyDoubt::BlankAtEnd);
        }
        if is_quoted(key) {
            return Some(KeyDoubt::Quoted);
        }
        if has_comment(key) {
            return Some(KeyDoubt::Comment);
        }
        if is_assignment(key) {
            return Some(KeyDoubt::Assignment);
        }
        if is_type_7(key) {
            return Some(KeyDoubt::Type7);
        }
        if is_one_character(key) {
            return Some(KeyDoubt::OneCharacter);
        }
        None
    }
}

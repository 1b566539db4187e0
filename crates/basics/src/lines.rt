//! Lines of a text, and the parts round a separator.

ghost use Rattle.std.specs.Prelude.{◌≡◌, ◌≢◌, ◌<◌, ◌+◌, ◌∷◌, [], length, IfNone, IfSome};
ghost use Rattle.std.specs.Option.{option_map};
ghost use Rattle.basics.specs.Lines.{split_at_first, lines_of, BeginsWith, TakesLine};
ghost use Rattle.basics.specs.Lines.{without_leading_spaces as trimmed};

use memchr::memchr;
use std::marker::Model;

/// What stands before the first separator, and what stands after it.
pub fn split_once(bytes: &[u8], separator: u8) -> Option<(&[u8], &[u8])>
    ensures parts { option_map (λ parts. (parts.0.now, parts.1.now)) result
        ≡ split_at_first separator bytes.now }
    ensures sizes { IfSome result
        (λ parts. length parts.0.now + length parts.1.now + 1 ≡ length bytes.now) }
{
    let at = memchr(separator, bytes)?;
    Some((&bytes[..at], &bytes[at + 1..]))
}

/// The text without its leading spaces (0x20 alone).
pub fn without_leading_spaces(text: &[u8]) -> &[u8]
    ensures { result.now ≡ trimmed text.now }
{
    let mut rest = text;
    while let [b' ', after @ ..] = rest {
        rest = after;
    }
    rest
}

// The first line of a text without its LF, and what follows.
fn first_line(text: &[u8]) -> (&[u8], &[u8])
    requires { text.now ≢ [] }
    ensures lines { lines_of text.now ≡ result.0.now ∷ lines_of result.1.now }
    ensures text { BeginsWith text.now result.0.now result.1.now }
    ensures shorter { length result.1.now < length text.now }
{
    match split_once(text, b'\n') {
        Some(parts) => parts,
        None => (text, &[]),
    }
}

/// The lines of a text that are still to be read, with the number of the first of them.
#[derive(Drop)]
pub struct Lines<'a> {
    rest: &'a [u8],
    number: usize,
}

impl<'a> Model for Lines<'a> {
    ghost use Rattle.std.specs.Prelude.{◌+◌, ◌<◌, ◌^◌, length};
    ghost use Rattle.basics.specs.Lines.{Unread, lines_of};

    ghost Value = { Unread };

    ghost view = { λ lines. record {
      number = lines.number;
      text = lines.rest.now;
      lines = lines_of lines.rest.now;
    } };

    ghost invariant = { λ lines. lines.number + length lines.rest.now < 2 ^ 64 };
}

impl<'a> Lines<'a> {
    /// All lines of a text, from number 1 on.
    pub fn new(text: &'a [u8]) -> Lines<'a>
        ensures { result ≡ record { number = 1; text = text.now; lines = lines_of text.now } }
    {
        Lines {
            rest: text,
            number: 1,
        }
    }

    /// The number of the next line; where none is left, one more than the last line's.
    pub fn number(&self) -> usize
        ensures { result ≡ self.now.number }
    {
        self.number
    }

    /// The text that is still to be read.
    pub fn rest(&self) -> &'a [u8]
        ensures { result.now ≡ self.now.text }
    {
        self.rest
    }

    /// Takes the next line, without its LF, and its number.
    pub fn take_line(&mut self) -> Option<(usize, &'a [u8])>
        ensures none { IfNone result ((self.old.lines ≡ []) × (self.new ≡ self.old)) }
        ensures some { IfSome result (λ taken. (taken.0 ≡ self.old.number)
            × (self.old.lines ≡ taken.1.now ∷ self.new.lines)
            × (self.new.number ≡ self.old.number + 1)) }
        ensures text { IfSome result (λ taken. TakesLine self.old taken.1.now self.new) }
    {
        if self.rest.is_empty() {
            return None;
        }
        let number = self.number;
        let (line, rest) = first_line(self.rest);
        self.rest = rest;
        self.number = number + 1;
        Some((number, line))
    }
}

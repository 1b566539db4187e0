//! Which earlier line keeps one from standing.

ghost use Rattle.std.specs.Prelude.{◌≡◌, ◌<◌, IfSome};

use crate::whole::WholeFault;
use crate::word::{LineWord, words_of};
use basics::{Lines, without_leading_spaces};
use tac_devices::Prefix;

/// A line by its word and its value, if it begins with a word that lines begin with.
pub(crate) fn line_words(line: &[u8]) -> Option<(LineWord, &[u8])> {
    let (word, value) = words_of(without_leading_spaces(line));
    let word = LineWord::read(word)?;
    Some((word, value))
}

fn is_same_prefix(one: &[u8], other: &[u8]) -> bool {
    match (Prefix::read(one), Prefix::read(other)) {
        (Some(one), Some(other)) => one == other,
        _ => false,
    }
}

// Whether a line that begins with the other word keeps one of this word from standing.
fn clashes(word: LineWord, value: &[u8], other: LineWord, others: &[u8]) -> bool {
    match word {
        LineWord::Device => other == LineWord::Device && value == others,
        LineWord::At => other == LineWord::At && is_same_prefix(value, others),
        LineWord::Key => other == LineWord::Key || other == LineWord::OldKey && value == others,
        LineWord::OldKey => other == LineWord::OldKey || other == LineWord::Key && value == others,
        LineWord::Tls | LineWord::Connections => other == word,
    }
}

// Whether another device's lines keep one of this word from standing.
fn is_of_all(word: LineWord) -> bool {
    word == LineWord::Device || word == LineWord::At
}

// The first line before the one of this number that keeps it from standing, and its word.
fn first_clash(
    text: &[u8],
    number: usize,
    word: LineWord,
    value: &[u8],
) -> Option<(usize, LineWord)> {
    let mut lines = Lines::new(text);
    let mut first = None;
    'lines: while let Some((at, line)) = lines.take_line() {
        if at >= number {
            return first;
        }
        let Some((other, others)) = line_words(line) else {
            continue;
        };
        if other == LineWord::Device && !is_of_all(word) {
            first = None;
        }
        if first.is_none() && clashes(word, value, other, others) {
            first = Some((at, other));
        }
    }
    first
}

/// Which earlier line keeps this one, of this number, from standing, if one does.
pub(crate) fn clash(text: &[u8], number: usize, line: &[u8]) -> Option<WholeFault> {
    let (word, value) = line_words(line)?;
    let (first, other) = first_clash(text, number, word, value)?;
    Some(match word {
        LineWord::Device => WholeFault::SameName(first),
        LineWord::At => WholeFault::SamePrefix(first),
        word if word == other => WholeFault::SameWord { word, first },
        _ => WholeFault::SameKey(first),
    })
}

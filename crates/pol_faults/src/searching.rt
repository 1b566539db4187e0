//! Rules that go on after a search for something anywhere in a line, and so may double the states.

ghost use Rattle.std.specs.Prelude.{◌≡◌, IfSome};

use pol_pattern::Version;
use pol_words::{Finding, Found, Place, last_atom};

// A search: `.*` or `.+`.
fn is_search(rest: &[u8]) -> bool {
    rest.starts_with(b".*") || rest.starts_with(b".+")
}

// The size of the pattern's end from its last atom on, if that is a search.
fn search_size(version: Version, pattern: &[u8]) -> usize {
    let (last, _) = last_atom(version, pattern);
    if is_search(last) { last.len() } else { 0 }
}

// The pattern from the first dot on that comes after a search, but for that of a search at its end.
fn dot_after_search(version: Version, pattern: &[u8]) -> Option<&[u8]> {
    let last = search_size(version, pattern);
    let mut place = Place::Outside;
    let mut searched = false;
    let mut rest = pattern;
    'symbols: while let [byte, later @ ..] = rest {
        // neither quoted nor in a class
        let dot = matches!(place, Place::Outside) && *byte == b'.';
        if searched && dot && rest.len() != last {
            return Some(rest);
        }
        searched = searched || dot && is_search(rest);
        place = place.after(version, *byte);
        rest = later;
    }
    None
}

/// A dot that comes after a search in the pattern at the end of a line.
pub(crate) fn search_found(version: Version, line: &[u8], pattern: &[u8]) -> Option<Found>
    ensures { IfSome result (λ told. told.finding ≡ Finding.AfterSearch) }
{
    match dot_after_search(version, pattern) {
        Some(dot) => Some(Found::at(line, dot, Finding::AfterSearch)),
        None => None,
    }
}

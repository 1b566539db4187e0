//! What the symbols of a pattern are, by those before them.

use pol_pattern::Version;

/// Where a symbol of a pattern stands.
#[derive(Clone, Copy)]
pub enum Place {
    /// In none of the others.
    Outside,
    /// After a `\`.
    Quoted,
    /// In a class.
    Class,
    /// In a class, after a `\`.
    QuotedInClass,
    /// In a count of version 2, as `{1,3}`.
    Count,
}

// After this symbol, which stands outside.
fn place_from(version: Version, byte: u8) -> Place {
    match (byte, version) {
        (b'\\', _) => Place::Quoted,
        (b'[', _) => Place::Class,
        (b'{', Version::Two) => Place::Count,
        _ => Place::Outside,
    }
}

impl Place {
    /// The place of the symbol after this one.
    pub fn after(self, version: Version, byte: u8) -> Place {
        match self {
            Place::Outside => place_from(version, byte),
            Place::Quoted => Place::Outside,
            Place::Class if byte == b'\\' => Place::QuotedInClass,
            Place::Class if byte == b']' => Place::Outside,
            Place::Class | Place::QuotedInClass => Place::Class,
            Place::Count if byte == b'}' => Place::Outside,
            Place::Count => Place::Count,
        }
    }
}

// A `)` or a repeat, which no atom begins with.
fn closes(version: Version, byte: u8) -> bool {
    match version {
        Version::One => matches!(byte, b')' | b'*' | b'+' | b'?'),
        Version::Two => matches!(byte, b')' | b'*' | b'+' | b'?' | b'{'),
    }
}

/// The pattern from its last atom on, and from the end of that on. Without any atom both are the
/// pattern.
pub fn last_atom(version: Version, pattern: &[u8]) -> (&[u8], &[u8]) {
    let mut place = Place::Outside;
    let mut atom = pattern;
    let mut after = pattern;
    let mut rest = pattern;
    'symbols: while let [byte, later @ ..] = rest {
        match place {
            Place::Outside if closes(version, *byte) => (),
            Place::Outside => (atom, after) = (rest, later),
            Place::Class if *byte != b']' => (),
            Place::Quoted | Place::Class => after = later,
            Place::QuotedInClass | Place::Count => (),
        }
        place = place.after(version, *byte);
        rest = later;
    }
    (atom, after)
}

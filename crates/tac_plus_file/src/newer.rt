//! Configurations of another tac_plus: of tac_plus-ng, and of the one before it, by the same author.

use crate::fault::{FileFault, Mistake};
use crate::reader::{Reader, Token};
use basics::split_once;
use std::alloc::Global;

/// What three tokens of a file tell.
#[derive(Clone, Copy)]
enum Sign {
    /// It is this one's file.
    Surely(Mistake),
    /// It is tac_plus-ng's file, unless another sign tells otherwise.
    Perhaps,
    /// A device begins without a `=`.
    Host,
    /// A setting `address`.
    Address,
}

fn is_word(token: Token<'_>, wanted: &[u8]) -> bool {
    match token {
        Token::Word(word) => word == wanted,
        _ => false,
    }
}

fn is_equals(token: Token<'_>) -> bool {
    matches!(token, Token::Equals)
}

// Whether tac_plus-ng has `WORD NAME {`.
fn begins_named(token: Token<'_>) -> bool {
    is_word(token, b"profile")
        || is_word(token, b"realm")
        || is_word(token, b"net")
        || is_word(token, b"device")
        || is_word(token, b"log")
}

// Whether tac_plus-ng has `WORD {`.
fn begins_block(token: Token<'_>) -> bool {
    is_word(token, b"spawnd")
        || is_word(token, b"script")
        || is_word(token, b"ruleset")
        || is_word(token, b"password")
}

// What is after `id =`.
fn sign_of_id(token: Token<'_>) -> Option<Sign> {
    if is_word(token, b"tac_plus-ng") {
        return Some(Sign::Surely(Mistake::TacPlusNg));
    }
    if is_word(token, b"tac_plus") {
        return Some(Sign::Surely(Mistake::OtherTacPlus));
    }
    if is_word(token, b"spawnd") {
        return Some(Sign::Perhaps);
    }
    None
}

// What three tokens in a row tell, if they tell anything.
fn sign_of(first: Token<'_>, second: Token<'_>, third: Token<'_>) -> Option<Sign> {
    match (second, third) {
        (Token::Equals, _) if is_word(first, b"id") => sign_of_id(third),
        (Token::Equals, Token::Open) if is_word(first, b"spawnd") => Some(Sign::Perhaps),
        (Token::Word(_), Token::Open) if is_word(first, b"host") => Some(Sign::Host),
        (Token::Word(_), Token::Open) if begins_named(first) => Some(Sign::Perhaps),
        (_, Token::Open) if begins_block(second) && !is_equals(first) => Some(Sign::Perhaps),
        (_, Token::Word(_)) if is_word(second, b"mavis") && is_word(third, b"module") => {
            Some(Sign::Perhaps)
        }
        (_, Token::Equals) if is_word(second, b"address") => Some(Sign::Address),
        _ => None,
    }
}

/// What was seen of a file.
#[derive(Clone, Copy)]
struct Seen {
    // the line of the first sign
    perhaps: Option<usize>,
    // the line at which the first device without a `=` begins
    host: Option<usize>,
    has_address: bool,
}

impl Seen {
    // With one more sign, at this line.
    fn with(self, sign: Sign, line: usize) -> Seen {
        match sign {
            Sign::Surely(_) => self,
            Sign::Perhaps => Seen {
                perhaps: self.perhaps.or(Some(line)),
                ..self
            },
            Sign::Host => Seen {
                host: self.host.or(Some(line)),
                ..self
            },
            Sign::Address => Seen {
                has_address: true,
                ..self
            },
        }
    }

    fn line(self) -> Option<usize> {
        let host = if self.has_address { self.host } else { None };
        self.perhaps.or(host)
    }
}

// Which file this is, and at which line it is seen.
fn seen_in(reader: &mut Reader<'_>) -> Option<(usize, Mistake)> {
    let mut seen = Seen {
        perhaps: None,
        host: None,
        has_address: false,
    };
    let mut first = Token::End;
    let mut second = Token::End;
    'tokens: for _ in 0..reader.left() {
        let third = match reader.take() {
            Ok(Token::End) | Err(_) => break,
            Ok(token) => token,
        };
        match sign_of(first, second, third) {
            Some(Sign::Surely(mistake)) => return Some((reader.line(), mistake)),
            Some(sign) => seen = seen.with(sign, reader.line()),
            None => {}
        }
        first = second;
        second = third;
    }
    let line = seen.line()?;
    Some((line, Mistake::TacPlusNg))
}

// Whether a text begins with a line that has tac_plus-ng run it.
fn is_run_by_ng(text: &[u8]) -> bool {
    let line = match split_once(text, b'\n') {
        Some((line, _)) => line,
        None => text,
    };
    line.starts_with(b"#!")
        && line
            .windows(11)
            .any(|part| part == b"tac_plus-ng".as_slice())
}

// The other tac_plus whose file a text is, and the line that tells it.
fn other_tac_plus(alloc: Global, text: &[u8]) -> Option<(usize, Mistake)> {
    if is_run_by_ng(text) {
        return Some((1, Mistake::TacPlusNg));
    }
    let mut reader = Reader::new(alloc, text);
    seen_in(&mut reader)
}

/// Why a text is refused that isn't read for this: where it is a file of another tac_plus, that.
pub(crate) fn refusal_of(alloc: Global, text: &[u8], fault: FileFault) -> FileFault {
    match (fault, other_tac_plus(alloc, text)) {
        (FileFault::Wrong { .. }, Some((line, mistake))) => FileFault::Wrong { line, mistake },
        (fault, _) => fault,
    }
}

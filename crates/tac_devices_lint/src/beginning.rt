//! Lines that begin with a word that no line begins with.

use crate::word::{LineWord, meant_word, words_of};
use basics::split_once;
use std::alloc::{AllocError, Global};
use std::fmt;

/// What is wrong with how a line begins.
#[derive(Clone, Copy)]
pub enum Beginning {
    /// It is a line as tac_plus's configuration has them.
    OtherProgram,
    /// It is a line of a policy.
    OfPolicy,
    /// A `=` stands in it, and it was meant to begin so.
    Equals(LineWord),
    /// It was meant to begin so.
    Meant(LineWord),
    /// No line begins so.
    Unknown,
}

impl fmt::Display for Beginning {
    fn fmt<W: fmt::Write>(&self, f: &mut fmt::Formatter<W>) -> fmt::Result {
        match self {
            Beginning::OtherProgram => f.write_str(
                "a line of another program's file: 'tacd import --devices-to' reads tac_plus's",
            ),
            Beginning::OfPolicy => {
                f.write_str(
                    "a line of a policy, not of a devices' file: 'tacd lint' looks at those",
                )
            }
            Beginning::Equals(word) => write!(f, "no '=' stands here: is '{word} VALUE' meant?"),
            Beginning::Meant(word) => {
                write!(
                    f,
                    "no line of a devices' file begins so: is '{word}' meant?"
                )
            }
            Beginning::Unknown => f.write_str("no line of a devices' file begins with this word"),
        }
    }
}

/// The words with which lines of a policy begin.
const OF_POLICIES: [&[u8]; 12] = [
    b"group",
    b"user",
    b"login",
    b"enable",
    b"login-hash",
    b"enable-hash",
    b"priv",
    b"service",
    b"refuse",
    b"permit",
    b"deny",
    b"policy",
];

fn is_of_policy(word: &[u8]) -> bool {
    OF_POLICIES.iter().any(|other| *other == word)
}

// A word before a `=`, and what is meant by it.
fn before_equals(alloc: Global, word: &[u8], rest: &[u8]) -> Result<Beginning, AllocError> {
    if let Some(word) = LineWord::read(word) {
        return Ok(Beginning::Equals(word));
    }
    match meant_word(alloc, word, rest)? {
        Some(word) => Ok(Beginning::Equals(word)),
        None => Ok(Beginning::OtherProgram),
    }
}

// No line begins with the word, which these follow.
fn unknown_word(alloc: Global, word: &[u8], rest: &[u8]) -> Result<Beginning, AllocError> {
    if is_of_policy(word) {
        return Ok(Beginning::OfPolicy);
    }
    match meant_word(alloc, word, rest)? {
        Some(word) => Ok(Beginning::Meant(word)),
        None => Ok(Beginning::Unknown),
    }
}

/// What is wrong with a line without leading spaces, with whose first word no line begins.
pub(crate) fn beginning_of(alloc: Global, said: &[u8]) -> Result<Beginning, AllocError> {
    if said.starts_with(b"}") || said.ends_with(b"{") {
        return Ok(Beginning::OtherProgram);
    }
    let (word, rest) = words_of(said);
    if let Some((before, _)) = split_once(word, b'=') {
        return before_equals(alloc, before, rest);
    }
    if let [b'=', after @ ..] = rest {
        return before_equals(alloc, word, without_space(after));
    }
    unknown_word(alloc, word, rest)
}

// The text without one space that it begins with.
fn without_space(text: &[u8]) -> &[u8] {
    match text {
        [b' ', after @ ..] => after,
        text => text,
    }
}

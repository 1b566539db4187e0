//! The word that a line was probably meant to begin with.

ghost use Rattle.std.specs.Prelude.{◌≡◌, Some};
ghost use Rattle.pol_words.specs.FindingText.{word_text};

use std::alloc::{AllocError, Global};
use std::fmt;
use strsim::generic_levenshtein;

/// A word with which lines of a policy begin.
#[derive(Clone, Copy)]
pub enum Word {
    Group,
    User,
    Login,
    Enable,
    LoginHash,
    EnableHash,
    Priv,
    Service,
    Refuse,
    Permit,
    Deny,
    Policy,
}

/// All of them, in the order of docs/POLICY.md.
const WORDS: [Word; 12] = [
    Word::Group,
    Word::User,
    Word::Login,
    Word::Enable,
    Word::LoginHash,
    Word::EnableHash,
    Word::Priv,
    Word::Service,
    Word::Refuse,
    Word::Permit,
    Word::Deny,
    Word::Policy,
];

impl Word {
    fn text(&self) -> &'static str
        ensures { result.now ≡ word_text self.now }
    {
        match self {
            Word::Group => "group",
            Word::User => "user",
            Word::Login => "login",
            Word::Enable => "enable",
            Word::LoginHash => "login-hash",
            Word::EnableHash => "enable-hash",
            Word::Priv => "priv",
            Word::Service => "service",
            Word::Refuse => "refuse",
            Word::Permit => "permit",
            Word::Deny => "deny",
            Word::Policy => "policy",
        }
    }
}

impl fmt::Display for Word {
    ghost output = { λ word. Some (word_text word) };

    fn fmt<W: fmt::Write>(&self, f: &mut fmt::Formatter<W>) -> fmt::Result {
        f.write_str(self.text())
    }
}

/// How long a word is at most that is two changes away from one of at most 11 bytes.
const LONGEST: usize = 13;

// The first word that is no further away: so many bytes are put in, taken out or exchanged.
fn first_within(alloc: Global, from: &[u8], most: usize) -> Result<Option<Word>, AllocError> {
    for word in WORDS {
        let changes = generic_levenshtein(alloc, from, word.text().as_bytes())?;
        if changes <= most {
            return Ok(Some(word));
        }
    }
    Ok(None)
}

/// The known word that is nearest to one that no line begins with, if one is near: at most two
/// changes away, and at most half as many as the word has bytes. Of several it is the first.
/// Capitals are no change.
pub(crate) fn nearest(alloc: Global, word: &[u8]) -> Result<Option<Word>, AllocError> {
    if word.len() > LONGEST {
        return Ok(None);
    }
    let lower = word.to_ascii_lowercase(alloc)?;
    let most = 2_usize.min(word.len() / 2);
    for changes in 0..=most {
        if let Some(known) = first_within(alloc, lower.as_slice(), changes)? {
            return Ok(Some(known));
        }
    }
    Ok(None)
}

//! The words of a policy's lines.

ghost use Rattle.std.specs.Prelude.{◌≡◌};
ghost use Rattle.pol_words.specs.Words as words;

use basics::{split_once, without_leading_spaces};
use pol_names::Kind;

/// What a line says by its first word.
#[derive(Clone, Copy)]
pub enum Keyword {
    /// A subject begins.
    Opens(Kind),
    /// A user's secret, in the clear.
    Secret,
    /// A user's secret, as a hash.
    Hash,
    /// A level.
    Level,
    /// What is said of a service.
    Service,
    /// A rule.
    Rule,
    /// No line of a policy begins with the word.
    Nothing,
}

/// The first word of a text, and what comes after the space after it.
pub fn words_of(text: &[u8]) -> (&[u8], &[u8])
    ensures { (result.0.now, result.1.now) ≡ words.words_of text.now }
{
    match split_once(text, b' ') {
        Some(parts) => parts,
        None => (text, &[]),
    }
}

/// The same of a line, without the spaces that it begins with.
pub fn words_in(line: &[u8]) -> (&[u8], &[u8])
    ensures { (result.0.now, result.1.now) ≡ words.words_in line.now }
{
    words_of(without_leading_spaces(line))
}

/// What is said of a subject's parent, in `NAME in PARENT`.
pub fn parent_text(rest: &[u8]) -> &[u8]
    ensures { result.now ≡ words.parent_text rest.now }
{
    let (_, below) = words_of(rest);
    let (_, parent) = words_of(below);
    parent
}

/// What a line says by its first word.
pub fn keyword_of(word: &[u8]) -> Keyword
    ensures { result ≡ words.keyword_of word.now }
{
    if word == b"group".as_slice() {
        return Keyword::Opens(Kind::Group);
    }
    if word == b"user".as_slice() {
        return Keyword::Opens(Kind::User);
    }
    if word == b"login".as_slice() || word == b"enable".as_slice() {
        return Keyword::Secret;
    }
    if word == b"login-hash".as_slice() || word == b"enable-hash".as_slice() {
        return Keyword::Hash;
    }
    if word == b"priv".as_slice() {
        return Keyword::Level;
    }
    if word == b"service".as_slice() || word == b"refuse".as_slice() {
        return Keyword::Service;
    }
    if word == b"permit".as_slice() || word == b"deny".as_slice() {
        return Keyword::Rule;
    }
    Keyword::Nothing
}

//! A line of the console, and one of its answers, without secrets.

ghost use Rattle.std.specs.Prelude.{◌≡◌, ◌≤◌, ◌++◌, ℕ, List, length, codes, IfOk, IfSome};
ghost use Rattle.std.specs.List.{position};
ghost use Rattle.std.specs.Option.{option_map};
ghost use Rattle.tac_audit.specs.Masking as words;
ghost use Rattle.tac_audit.specs.Masking.{OpensSecret, IsSetting};

use basics::{Bytes, split_once};
use std::alloc::{AllocError, Global};

// What a secret is shown as.
const STAR: &[u8] = b"*";

fn is_blank(byte: u8) -> bool
    ensures { result ≡ words.is_blank byte }
{
    byte <= b' ' || byte >= 0x7F
}

// The text without the blanks that it begins with.
fn without_blanks(text: &[u8]) -> &[u8]
    ensures text { result.now ≡ words.without_blanks text.now }
    ensures size { length result.now ≤ length text.now }
{
    let mut rest = text;
    'blanks: while let [first, after @ ..] = rest {
        if !is_blank(*first) {
            return rest;
        }
        rest = after;
    }
    rest
}

fn first_blank(text: &[u8]) -> Option<usize>
    ensures { result ≡ position words.is_blank text.now }
{
    text.iter().position(|byte| is_blank(*byte))
}

// What stands before the first blank, and what follows it.
#[tactic(auto, unfolding(crate::specs::Masking::split_word))]
fn split_word(text: &[u8]) -> Option<(&[u8], &[u8])>
    ensures parts { option_map (λ parts. (parts.0.now, parts.1.now)) result
        ≡ words.split_word text.now }
    ensures size { IfSome result (λ parts. length parts.1.now ≤ length text.now) }
{
    let Some(at) = first_blank(text) else {
        return None;
    };
    Some((&text[..at], &text[at + 1..]))
}

// Whether this word of the console sets a secret, also in capitals.
fn sets_secret(word: &[u8]) -> bool
    ensures { result ≡ words.sets_secret word.now }
{
    word.eq_ignore_ascii_case(b"login")
        || word.eq_ignore_ascii_case(b"enable")
        || word.eq_ignore_ascii_case(b"login-hash")
        || word.eq_ignore_ascii_case(b"enable-hash")
}

// The secret of a line: all that follows the blank after its second word.
#[tactic(auto, unfolding(crate::specs::Masking::secret_of))]
fn secret(line: &[u8]) -> Option<&[u8]>
    ensures secret { option_map (λ secret. secret.now) result ≡ words.secret_of line.now }
    ensures size { IfSome result (λ secret. length secret.now ≤ length line.now) }
{
    let Some((word, rest)) = split_word(without_blanks(line)) else {
        return None;
    };
    if !sets_secret(word) {
        return None;
    }
    let Some((_, secret)) = split_word(without_blanks(rest)) else {
        return None;
    };
    Some(secret)
}

// A text with a star after it.
fn starred(alloc: Global, shown: &[u8]) -> Result<Bytes, AllocError>
    ensures { IfOk result (λ text. text ≡ shown.now ++ codes "*") }
{
    let mut text = Bytes::from_slice(alloc, shown)?;
    text.extend_from_slice(STAR)?;
    Ok(text)
}

/// A line of the console, without its LF, that shows no secret: what follows `login NAME `,
/// `enable NAME `, `login-hash NAME ` and `enable-hash NAME ` is a star. So it is where the line
/// isn't quite one, as in capitals or with more blanks. A line with another first word stands as it
/// is; where the name was left out, the secret's first word shows. The error means that memory ran
/// out. Linear.
#[tactic(auto, using(crate::proofs::MaskingFacts::hides), unfolding(crate::specs::Masking::masked))]
pub fn masked(alloc: Global, line: &[u8]) -> Result<Bytes, AllocError>
    ensures line { IfOk result (λ text. text ≡ words.masked line.now) }
    // Lines that differ only in their secret have the same text.
    ensures hidden { (head secret other : List ℕ) → OpensSecret head →
        words.masked (head ++ secret) ≡ words.masked (head ++ other) }
{
    match secret(line) {
        Some(secret) => starred(alloc, &line[..line.len() - secret.len()]),
        None => Bytes::from_slice(alloc, line),
    }
}

// Whether this word of a policy's text sets a secret.
fn is_setting(word: &[u8]) -> bool
    ensures { result ≡ words.is_setting word.now }
{
    word == b"login".as_slice()
        || word == b"enable".as_slice()
        || word == b"login-hash".as_slice()
        || word == b"enable-hash".as_slice()
}

/// A line of an answer, without its LF, that shows no secret: of the lines `login TEXT`,
/// `enable TEXT`, `login-hash HASH` and `enable-hash HASH` of a policy all that follows the first
/// word is a star. The error means that memory ran out. Linear.
#[tactic(auto, using(crate::proofs::MaskingFacts::hides_setting), unfolding(crate::specs::Masking::masked_answer))]
pub fn masked_answer(alloc: Global, line: &[u8]) -> Result<Bytes, AllocError>
    ensures line { IfOk result (λ text. text ≡ words.masked_answer line.now) }
    // Lines that differ only in their secret have the same text.
    ensures hidden { (word secret other : List ℕ) → IsSetting word →
        words.masked_answer (word ++ codes " " ++ secret)
        ≡ words.masked_answer (word ++ codes " " ++ other) }
{
    match split_once(line, b' ') {
        Some((word, _)) if is_setting(word) => starred(alloc, &line[..word.len() + 1]),
        _ => Bytes::from_slice(alloc, line),
    }
}

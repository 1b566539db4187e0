//! The text that keeps a password, and whether a password passes for it.

ghost use Rattle.std.specs.Prelude.{◌≡◌, ◌≤◌, ◌↔◌, ℕ, List, length, drop, IsTrue, IfSome, Some};
ghost use Rattle.std.specs.Prelude.{None, if◌then◌else◌};
ghost use Rattle.std.specs.List.{list_all};
ghost use Rattle.basics.specs.Lines.{split_at_first};
ghost use Rattle.sha_crypt.specs.HashText as words;
ghost use Rattle.sha_crypt.specs.HashText.{HashParts};
ghost use Rattle.sha_crypt.specs.Passing.{passes as passes_for, rounds_of};

use crate::digest::{PASSWORD_MAX, SALT_MAX};
use crate::same::same_bytes;
use crate::symbols::{SYMBOLS, crypted};
use arrayvec::ArrayVec;
use basics::{read_number, split_once};
use itoa::Buffer;
use std::marker::Model;

/// What a text of SHA-crypt keeps of a password: the rounds, if it names them, a salt and a digest.
/// No password is in it, but who has it can try passwords: it doesn't print itself.
#[derive(Clone, Copy)]
pub struct Hash {
    rounds: Option<u32>,
    // zeros follow the salt's bytes
    salt: [u8; 16],
    salt_size: u8,
    symbols: [u8; 86],
}

impl Model for Hash {
    ghost use Rattle.std.specs.Prelude.{◌≡◌, ℕ, IsTrue, take, length};
    ghost use Rattle.sha_crypt.specs.HashText.{HashParts, is_hash, filled};

    ghost Value = { HashParts };

    ghost view = { λ hash. record {
      rounds = hash.rounds;
      salt = take hash.salt_size hash.salt;
      symbols = hash.symbols;
    } };

    ghost invariant = { λ hash. let salt = take hash.salt_size hash.salt in
        (hash.salt ≡ filled salt) × (hash.salt_size ≡ length salt)
        × IsTrue (is_hash (record { rounds = hash.rounds; salt = salt; symbols = hash.symbols })) };

    ghost inverse = { λ hash. record {
      rounds = hash.rounds;
      salt = filled hash.salt;
      salt_size = length hash.salt;
      symbols = hash.symbols;
    } };
}

// Not derived, so that contracts compare the hashes and not the zeros after a salt.
impl PartialEq for Hash {
    ghost use Rattle.std.specs.Cmp.{decided, partial_equiv_from_equiv};
    ghost use Rattle.sha_crypt.specs.SameHash.{same_hash, same_hash-Decides};

    ghost eq = { same_hash };

    ghost laws = { partial_equiv_from_equiv (decided same_hash same_hash-Decides) };

    fn eq(&self, other: &Hash) -> bool
        ensures eq { result ≡ same_hash self.now other.now }
        ensures same { IsTrue result ↔ (self.now ≡ other.now) }
    {
        self.rounds == other.rounds && self.salt() == other.salt() && self.symbols == other.symbols
    }
}

impl Eq for Hash {
    ghost use Rattle.std.specs.Cmp.{decided};
    ghost use Rattle.sha_crypt.specs.SameHash.{same_hash, same_hash-Decides};

    ghost laws = { decided same_hash same_hash-Decides };
}

// The parts of a text, be they right or not.
#[derive(Drop)]
struct Parts<'a> {
    rounds: Option<u32>,
    salt: &'a [u8],
    symbols: &'a [u8],
}

impl<'a> Model for Parts<'a> {
    ghost use Rattle.sha_crypt.specs.HashText.{HashParts};

    ghost Value = { HashParts };

    ghost view = { λ parts. record {
      rounds = parts.rounds;
      salt = parts.salt.now;
      symbols = parts.symbols.now;
    } };
}

#[tactic(auto, unfolding(crate::specs::HashText::is_hash_symbol))]
fn is_hash_symbol(byte: u8) -> bool
    ensures { result ≡ words.is_hash_symbol byte }
{
    matches!(byte, b'.'..=b'9' | b'A'..=b'Z' | b'a'..=b'z')
}

fn are_hash_symbols(bytes: &[u8]) -> bool
    ensures { result ≡ list_all words.is_hash_symbol bytes.now }
{
    bytes.iter().all(|byte| is_hash_symbol(*byte))
}

fn is_salt(bytes: &[u8]) -> bool
    ensures { result ≡ words.is_salt bytes.now }
{
    !bytes.is_empty() && bytes.len() <= SALT_MAX && are_hash_symbols(bytes)
}

fn is_digest(bytes: &[u8]) -> bool
    ensures { result ≡ words.is_digest bytes.now }
{
    bytes.len() == SYMBOLS && are_hash_symbols(bytes)
}

fn are_rounds(rounds: Option<u32>) -> bool
    ensures { result ≡ words.are_rounds rounds }
{
    match rounds {
        Some(rounds) => rounds >= Hash::ROUNDS_MIN && rounds <= Hash::ROUNDS_MAX,
        None => true,
    }
}

// What follows the first n bytes.
fn behind(text: &[u8], n: usize) -> &[u8]
    ensures { result.now ≡ drop n text.now }
{
    if text.len() < n {
        return &[];
    }
    &text[n..]
}

// The parts of a text that is cut at its first `$`. Which seven bytes stand before a number isn't
// looked at here: `find` compares the whole text.
fn three_parts<'a>(front: &'a [u8], rest: &'a [u8]) -> Parts<'a>
    ensures { result ≡ words.three_parts front.now rest.now (split_at_first 36 rest.now) }
{
    match split_once(rest, b'$') {
        Some((salt, symbols)) => Parts {
            rounds: read_number(behind(front, 7), 6),
            salt,
            symbols,
        },
        None => Parts {
            rounds: None,
            salt: front,
            symbols: rest,
        },
    }
}

fn parts_of(text: &[u8]) -> Option<Parts<'_>>
    ensures { result ≡ words.parts_of text.now }
{
    let (front, rest) = split_once(behind(text, 3), b'$')?;
    Some(three_parts(front, rest))
}

// The salt, followed by zeros.
fn padded(salt: &[u8]) -> [u8; 16]
    requires { length salt.now ≤ SALT_MAX }
    ensures { result ≡ words.filled salt.now }
{
    let mut bytes = [0; 16];
    bytes[..salt.len()].copy_from_slice(salt);
    bytes
}

fn symbols_of(text: &[u8]) -> [u8; 86]
    requires { length text.now ≡ SYMBOLS }
    ensures { result ≡ text.now }
{
    let mut symbols = [0; 86];
    symbols.copy_from_slice(text);
    symbols
}

// The hash of these parts, if they are right.
fn hash_with(parts: &Parts<'_>) -> Option<Hash>
    ensures { result ≡ (if words.is_hash parts.now then Some parts.now else None) }
{
    if !are_rounds(parts.rounds) || !is_salt(parts.salt) || !is_digest(parts.symbols) {
        return None;
    }
    Some(Hash {
        rounds: parts.rounds,
        salt: padded(parts.salt),
        salt_size: parts.salt.len() as u8,
        symbols: symbols_of(parts.symbols),
    })
}

// The hash of the parts of this text, if they are right and have this text.
fn find(text: &[u8]) -> Option<Hash>
    ensures { result ≡ words.hash_of text.now }
{
    let parts = parts_of(text)?;
    let hash = hash_with(&parts)?;
    if hash.spelled().as_slice() == text {
        Some(hash)
    } else {
        None
    }
}

// `rounds=N$`, where they are named.
fn rounds_text(rounds: Option<u32>) -> ArrayVec<u8, 14>
    requires { IsTrue (words.are_rounds rounds) }
    ensures { result.items ≡ words.rounds_text rounds }
{
    let mut text = ArrayVec::new();
    if let Some(rounds) = rounds {
        text.try_extend_from_slice(b"rounds=").unwrap();
        text.try_extend_from_slice(Buffer::new().format(rounds).as_bytes())
            .unwrap();
        text.push(b'$');
    }
    text
}

impl Hash {
    /// The fewest rounds that a text may name.
    pub const ROUNDS_MIN: u32 = 1_000;

    /// The most rounds that a text may name.
    pub const ROUNDS_MAX: u32 = 999_999;

    /// The rounds where a text names none.
    pub const ROUNDS: u32 = 5_000;

    /// The hash that has this text; None for any other text.
    pub fn read(text: &[u8]) -> Option<Hash>
        ensures exact { result ≡ words.hash_of text.now }
        // What is read is spelled so.
        ensures found { IfSome result (λ hash. IsTrue (words.is_hash hash)
            × (text.now ≡ words.hash_text hash)) }
        // What is spelled so is read.
        ensures only { (hash : HashParts) → IsTrue (words.is_hash hash) →
            text.now ≡ words.hash_text hash → result ≡ Some hash }
    {
        find(text)
    }

    // The text of the hash.
    fn spelled(&self) -> ArrayVec<u8, 120>
        ensures text { result.items ≡ words.hash_text self.now }
        ensures right { IsTrue (words.is_hash self.now) }
    {
        let mut text = ArrayVec::new();
        text.try_extend_from_slice(b"$6$").unwrap();
        text.try_extend_from_slice(rounds_text(self.rounds).as_slice())
            .unwrap();
        text.try_extend_from_slice(self.salt()).unwrap();
        text.push(b'$');
        text.try_extend_from_slice(self.symbols.as_slice()).unwrap();
        text
    }

    /// The text of the hash.
    pub fn text(&self) -> ArrayVec<u8, 120>
        ensures text { result.items ≡ words.hash_text self.now }
        // It is read as this hash.
        ensures again { words.hash_of result.items ≡ Some self.now }
    {
        self.spelled()
    }

    /// How many rounds the hash takes, between [`Hash::ROUNDS_MIN`] and [`Hash::ROUNDS_MAX`].
    pub fn rounds(&self) -> u32
        ensures { result ≡ rounds_of self.now }
    {
        self.rounds.unwrap_or(Hash::ROUNDS)
    }

    /// The salt, of 1 to [`SALT_MAX`] symbols.
    pub fn salt(&self) -> &[u8]
        ensures value { result.now ≡ self.now.salt }
        ensures right { IsTrue (words.is_salt result.now) }
        ensures fits { length result.now ≤ SALT_MAX }
    {
        &self.salt[..self.salt_size as usize]
    }

    /// What a password has to make, in symbols.
    pub fn symbols(&self) -> &[u8; 86]
        ensures { result.now ≡ self.now.symbols }
    {
        &self.symbols
    }

    /// Whether a password passes: it has 1 to [`PASSWORD_MAX`] bytes, and makes this hash. The time
    /// is linear in the rounds; a password of another length fails at once.
    pub fn passes(&self, password: &[u8]) -> bool
        ensures { result ≡ passes_for self.now password.now }
    {
        if password.is_empty() || password.len() > PASSWORD_MAX {
            return false;
        }
        let made = crypted(self.rounds(), self.salt(), password);
        same_bytes(made.as_slice(), self.symbols.as_slice())
    }
}

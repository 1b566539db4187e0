//! The digest of a password under a salt.

ghost use Rattle.std.specs.Prelude.{◌≡◌, ◌≤◌, ◌<◌, length};
ghost use Rattle.sha2.specs.Sha512.{sha512};
ghost use Rattle.sha_crypt.specs.Crypt as words;

use arrayvec::ArrayVec;
use sha2::{Digest, Sha512};

/// The most bytes of a password that is hashed. The time grows with the square of this number.
pub const PASSWORD_MAX: usize = 128;

/// The most bytes of a salt.
pub const SALT_MAX: usize = 16;

// The first n bytes of a digest that is repeated without end.
#[tactic(auto, unfolding(crate::specs::Crypt::repeated))]
fn repeated(digest: &[u8; 64], n: usize) -> ArrayVec<u8, 128>
    requires { n ≤ 128 }
    ensures { result.items ≡ words.repeated digest.now n }
{
    let mut bytes = ArrayVec::new();
    'bytes: for i in 0..n {
        bytes.push(digest[i % 64]);
    }
    bytes
}

// The digest of a text n times.
#[tactic(auto, unfolding(crate::specs::Crypt::times))]
fn digest_of_times(text: &[u8], n: usize) -> [u8; 64]
    ensures { result ≡ sha512 (words.times text.now n) }
{
    let mut hasher = Sha512::new();
    'times: for i in 0..n {
        hasher.update(text);
    }
    hasher.finalize()
}

fn first_digest(salt: &[u8], password: &[u8]) -> [u8; 64]
    ensures { result ≡ words.first_digest salt.now password.now }
{
    let mut hasher = Sha512::new();
    hasher.update(password);
    hasher.update(salt);
    hasher.update(password);
    hasher.finalize()
}

// For bit i of a number: one text for a 1, the other for a 0, and nothing above the highest 1.
fn by_bit<'a>(one: &'a [u8], other: &'a [u8], number: usize, i: u32) -> &'a [u8]
    requires { i < 8 }
    ensures { result.now ≡ words.by_bit one.now other.now number i }
{
    let rest = number >> i;
    if rest == 0 {
        return &[];
    }
    if rest % 2 == 1 {
        return one;
    }
    other
}

#[tactic(auto, unfolding(crate::specs::Crypt::by_bits))]
fn start_digest(salt: &[u8], password: &[u8]) -> [u8; 64]
    requires { length password.now ≤ PASSWORD_MAX }
    ensures { result ≡ words.start_digest salt.now password.now }
{
    let len = password.len();
    let first = first_digest(salt, password);
    let mut hasher = Sha512::new();
    hasher.update(password);
    hasher.update(salt);
    hasher.update(repeated(&first, len).as_slice());
    'bits: for i in 0..8u32 {
        hasher.update(by_bit(first.as_slice(), password, len, i));
    }
    hasher.finalize()
}

// The digest after round i, from the one before it.
fn round(p: &[u8], s: &[u8], i: u32, digest: &[u8; 64]) -> [u8; 64]
    ensures { result ≡ sha512 (words.mixed p.now s.now i digest.now) }
{
    let odd = i % 2 == 1;
    let head: &[u8] = if odd { p } else { digest.as_slice() };
    let salt: &[u8] = if i % 3 == 0 { &[] } else { s };
    let password: &[u8] = if i % 7 == 0 { &[] } else { p };
    let tail: &[u8] = if odd { digest.as_slice() } else { p };
    let mut hasher = Sha512::new();
    hasher.update(head);
    hasher.update(salt);
    hasher.update(password);
    hasher.update(tail);
    hasher.finalize()
}

#[tactic(auto, unfolding(crate::specs::Crypt::after_rounds))]
fn after_rounds(p: &[u8], s: &[u8], start: &[u8; 64], rounds: u32) -> [u8; 64]
    ensures { result ≡ words.after_rounds p.now s.now start.now rounds }
{
    let mut digest = *start;
    'rounds: for i in 0..rounds {
        digest = round(p, s, i, &digest);
    }
    digest
}

// The digest of a password under a salt after so many rounds.
pub(crate) fn crypt_digest(rounds: u32, salt: &[u8], password: &[u8]) -> [u8; 64]
    requires password { length password.now ≤ PASSWORD_MAX }
    requires salt { length salt.now ≤ SALT_MAX }
    ensures { result ≡ words.crypt_digest rounds salt.now password.now }
{
    let start = start_digest(salt, password);
    let len = password.len();
    let p = repeated(&digest_of_times(password, len), len);
    let times = 16 + usize::from(start[0]);
    let s = repeated(&digest_of_times(salt, times), salt.len());
    after_rounds(p.as_slice(), s.as_slice(), &start, rounds)
}

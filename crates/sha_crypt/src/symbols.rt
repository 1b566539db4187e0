//! A digest in symbols.

ghost use Rattle.std.specs.Prelude.{◌≡◌, ◌≤◌, ◌<◌, length};
ghost use Rattle.sha_crypt.specs.Crypt as words;

use crate::digest::{PASSWORD_MAX, SALT_MAX, crypt_digest};
use arrayvec::ArrayVec;

// How many symbols a digest has.
pub(crate) const SYMBOLS: usize = 86;

const ALPHABET: &[u8; 64] = b"./0123456789ABCDEFGHIJKLMNOPQRSTUVWXYZabcdefghijklmnopqrstuvwxyz";

// Three bytes as four symbols.
fn four_symbols(x: u8, y: u8, z: u8) -> [u8; 4]
    ensures { result ≡ words.four_symbols x y z }
{
    let bits = u32::from(x) * 65536 + u32::from(y) * 256 + u32::from(z);
    [
        ALPHABET[(bits % 64) as usize],
        ALPHABET[(bits / 64 % 64) as usize],
        ALPHABET[(bits / 4096 % 64) as usize],
        ALPHABET[(bits / 262144 % 64) as usize],
    ]
}

fn symbols_at(digest: &[u8; 64], i: usize) -> [u8; 4]
    requires { i < 21 }
    ensures { result ≡ words.symbols_at digest.now i }
{
    let a = digest[i];
    let b = digest[i + 21];
    let c = digest[i + 42];
    match i % 3 {
        0 => four_symbols(a, b, c),
        1 => four_symbols(b, c, a),
        _ => four_symbols(c, a, b),
    }
}

#[tactic(auto, unfolding(crate::specs::Crypt::first_symbols))]
fn in_symbols(digest: &[u8; 64]) -> [u8; 86]
    ensures { result ≡ words.in_symbols digest.now }
{
    let mut text = ArrayVec::new();
    'fours: for i in 0..21 {
        let four = symbols_at(digest, i);
        text.try_extend_from_slice(four.as_slice()).unwrap();
    }
    let last = four_symbols(0, 0, digest[63]);
    text.try_extend_from_slice(&last[..2]).unwrap();
    text.into_inner().unwrap()
}

/// What a password makes under a salt by so many rounds. The time is linear in the rounds.
pub fn crypted(rounds: u32, salt: &[u8], password: &[u8]) -> [u8; 86]
    requires password { length password.now ≤ PASSWORD_MAX }
    requires salt { length salt.now ≤ SALT_MAX }
    ensures { result ≡ words.crypted rounds salt.now password.now }
{
    in_symbols(&crypt_digest(rounds, salt, password))
}

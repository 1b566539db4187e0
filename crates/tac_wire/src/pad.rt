//! The pad that hides a body.

ghost use Rattle.std.specs.Prelude.{◌≡◌, ◌<◌, ◌≤◌, ◌+◌, ◌-◌, ◌++◌, List, ℕ, length, bit_xor};
ghost use Rattle.std.specs.Prelude.{get_or};
ghost use Rattle.md5.specs.Md5.{md5, Holds};
ghost use Rattle.tac_wire.specs.Pad.{seed, padded};

use crate::header::Header;
use crate::key::Key;
use md5::{Digest, Md5};

/// How many bytes a digest has.
const DIGEST: usize = 16;

// A hasher of what every digest of a packet's pad begins with.
fn seeded(header: &Header, key: &Key) -> Md5
    ensures { Holds result (seed header.now key.now) }
{
    let mut hasher = Md5::new();
    hasher.update(header.session.to_be_bytes().as_slice());
    hasher.update(key.as_slice());
    hasher.update([header.version, header.seq].as_slice());
    hasher
}

// The digest that follows the previous one; with none before it, the first.
fn digest_after(seeded: &Md5, previous: &[u8]) -> [u8; 16]
    ensures { (seed : List ℕ) → Holds seeded.now seed → result ≡ md5 (seed ++ previous.now) }
{
    let mut hasher = seeded.clone().unwrap();
    hasher.update(previous);
    hasher.finalize()
}

// Puts a digest on the bytes from a place on, as far as both reach.
fn xor_at(body: &mut [u8], start: usize, digest: &[u8; DIGEST])
    requires { start ≤ length body.old }
    ensures lengths { length body.new ≡ length body.old }
    ensures inside { (k : ℕ) → start ≤ k → k < start + 16 → k < length body.old →
        get_or body.new k 0
        ≡ bit_xor (get_or body.old k 0) (get_or digest.now (k - start) 0) }
    ensures before { (k : ℕ) → k < start → get_or body.new k 0 ≡ get_or body.old k 0 }
    ensures after { (k : ℕ) → start + 16 ≤ k → get_or body.new k 0 ≡ get_or body.old k 0 }
{
    let end = body.len().min(start + DIGEST);
    for i in start..end {
        body[i] ^= digest[i - start];
    }
}

/// Puts the pad of a packet on its body, or takes it off (RFC 8907, section 4.5).
///
/// The length in the header isn't read: the pad is as long as the body. One digest for each 16
/// bytes, and no memory.
pub fn pad_in_place(header: &Header, key: &Key, body: &mut [u8])
    ensures value { body.new ≡ padded header.now key.now body.old }
    // Padding twice gives the bytes back, whatever they are.
    ensures twice { (bytes : List ℕ) →
        padded header.now key.now (padded header.now key.now bytes) ≡ bytes }
    // Bytes are as many with their pad as without it.
    ensures lengths { (bytes : List ℕ) → length (padded header.now key.now bytes) ≡ length bytes }
{
    let seeded = seeded(header, key);
    let mut digest = digest_after(&seeded, &[]);
    let len = body.len();
    'digests: for n in 0..len.div_ceil(DIGEST) {
        xor_at(body, DIGEST * n, &digest);
        if DIGEST * (n + 1) < len {
            digest = digest_after(&seeded, &digest);
        }
    }
}

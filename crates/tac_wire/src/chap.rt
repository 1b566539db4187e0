//! The answer to a CHAP challenge.

ghost use Rattle.std.specs.Prelude.{◌≡◌};
ghost use Rattle.tac_wire.specs.Chap.{response_to};

use md5::{Digest, Md5};

/// What a user who knows the secret answers to the challenge (RFC 1994, section 4.1; RFC 8907,
/// section 5.4.2.3). No memory.
pub fn chap_response(id: u8, secret: &[u8], challenge: &[u8]) -> [u8; 16]
    ensures { result ≡ response_to id secret.now challenge.now }
{
    let mut hasher = Md5::new();
    hasher.update([id].as_slice());
    hasher.update(secret);
    hasher.update(challenge);
    hasher.finalize()
}

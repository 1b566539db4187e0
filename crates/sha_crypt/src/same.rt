//! Comparing secrets.

ghost use Rattle.std.specs.Prelude.{◌≡◌, ◌↔◌, IsTrue};
ghost use Rattle.std.specs.Str.{bytes_eq};

/// Whether two texts are the same. It looks at every byte of two texts of one length, wherever they
/// first differ. Nothing is proved of the time that it takes.
pub fn same_bytes(one: &[u8], other: &[u8]) -> bool
    ensures eq { result ≡ bytes_eq one.now other.now }
    ensures same { IsTrue result ↔ (one.now ≡ other.now) }
{
    if one.len() != other.len() {
        return false;
    }
    let mut differing = 0u8;
    'bytes: for i in 0..one.len() {
        differing |= one[i] ^ other[i];
    }
    differing == 0
}

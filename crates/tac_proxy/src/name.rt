//! The common name of a certificate.

ghost use Rattle.std.specs.Prelude.{◌≡◌, ◌≤◌, length};
ghost use Rattle.std.specs.Str.{bytes_eq};
ghost use Rattle.tac_proxy.specs.Name as names;

use std::marker::Model;

/// The common name of a certificate, of at most 64 bytes. A contract sees them as a list.
#[derive(Clone, Copy, Debug)]
pub struct CommonName {
    // zeros follow the name's bytes
    bytes: [u8; 64],
    size: u8,
}

impl Model for CommonName {
    ghost use Rattle.std.specs.Prelude.{◌≡◌, ◌≤◌, List, ℕ, take, length};
    ghost use Rattle.tac_proxy.specs.Name.{filled};

    ghost Value = { List ℕ };

    ghost view = { λ name. take name.size name.bytes };

    ghost invariant = { λ name. let text = take name.size name.bytes in
        (name.bytes ≡ filled text) × (name.size ≡ length text) × (length text ≤ 64) };

    ghost inverse = { λ text. record { bytes = filled text; size = length text } };
}

// The text, followed by zeros.
fn padded(text: &[u8]) -> [u8; 64]
    requires { length text.now ≤ 64 }
    ensures { result ≡ names.filled text.now }
{
    let mut bytes = [0; 64];
    bytes[..text.len()].copy_from_slice(text);
    bytes
}

impl CommonName {
    /// How many bytes a name has at most: as many as it may have characters (RFC 5280, appendix A,
    /// ub-common-name).
    pub const MAX: usize = 64;

    // A copy of the bytes.
    pub(crate) fn new(bytes: &[u8]) -> CommonName
        requires { length bytes.now ≤ 64 }
        ensures { result ≡ bytes.now }
    {
        CommonName {
            bytes: padded(bytes),
            size: bytes.len() as u8,
        }
    }

    /// The name that a text spells: 1 to 64 bytes. `None` for any other text. Takes no memory.
    pub fn read(text: &[u8]) -> Option<CommonName>
        ensures { result ≡ names.name_of text.now }
    {
        if text.is_empty() || text.len() > CommonName::MAX {
            return None;
        }
        Some(CommonName::new(text))
    }

    /// The bytes of the name, in ASCII or UTF-8.
    pub fn as_slice(&self) -> &[u8]
        ensures value { result.now ≡ self.now }
        ensures fits { length result.now ≤ 64 }
    {
        &self.bytes[..self.size as usize]
    }

    /// Whether it is the other name, to the byte.
    pub fn is(&self, other: &CommonName) -> bool
        ensures { result ≡ bytes_eq self.now other.now }
    {
        self.as_slice() == other.as_slice()
    }
}

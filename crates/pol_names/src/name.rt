//! Names of users and groups.

ghost use Rattle.std.specs.Prelude.{◌≡◌, ◌≤◌, ◌↔◌, length, IsTrue};
ghost use Rattle.std.specs.Cmp.{unsigned_Decides};
ghost use Rattle.std.specs.Cmp.Lexicographic.{pointwise_decides};
ghost use Rattle.std.specs.Cmp.Rules.{comparing};
ghost use Rattle.std.specs.Hash as fed;
ghost use Rattle.std.specs.Hash.{same_Alike};
ghost use Rattle.std.specs.List.{list_all};
ghost use Rattle.std.specs.Str.{bytes_eq};
ghost use Rattle.std.proofs.Common.{rules};
ghost use Rattle.pol_names.specs.Name.{name_of, filled, is_name_byte as name_byte_test};
ghost use Rattle.pol_names.specs.Name.{is_name as name_test};

use std::hash::{Hash, Hasher};
use std::marker::Model;
use std::{fmt, str};

/// 1 to 32 bytes of `A-Z a-z 0-9 _ - . @`. A contract sees them as a list.
#[derive(Clone, Copy, Debug)]
pub struct Name {
    // zeros follow the name's bytes
    bytes: [u8; 32],
    size: u8,
}

impl Model for Name {
    ghost use Rattle.std.specs.Prelude.{◌≡◌, List, ℕ, IsTrue, take, length};
    ghost use Rattle.pol_names.specs.Name.{is_name, filled};

    ghost Value = { List ℕ };

    ghost view = { λ name. take name.size name.bytes };

    ghost invariant = { λ name. let text = take name.size name.bytes in
        (name.bytes ≡ filled text) × (name.size ≡ length text) × IsTrue (is_name text) };

    ghost inverse = { λ text. record { bytes = filled text; size = length text } };
}

// Not derived, so that contracts compare the names and not the zeros after them.
impl PartialEq for Name {
    ghost eq = { bytes_eq };

    ghost laws = { Prim.search (comparing, rules) };

    fn eq(&self, other: &Name) -> bool
        ensures eq { result ≡ bytes_eq self.now other.now }
        ensures same { IsTrue result ↔ (self.now ≡ other.now) }
    {
        self.as_slice() == other.as_slice()
    }
}

impl Eq for Name {
    ghost laws = { Prim.search (comparing, rules) };
}

impl Hash for Name {
    ghost hash_input = { fed.slice fed.u8 };

    ghost respects_eq = { (same_Alike (fed.slice fed.u8) (pointwise_decides unsigned_Decides)).fed };

    fn hash<H: Hasher>(&self, state: &mut H) {
        self.as_slice().hash(state);
    }
}

#[tactic(auto, unfolding(crate::specs::Name::is_name_byte))]
fn is_name_byte(byte: u8) -> bool
    ensures { result ≡ name_byte_test byte }
{
    matches!(byte, b'A'..=b'Z' | b'a'..=b'z' | b'0'..=b'9' | b'_' | b'-' | b'.' | b'@')
}

fn are_name_bytes(text: &[u8]) -> bool
    ensures { result ≡ list_all name_byte_test text.now }
{
    text.iter().all(|byte| is_name_byte(*byte))
}

fn is_name(text: &[u8]) -> bool
    ensures { result ≡ name_test text.now }
{
    !text.is_empty() && text.len() <= Name::MAX_LEN && are_name_bytes(text)
}

// The text, followed by zeros.
fn padded(text: &[u8]) -> [u8; 32]
    requires { length text.now ≤ Name.MAX_LEN }
    ensures { result ≡ filled text.now }
{
    let mut bytes = [0; 32];
    bytes[..text.len()].copy_from_slice(text);
    bytes
}

impl Name {
    /// The most bytes that a name has.
    pub const MAX_LEN: usize = 32;

    /// The name that the text spells; None for an invalid text. Takes no memory.
    pub fn read(text: &[u8]) -> Option<Name>
        ensures { result ≡ name_of text.now }
    {
        if !is_name(text) {
            return None;
        }
        let bytes = padded(text);
        Some(Name {
            bytes,
            size: text.len() as u8,
        })
    }

    /// The name's bytes.
    pub fn as_slice(&self) -> &[u8]
        ensures value { result.now ≡ self.now }
        ensures right { IsTrue (name_test self.now) }
    {
        &self.bytes[..self.size as usize]
    }

    /// The name as text. Looks at each of its bytes.
    pub fn as_str(&self) -> &str
        ensures { result.now ≡ self.now }
    {
        match str::from_utf8(self.as_slice()) {
            Ok(text) => text,
            Err(_) => unreachable!(),
        }
    }
}

impl fmt::Display for Name {
    ghost use Rattle.std.specs.Prelude.{Some};

    ghost output = { λ name. Some name };

    fn fmt<W: fmt::Write>(&self, f: &mut fmt::Formatter<W>) -> fmt::Result {
        f.write_str(self.as_str())
    }
}

//! Passwords as they were typed.

ghost use Rattle.std.specs.Prelude.{◌≡◌, ◌↔◌, ◌<◌, ◌≤◌, length, IsTrue, IfOk};
ghost use Rattle.std.specs.Str.{bytes_eq};
ghost use Rattle.sha_crypt.specs.Crypt as crypt;
ghost use Rattle.sha_crypt.specs.Passing.{passes as passes_for, rounds_of};

use basics::Bytes;
use sha_crypt::{Hash, PASSWORD_MAX, crypted, same_bytes};
use std::alloc::{AllocError, Global};
use std::marker::Model;

// What a password makes under the rounds and the salt of a hash.
#[derive(Clone, Copy)]
struct WorkedOut {
    hash: Hash,
    symbols: [u8; 86],
}

/// The room for what a password makes under the rounds and the salt of a hash. It lies on the heap,
/// since few questions take it, and each one travels.
#[derive(Drop)]
pub struct HashRoom {
    made: Box<WorkedOut>,
}

// A contract sees the hash.
impl Model for HashRoom {
    ghost use Rattle.sha_crypt.specs.HashText.{HashParts};

    ghost Value = { HashParts };

    ghost view = { λ room. room.made.value.hash };
}

impl HashRoom {
    /// That of this hash. The error means that memory ran out.
    pub fn new(alloc: Global, hash: &Hash) -> Result<HashRoom, AllocError>
        ensures { IfOk result (λ room. room ≡ hash.now) }
    {
        let empty = WorkedOut {
            hash: *hash,
            symbols: [0; 86],
        };
        match Box::new(alloc, empty) {
            Ok(made) => Ok(HashRoom { made }),
            Err(_) => Err(AllocError),
        }
    }
}

impl WorkedOut {
    // What a password makes under the rounds and the salt of this hash.
    fn under(hash: &Hash, password: &[u8]) -> WorkedOut
        requires { length password.now ≤ PASSWORD_MAX }
        ensures hash { result.hash ≡ hash.now }
        ensures symbols { result.symbols
            ≡ crypt.crypted (rounds_of hash.now) hash.now.salt password.now }
    {
        WorkedOut {
            hash: *hash,
            symbols: crypted(hash.rounds(), hash.salt(), password),
        }
    }

    // Whether this hash has the rounds and the salt that were taken.
    fn is_under(&self, hash: &Hash) -> bool
        ensures { IsTrue result ↔ ((rounds_of self.now.hash ≡ rounds_of hash.now)
            × (self.now.hash.salt ≡ hash.now.salt)) }
    {
        self.hash.rounds() == hash.rounds() && self.hash.salt() == hash.salt()
    }
}

/// A password as it was typed, perhaps with what it makes under the rounds and salt of one hash. A
/// contract sees the password alone.
///
/// To work out what a password makes takes as long as the hash says. It can be done ahead, so that
/// [`Typed::passes`] has only to compare.
pub struct Typed {
    text: Bytes,
    worked_out: Option<Box<WorkedOut>>,
}

impl Model for Typed {
    ghost use Rattle.std.specs.Prelude.{◌≡◌, ◌<◌, ◌≤◌, List, ℕ, length, IfSome};
    ghost use Rattle.sha_crypt.specs.Crypt.{crypted};
    ghost use Rattle.sha_crypt.specs.Passing.{rounds_of};

    ghost Value = { List ℕ };

    ghost view = { λ typed. typed.text };

    // Nothing is worked out of a password that can't pass.
    ghost invariant = { λ typed. IfSome typed.worked_out (λ made.
        (0 < length typed.text) × (length typed.text ≤ 128)
        × (made.value.symbols
        ≡ crypted (rounds_of made.value.hash) made.value.hash.salt typed.text)) };
}

// By hand, so that a proof of an owner has one call at each exit, not a drop of each field.
impl Drop for Typed {
    fn drop(self) {
        let Typed {
            text: _,
            worked_out: _,
        } = self;
    }
}

// Not derived: what is worked out doesn't count, and every byte is looked at, wherever two
// passwords first differ.
impl PartialEq for Typed {
    ghost use Rattle.std.specs.Cmp.Rules.{comparing};
    ghost use Rattle.std.proofs.Common.{rules};

    ghost eq = { bytes_eq };

    ghost laws = { Prim.search (comparing, rules) };

    fn eq(&self, other: &Typed) -> bool
        ensures eq { result ≡ bytes_eq self.now other.now }
        ensures same { IsTrue result ↔ (self.now ≡ other.now) }
    {
        same_bytes(self.as_slice(), other.as_slice())
    }
}

impl Eq for Typed {
    ghost use Rattle.std.specs.Cmp.Rules.{comparing};
    ghost use Rattle.std.proofs.Common.{rules};

    ghost laws = { Prim.search (comparing, rules) };
}

impl Typed {
    /// A password of which nothing is worked out.
    pub fn new(text: Bytes) -> Typed
        ensures { result ≡ text }
    {
        Typed {
            text,
            worked_out: None,
        }
    }

    /// The bytes of the password.
    pub fn as_slice(&self) -> &[u8]
        ensures { result.now ≡ self.now }
    {
        self.text.as_slice()
    }

    /// A copy of the password, of which nothing is worked out. The error means that memory ran out.
    pub fn copy(&self, alloc: Global) -> Result<Typed, AllocError>
        ensures { IfOk result (λ copy. copy ≡ self.now) }
    {
        Ok(Typed::new(self.text.copy(alloc)?))
    }

    /// Whether [`Typed::passes`] takes the rounds of this hash: the password has a length that can
    /// pass, and nothing is worked out under the hash's rounds and salt.
    pub fn takes_rounds(&self, hash: &Hash) -> bool
        ensures { IsTrue result → (0 < length self.now) × (length self.now ≤ PASSWORD_MAX) }
    {
        if self.text.is_empty() || self.text.len() > PASSWORD_MAX {
            return false;
        }
        match &self.worked_out {
            Some(made) => !made.is_under(hash),
            None => true,
        }
    }

    /// Works out what the password makes under the rounds and the salt of the room's hash, and
    /// keeps it there, in place of what was kept. Does nothing where [`Typed::takes_rounds`] is
    /// false; else the time is linear in the rounds.
    pub fn work_out(&mut self, room: HashRoom)
        ensures { self.new ≡ self.old }
    {
        let HashRoom { mut made } = room;
        let hash = made.hash;
        if self.takes_rounds(&hash) {
            *made = WorkedOut::under(&hash, self.text.as_slice());
            self.worked_out = Some(made);
        }
    }

    /// Takes over what is worked out of the other, where that is the same password.
    pub fn adopt(&mut self, other: Typed)
        ensures { self.new ≡ self.old }
    {
        if *self != other {
            return;
        }
        let Typed {
            text: _,
            worked_out,
        } = other;
        if worked_out.is_some() {
            self.worked_out = worked_out;
        }
    }

    /// Whether the password passes for this hash: it has 1 to [`PASSWORD_MAX`] bytes, and makes the
    /// hash. Compares what is worked out, where that is under the hash's rounds and salt; else the
    /// time is linear in the rounds.
    pub fn passes(&self, hash: &Hash) -> bool
        ensures { result ≡ passes_for hash.now self.now }
    {
        match &self.worked_out {
            Some(made) if made.is_under(hash) => {
                same_bytes(made.symbols.as_slice(), hash.symbols().as_slice())
            }
            _ => hash.passes(self.text.as_slice()),
        }
    }
}

//! What users log in and enable with.

ghost use Rattle.std.specs.Prelude.{◌≡◌, ◌↔◌, false, IsTrue, IfOk};
ghost use Rattle.std.specs.Cmp.Rules.{comparing};
ghost use Rattle.std.specs.Str.{bytes_eq};
ghost use Rattle.std.proofs.Common.{rules};
ghost use Rattle.pol_names.specs.Secret.{credential_word, hash_word, secret_of};
ghost use Rattle.pol_names.specs.Secret.{is_secret as secret_test};

use basics::{Bytes, is_text};
use sha_crypt::{Hash, same_bytes};
use std::alloc::{AllocError, Global};
use std::marker::Model;

/// Which of a user's secrets: the one to log in with, or the one to enable with.
#[derive(Clone, Copy, Debug, PartialEq, Eq)]
pub enum Credential {
    Login,
    Enable,
}

impl Credential {
    /// The word that a secret in the clear is set by, and the space after it.
    pub fn keyword(self) -> &'static str
        ensures { result.now ≡ credential_word self }
    {
        match self {
            Credential::Login => "login ",
            Credential::Enable => "enable ",
        }
    }

    /// The word that a hash is set by, and the space after it.
    pub fn hash_keyword(self) -> &'static str
        ensures { result.now ≡ hash_word self }
    {
        match self {
            Credential::Login => "login-hash ",
            Credential::Enable => "enable-hash ",
        }
    }
}

/// A secret in the clear: 1 to 128 symbols. A contract sees them as a list.
#[derive(Drop)]
pub struct ClearSecret {
    text: Bytes,
}

impl Model for ClearSecret {
    ghost use Rattle.std.specs.Prelude.{List, ℕ, IsTrue};
    ghost use Rattle.pol_names.specs.Secret.{is_secret};

    ghost Value = { List ℕ };

    ghost view = { λ secret. secret.text };

    ghost invariant = { λ secret. IsTrue (is_secret secret.text) };
}

// Not derived, so that a comparison looks at every byte, wherever two secrets first differ.
impl PartialEq for ClearSecret {
    ghost eq = { bytes_eq };

    ghost laws = { Prim.search (comparing, rules) };

    fn eq(&self, other: &ClearSecret) -> bool
        ensures eq { result ≡ bytes_eq self.now other.now }
        ensures same { IsTrue result ↔ (self.now ≡ other.now) }
    {
        same_bytes(self.as_slice(), other.as_slice())
    }
}

impl Eq for ClearSecret {
    ghost laws = { Prim.search (comparing, rules) };
}

fn is_secret(text: &[u8]) -> bool
    ensures { result ≡ secret_test text.now }
{
    !text.is_empty() && text.len() <= ClearSecret::MAX_LEN && is_text(text)
}

impl ClearSecret {
    /// The most symbols that a secret has.
    pub const MAX_LEN: usize = 128;

    /// The secret that the text is; `None` for an invalid text, which takes no memory. The error
    /// means that memory ran out.
    pub fn read(alloc: Global, text: &[u8]) -> Result<Option<ClearSecret>, AllocError>
        ensures read { IfOk result (λ secret. secret ≡ secret_of text.now) }
        ensures none { secret_test text.now ≡ false → result ≡ Ok None }
    {
        if !is_secret(text) {
            return Ok(None);
        }
        let text = Bytes::from_slice(alloc, text)?;
        Ok(Some(ClearSecret { text }))
    }

    /// The secret's symbols.
    pub fn as_slice(&self) -> &[u8]
        ensures value { result.now ≡ self.now }
        ensures right { IsTrue (secret_test self.now) }
    {
        self.text.as_slice()
    }

    /// A copy of the secret. The error means that memory ran out.
    pub fn copy(&self, alloc: Global) -> Result<ClearSecret, AllocError>
        ensures { IfOk result (λ copy. copy ≡ self.now) }
    {
        let text = Bytes::from_slice(alloc, self.text.as_slice())?;
        Ok(ClearSecret { text })
    }
}

/// What a user logs in or enables with.
#[derive(Drop)]
pub enum Secret {
    /// The password itself.
    Clear(ClearSecret),
    /// The hash that the password makes.
    Hashed(Hash),
}

impl PartialEq for Secret {
    ghost use Rattle.std.specs.Cmp.{decided, partial_equiv_from_equiv};
    ghost use Rattle.pol_names.specs.Kept.{same_secret, same_secret-Decides};

    ghost eq = { same_secret };

    ghost laws = { partial_equiv_from_equiv (decided same_secret same_secret-Decides) };

    fn eq(&self, other: &Secret) -> bool
        ensures eq { result ≡ same_secret self.now other.now }
        ensures same { IsTrue result ↔ (self.now ≡ other.now) }
    {
        match (self, other) {
            (Secret::Clear(one), Secret::Clear(two)) => one == two,
            (Secret::Hashed(one), Secret::Hashed(two)) => one == two,
            _ => false,
        }
    }
}

impl Eq for Secret {
    ghost use Rattle.std.specs.Cmp.{decided};
    ghost use Rattle.pol_names.specs.Kept.{same_secret, same_secret-Decides};

    ghost laws = { decided same_secret same_secret-Decides };
}

impl Secret {
    /// A copy of the secret. The error means that memory ran out.
    pub fn copy(&self, alloc: Global) -> Result<Secret, AllocError>
        ensures { IfOk result (λ copy. copy ≡ self.now) }
    {
        match self {
            Secret::Clear(secret) => {
                let copy = secret.copy(alloc)?;
                Ok(Secret::Clear(copy))
            }
            Secret::Hashed(hash) => Ok(Secret::Hashed(*hash)),
        }
    }
}

//! What became of a secret.

use pol_names::{Credential, Name};

/// What became of a secret between two policies.
#[derive(Clone, Copy, Debug)]
pub enum Alteration {
    /// There was none, and there is one.
    Set,
    /// There was another one: another text, another hash, or one in the clear and the other a hash.
    Changed,
    /// There was one, and there is none.
    Cleared,
}

/// A secret of a user that isn't what it was. It has neither what the secret was nor what it is.
#[derive(Clone, Copy, Debug)]
pub struct SecretChange {
    pub user: Name,
    pub credential: Credential,
    pub alteration: Alteration,
}

//! Passwords that are kept as hashes: SHA-crypt with SHA-512, whose texts begin with `$6$`, as
//! `openssl passwd -6` and `mkpasswd -m sha-512` make them. Nothing here takes memory.
#![tactic(auto)]

mod digest;
mod hash;
mod same;
mod symbols;

pub use digest::{PASSWORD_MAX, SALT_MAX};
pub use hash::Hash;
pub use same::same_bytes;
pub use symbols::crypted;

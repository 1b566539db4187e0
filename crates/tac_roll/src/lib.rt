//! A list that several threads add to, each under a number of its own. It exists in proofs alone.
#![tactic(auto)]

mod roll;
mod rule;

pub use roll::{Keeper, Member, Roll};

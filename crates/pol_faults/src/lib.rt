//! What keeps a text from being a policy.
#![tactic(auto)]

mod chains;
mod faults;
mod searching;
mod sizes;

pub use chains::text_faults;
pub use sizes::size_faults;

//! How many connections a server has at once, in all and of each address, and how many it may have.
#![tactic(auto)]

mod address;
mod census;
mod refusal;
mod table;

pub use census::Census;
pub use refusal::Refusal;

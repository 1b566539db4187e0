//! What of a file of tac_plus F4.0.4 a policy says, and what it can't say.
#![tactic(auto)]

mod block;
mod chain;
mod commands;
mod draft;
mod hashes;
mod hosts;
mod importing;
mod levels;
mod names;
mod remark;
mod secrets;
mod services;
mod subjects;

pub use importing::{Import, Wanted, import_file};
pub use remark::Remark;

//! Passwords that threads of their own work out, while those who need them serve others.
#![tactic(auto)]

mod backlog;
mod digests;
mod job;

pub use backlog::{Backlog, MOST_DIGESTS};
pub use digests::Digests;
pub use job::{Done, HashTicket, Job};

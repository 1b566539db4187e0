//! The two desks: one that works everything out each time, and one that keeps automata, decisions
//! and marks. They promise the same.
#![tactic(auto)]

mod authentication;
mod authorisation;
mod deciding;
mod editing;
mod live_desk;
mod live_editing;
mod live_reports;
mod plain;
mod reaching;
mod records;
mod recounting;
mod remembering;
mod serving;
mod tallies;

pub use live_desk::LiveDesk;
pub use plain::PlainDesk;
pub use pol_live::BuildFault;

/// The most records that the program's desk accepts.
pub const MAX_RECORDS: usize = 1_000_000;

//! The program over any runtime: it tells its commands apart, and ends with their status.
#![tactic(auto)]

mod program;

pub use program::run;

//! Automata that decide by the first match.
#![tactic(auto)]

mod arranging;
mod cutting;
mod decider;
mod differing;
mod dividing;
mod entries;
mod entry_term;
mod fault;
mod joined_pairs;
mod joining;
mod matching;
mod meter;
mod pairs;
mod stepping;
mod verdicts;
mod way;

pub use decider::Decider;
pub use entries::Entries;
pub use fault::DeciderFault;
pub use meter::Meter;
pub use way::Way;

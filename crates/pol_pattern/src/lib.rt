//! The patterns of command lines: sets of texts, and whether one holds a text.
#![tactic(auto)]

mod building;
mod copying;
mod fault;
mod flat;
mod law;
mod lexing;
mod matching;
mod pattern;
mod reading;
mod sizes;
mod token;
mod upgrading;
mod version;

pub use fault::PatternFault;
pub use flat::{Class, Factor, Term};
pub use law::{match_law, upgrade_law};
pub use pattern::Pattern;
pub use version::Version;

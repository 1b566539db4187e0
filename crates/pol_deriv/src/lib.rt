//! Partial derivatives of patterns.
#![tactic(auto)]

mod adding;
mod joining;
mod linear;
mod lists;
mod node;
mod rows;
mod table;
mod term_set;
mod terms;

pub use node::Number;
pub use term_set::TermSet;
pub use terms::Terms;

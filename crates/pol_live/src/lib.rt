//! A policy that decides at once: for each subject an automaton of the rules along its chain.
#![tactic(auto)]

mod along;
mod building;
mod deciding;
mod fault;
mod filling;
mod judging;
mod keeping;
mod live;
mod parents;
mod parts;
mod prepared;
mod reusing;
mod shared;
mod sizing;
mod staying;
mod touching;

pub use along::{ChainRule, rules_along};
pub use fault::BuildFault;
pub use judging::TextRefusal;
pub use keeping::keeper;
pub use live::Live;
pub use pol_names::{By, Decision, Kind, Name, SubjectId};
pub use prepared::Prepared;

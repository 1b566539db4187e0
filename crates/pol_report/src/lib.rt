//! What is reported of a policy: which rules decide nothing, by which lines rules are reached, and
//! what another policy, or a change of it, lets users do, or no longer do.
#![tactic(auto)]

mod asking;
mod changing;
mod comparison;
mod difference;
mod differing;
mod known;
mod line;
mod named;
mod reaching;
mod saying;
mod serving;
mod shadowing;
mod users;

pub use changing::{changes, compare};
pub use pol_meaning::{Changed, Changes, Reached, ServiceChange, Shadowed};
pub use reaching::reach;
pub use shadowing::shadows;

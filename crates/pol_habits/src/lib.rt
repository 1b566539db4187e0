//! What in a policy is right and probably not meant.
#![tactic(auto)]

mod abbreviation;
mod ending;
mod habits;
mod hidden;
mod question;
mod remarks;
mod services;
mod settings;
mod shells;

pub use abbreviation::Abbreviation;
pub use question::{Asked, Question};
pub use remarks::policy_remarks;

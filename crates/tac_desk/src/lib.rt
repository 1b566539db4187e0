//! What a desk promises: what it answers the asks of connections, edits of its policy, and
//! questions, however it works that out.
#![tactic(auto)]

mod desk;
mod numbered;
mod query;
mod shared;
mod state;

pub use desk::Desk;
pub use numbered::Numbered;
pub use query::{Query, QueryFault, Report};
pub use shared::Shared;
pub use state::State;

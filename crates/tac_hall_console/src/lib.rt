//! The console of a hall: an operator's lines, each of which is a call of one seat.
#![tactic(auto)]

mod answering;
mod fault;
mod operating;
mod operator;
mod reloading;
mod replacing;
mod users;

pub use fault::OperatorFault;
pub use operating::operate;
pub use reloading::{Source, Unread, no_devices, unread_devices};
pub use users::has_user;

//! Bodies of authentication packets (RFC 8907, section 5).
#![tactic(auto)]

mod continuation;
mod reply;
mod start;

pub use continuation::{Continue, read_continue};
pub use reply::{AuthenReply, AuthenStatus, read_reply, write_reply};
pub use start::{Action, AuthenType, Service, Start, read_start};

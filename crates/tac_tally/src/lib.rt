//! The accounting records that the server keeps, and what they count up to (RFC 8907, section 7).
#![tactic(auto)]

mod account;
mod accounts;
mod book;
mod counting;
mod limit;
mod recount;
mod tally;

pub use book::{Book, StoreFault};
pub use limit::{AtLimit, RecordLimit};
pub use recount::Recount;
pub use tac_request::{AcctKind, Record};
pub use tally::Tally;

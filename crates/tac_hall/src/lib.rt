//! The hall: one desk that many threads call, and the history of all that they called, which takes
//! no memory.
#![tactic(auto)]

mod answering;
mod call;
mod closing;
mod event;
mod fault;
mod hall;
mod laws;
mod limits;
mod receipt;
mod room;
mod run;
mod seat;

pub use call::{Call, CallAnswer};
pub use closing::Settled;
pub use event::{EmptyHistory, Event};
pub use fault::HallFault;
pub use hall::Hall;
pub use laws::logs_laws;
pub use limits::{Limits, Rotated};
pub use receipt::Receipt;
pub use room::{MAX_SEATS, Room};
pub use run::Run;
pub use seat::Seat;

//! What is said on standard error while a server serves: a thread of its own writes it, so that
//! whoever complains waits for no reader.
#![tactic(auto)]

mod complaints;
mod waiting;
mod writing;

pub use complaints::Complaints;
pub use waiting::{MOST_WAITING, Told, Waiting};
pub use writing::begin_writing;

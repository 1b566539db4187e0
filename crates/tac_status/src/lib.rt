//! How a server is: what of it is counted, and the lines that tell it.
#![tactic(auto)]

mod connection_counts;
mod counting_watch;
mod counts;
mod desk_counts;
mod lines;
mod present;
mod request_counts;

pub use connection_counts::{
    ConnectionCounts, Departure, DepartureRow, REJECTION_COUNT, Rejection, RejectionRow,
};
pub use counting_watch::CountingWatch;
pub use counts::Counts;
pub use desk_counts::DeskCounts;
pub use lines::status_text;
pub use present::{Present, resident_bytes};
pub use request_counts::{Request, RequestCounts};

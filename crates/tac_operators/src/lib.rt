//! Operators at a socket: what several of them type is one console's lines, in the order in which
//! they are taken.
#![tactic(auto)]

mod attending;
mod board;
mod console_socket;
mod exchange;
mod fifo;
mod lines;
mod part;
mod patience;
mod session;
mod socket_place;
mod status;

pub use attending::{Parting, attend};
pub use console_socket::{ConsoleHost, ConsoleSocket};
pub use exchange::{Exchange, ExchangeInput, ExchangeOutput};
pub use patience::Patience;
pub use socket_place::see_socket;
pub use status::Status;

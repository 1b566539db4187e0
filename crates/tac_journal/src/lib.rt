//! The log of an auditor: a file or a pipe that takes whole lines, and who appends them as a
//! connection or a console tells what happens there, or as connections are refused.
#![tactic(auto)]

mod complaint;
mod console;
mod device;
mod disk;
mod journal;
mod lines;
mod log;
mod moment;
mod open_file;
mod opening;
mod pipe;
mod tail;
mod turned_away;
mod typists;
mod writer;

pub use console::ConsoleLog;
pub use device::DeviceLog;
pub use journal::{Journal, OUTPUT_NAME};
pub use log::{Log, Nowhere};
pub use moment::Moments;
pub use opening::{LogFiles, NO_REGULAR_FILE, STANDARD_OUTPUT, UNSYNCED};
pub use tac_audit::Refused;
pub use turned_away::log_turned_away;
pub use typists::{OneInput, Typists};
pub use writer::{Append, LogWriter};

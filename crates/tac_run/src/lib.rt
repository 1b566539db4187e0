//! A run of the program: the texts of its files, what it says on standard error, and the status
//! that it ends with.
#![tactic(auto)]

mod complaint;
mod key;
mod status;
mod text;

pub use complaint::{
    STANDARD_INPUT, complain, complain_of_devices, name_devices_lint, name_lint, open_file,
    out_of_memory, read_file,
};
pub use key::key_of;
pub use status::Status;
pub use text::{TextFault, TextFile, warn_of_readers, warn_of_readers_at};

//! What opening a file, making one or binding a port would come to, without doing it.
#![tactic(auto)]

mod access;
mod place;

pub use place::{see_file, see_folder, see_port};

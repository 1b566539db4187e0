//! An operator's end of a console's socket: what he types, or a file or a pipe has, and what is
//! answered.
#![tactic(auto)]

mod asking;
mod client;
mod heard;
mod hint;
mod session;
mod typing;

pub use client::{ClientEnd, type_lines};
pub use heard::Heard;

//! `tacd serve` over any runtime: its options, its server with a console or operators, and a look at
//! a start.
#![tactic(auto)]

mod checking;
mod condition;
mod console;
mod keeping;
mod operators;
mod options;
mod server;
mod serving;
mod source;

pub use serving::serve_devices;

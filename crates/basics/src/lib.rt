//! What every crate of the server shares: sequences and their equality, symbols, lines, numbers,
//! and writing out.
#![tactic(auto)]

mod equality;
mod lines;
mod number;
mod output;
mod sequence;
mod symbol;

pub use equality::StructuralEq;
pub use lines::{Lines, split_once, without_leading_spaces};
pub use number::read_number;
pub use output::send;
pub use sequence::{Bytes, Sequence};
pub use symbol::{is_symbol, is_text};

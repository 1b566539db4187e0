//! Reading an input, a piece at a time or the whole up to a bound, and writing what it is answered.
#![tactic(auto)]

mod answering;
mod reading;

pub use answering::{AnswerFault, MAX_INPUT, write_answer};
pub use reading::{InputFault, read_piece, read_whole};

//! A connection as a stream of bytes: what is to be done, one packet after another, however the
//! bytes are cut into pieces.
#![tactic(auto)]

mod stream;
mod turn;

pub use stream::Stream;
pub use turn::Turn;

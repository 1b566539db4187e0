//! What an auditor reads: the line of each request that a device made, of each that an operator
//! typed, and of connections that were refused.
#![tactic(auto)]

mod event;
mod json;
mod line;
mod masking;
mod notice;
mod telling;
mod typing;
mod witness;

pub use event::{CameBy, Named, Origin, TurnedAway, Typed, Typist, WhyTurnedAway};
pub use line::{push_line, turned_away_line, typed_line};
pub use masking::{masked, masked_answer};
pub use notice::{Notice, Typing};
pub use typing::typed;
pub use witness::{Nobody, Refused, Witness};

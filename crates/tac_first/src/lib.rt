//! Which of a device's keys the first packet of a connection shows.
#![tactic(auto)]

mod choosing;
mod fit;
mod in_range;
mod keys;
mod so_far;

pub use choosing::choose;
pub use keys::{Keys, Shown};
pub use so_far::shown_by;

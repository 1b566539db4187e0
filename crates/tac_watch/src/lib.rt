//! A desk that is watched: what becomes of it is told to whoever is to know, within the call.
#![tactic(auto)]

mod filling_watch;
mod gauge;
mod watch;
mod watched;

pub use filling_watch::FillingWatch;
pub use gauge::{Fullness, Gauge};
pub use watch::Watch;
pub use watched::Watched;

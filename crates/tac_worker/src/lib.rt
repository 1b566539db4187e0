//! Workers: who serve connections by calls at a hall, each of them many in turns.
#![tactic(auto)]

mod ahead;
mod caller;
mod due;
mod end;
mod hall_caller;
mod hash_work;
mod hearing;
mod laws;
mod line;
mod link;
mod notes;
mod queue;
mod room;
mod source;
mod steady;
mod stop;
mod switchboard;
mod terms;
mod trace;
mod turning;

pub use caller::Caller;
pub use due::Due;
pub use end::End;
pub use hall_caller::HallCaller;
pub use hash_work::HashWork;
pub use hearing::{CHUNK, Chunk};
pub use laws::told_law;
pub use line::Line;
pub use link::Link;
pub use queue::Queue;
pub use source::Source;
pub use steady::Steady;
pub use stop::Stop;
pub use switchboard::{NotAdded, Switchboard};
pub use terms::Terms;

//! The server, and the replay of a script.
#![tactic(auto)]

mod event;
mod events;
mod noticed;
mod number;
mod replaying;
mod script;
mod script_fault;
mod server;
mod shown;
mod turning;

pub use noticed::Noticed;
pub use replaying::{ReplayEnd, ReplayFault, replay, replay_told};
pub use server::{Server, ServerFault};
pub use tac_console::{
    Asked, read_console, write_edit_answer, write_policy_fault, write_query_answer,
    write_size_fault,
};
pub use tac_desk::Desk;
pub use tac_desks::{LiveDesk, PlainDesk};
pub use tac_wire::Key;

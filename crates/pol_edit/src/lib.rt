//! Edits of a policy: reading their lines, and applying them.
#![tactic(auto)]

mod applying;
mod batching;
mod edit;
mod fault;
mod fields;
mod reading;

pub use applying::apply;
pub use batching::{BatchFault, apply_all, edited};
pub use edit::Edit;
pub use fault::EditFault;
pub use reading::read_edit;

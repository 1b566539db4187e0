//! The console of a desk: its lines, and how they are answered.
#![tactic(auto)]

mod adding;
mod asked;
mod batching;
mod edit_answer;
mod faults;
mod percent;
mod query_answer;
mod reading;
mod rules;
mod service_answer;

pub use asked::Asked;
pub use batching::{Action, Batch, Notice};
pub use edit_answer::{write_batch_answer, write_edit_answer, write_load_answer, write_notice};
pub use faults::{write_policy_fault, write_size_fault};
pub use query_answer::write_query_answer;
pub use reading::read_console;
pub use rules::write_shadows;

//! The commands that serve nobody: what is checked, compared, asked, imported and replayed.
//!
//! Each gives the status to end with. What is wrong was said on standard error.
#![tactic(auto)]

mod asking;
mod console_client;
mod devices_lint;
mod importing;
mod listing;
mod policies;
mod replaying;
mod reviewing;
mod server_address;

pub use asking::ask;
pub use console_client::type_at_console;
pub use importing::import;
pub use listing::devices;
pub use policies::{check_policy, lint_policy};
pub use replaying::replay_script;
pub use reviewing::{diff, given, test, why};

//! What a server begins with: the addresses, the policy, the devices and the log that its command
//! line names, and what is said of them before anyone is served.
#![tactic(auto)]

mod address;
mod descriptors;
mod devices;
mod log;
mod looking;
mod notices;
mod numbers;
mod opening;
mod secret_file;
mod served_first;
mod serving_host;

pub use address::{address_of, address_text, socket_address, warn_of_ipv6_alone};
pub use descriptors::warn_of_few;
pub use devices::{devices_of_file, say_lint};
pub use log::{has_log_for_output, is_output, journal_of, see_log, see_output};
pub use looking::{see_address, see_place};
pub use notices::Notices;
pub use numbers::{hashers_of, megabytes, record_limit_of, workers_of};
pub use opening::{desk_of_file, open_desk};
pub use secret_file::SecretFile;
pub use served_first::{First, find_first_file, first_file, tell_of_edits};
pub use serving_host::ServingHost;

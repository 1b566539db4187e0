//! Edits that outlive a server: before the answer to one is told, a store holds the policy with it.
#![tactic(auto)]

mod files;
mod keeper;
mod keeping_watch;
mod output;
mod place;
mod printing;
mod tray;

pub use files::{KeepFiles, KeptFile};
pub use keeper::{Answers, Keeper, Store, Unkept, Untold, send_kept};
pub use keeping_watch::KeepingWatch;
pub use output::{Complaint, KeptOutput};
pub use place::{Place, Use};
pub use printing::Printer;
pub use tray::{HandOver, Tray, Wanted};

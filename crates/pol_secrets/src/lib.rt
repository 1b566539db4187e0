//! Whose secrets differ between two policies, and how that is told. A secret itself never is.
#![tactic(auto)]

mod altering;
mod secret_change;
mod telling;

pub use altering::secret_changes;
pub use secret_change::{Alteration, SecretChange};
pub use telling::write_secret_changes;

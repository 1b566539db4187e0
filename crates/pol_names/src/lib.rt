//! Whom a policy speaks of and what it decides: names, secrets, services, subjects' kinds and
//! names, verdicts.
#![tactic(auto)]

mod decision;
mod name;
mod secret;
mod service;
mod subject_id;

pub use decision::{By, Decision, Verdict};
pub use name::Name;
pub use secret::{ClearSecret, Credential, Secret};
pub use service::{Says, ServiceId, ServiceLine};
pub use sha_crypt::Hash;
pub use subject_id::{Kind, SubjectId};

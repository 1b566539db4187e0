//! The policy: groups and users with ordered rules, its text, and the decision that it gives.
#![tactic(auto)]

mod chains;
mod change;
mod checking;
mod draft;
mod fault;
mod level;
mod policy;
mod printing;
mod queries;
mod reading;
mod setting;
mod subject;
mod version;

pub use fault::{ChainFault, PolicyFault, PolicyRefusal};
pub use pol_names::{
    By, ClearSecret, Credential, Decision, Hash, Kind, Name, Says, Secret, ServiceId, ServiceLine,
    SubjectId, Verdict,
};
pub use policy::Policy;
pub use reading::body_of;
pub use subject::{Rule, Subject};
pub use version::TextVersion;

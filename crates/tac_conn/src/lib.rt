//! One connection of the server: what it says for each packet, and what it asks of the desk,
//! which has the policy and the records (RFC 8907, sections 4.1 to 4.4, and 5 to 7).
#![tactic(auto)]

mod accounting;
mod ask;
mod authorisation;
mod conn;
mod continuation;
mod judging;
mod outcome;
mod packet;
mod reading;
mod reply;
mod sent;
mod session;
mod start;
mod step;
mod typed;

pub use ask::{Answer, Ask, AskKind, Proof, Slot};
pub use conn::Conn;
pub use packet::Packet;
pub use pol_names::{By, Decision, Kind, Name, SubjectId};
pub use reading::{Asker, Reading, Received};
pub use reply::{Reply, ReplyBody};
pub use sent::SENT_MAX;
pub use sha_crypt::Hash;
pub use step::Step;
pub use tac_authen::Service;
pub use tac_request::{AcctKind, Arguments, Record};
pub use typed::{HashRoom, Typed};

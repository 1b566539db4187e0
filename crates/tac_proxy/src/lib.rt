//! The header that a proxy puts in front of a connection's bytes, to tell who called ("The PROXY
//! protocol, versions 1 & 2", sections 2.1 and 2.2).
#![tactic(auto)]

mod binary;
mod front;
mod line;
mod name;
mod reading;
mod told;
mod vectors;

pub use name::CommonName;
pub use reading::read_proxy;
pub use told::{Certificate, Header, Proxy, Source};

//! The other end of a connection.

use std::net::SocketAddr;
use tac_proxy::Certificate;

/// How a connection came.
#[derive(Clone, Copy)]
pub enum Way {
    /// At the port.
    Port,
    /// At the proxy's socket. The proxy has told this of the device's certificate.
    Proxy(Certificate),
}

/// The other end of a connection: the device's address and port, and how it came.
#[derive(Clone, Copy)]
pub struct Peer {
    pub address: SocketAddr,
    pub way: Way,
}

//! What a header tells.

ghost use Rattle.std.specs.Prelude.{◌≡◌};
ghost use Rattle.tac_proxy.specs.Certificate as certificates;

use crate::name::CommonName;
use std::net::SocketAddr;

/// Who called, as a header tells it.
#[derive(Clone, Copy, Debug)]
pub enum Source {
    /// Nobody: the proxy calls on its own, as to see whether the server is up. Only version 2 has
    /// such a header, by its command LOCAL.
    Local,
    /// Somebody of whom no address is told: UNKNOWN in version 1, and in version 2 all but TCP over
    /// IPv4 and IPv6.
    Unknown,
    /// The caller that has this address and port.
    Caller(SocketAddr),
}

/// What a header tells of the caller's certificate.
#[derive(Clone, Copy, Debug)]
pub enum Certificate {
    /// Nothing: it is of version 1, or has no field about TLS.
    NotTold,
    /// No certificate was verified, or there was none, or the caller didn't come by TLS.
    Unverified,
    /// The caller came by TLS, and showed a certificate that the proxy verified: one of this common
    /// name. None where it has no such name, where no name is told, and where it is one of more
    /// than 64 bytes, which no device has.
    Verified(Option<CommonName>),
}

impl Certificate {
    /// The common name that is told of it, if one is.
    pub fn name(&self) -> Option<CommonName>
        ensures { result ≡ certificates.told_name self.now }
    {
        match self {
            Certificate::NotTold | Certificate::Unverified => None,
            Certificate::Verified(name) => *name,
        }
    }
}

/// A whole header, and what it tells.
#[derive(Debug, Drop)]
pub struct Header {
    /// Who called.
    pub source: Source,
    /// The certificate with which he came.
    pub certificate: Certificate,
    /// How many bytes the header takes; those after it are the connection's.
    pub used: usize,
}

/// What the bytes of a connection begin with.
#[derive(Debug, Drop)]
pub enum Proxy {
    /// No whole header yet: more bytes have to come.
    Need,
    /// No header, whatever comes.
    Fault,
    /// A header.
    Found(Header),
}

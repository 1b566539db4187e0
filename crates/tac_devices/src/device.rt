//! A device, or several that share what lets them in.

ghost use Rattle.std.specs.Prelude.{◌≡◌};
ghost use Rattle.tac_devices.specs.Tls as specs;

use crate::prefix::Prefix;
use basics::Sequence;
use pol_names::Name;
use tac_first::Keys;
use tac_proxy::{Certificate, CommonName};

/// The addresses of a device that begin so, and the line that says it.
#[derive(Clone, Copy)]
pub struct Place {
    pub prefix: Prefix,
    pub line: usize,
}

/// The secrets that a device shares with the server, and the lines that say them.
pub struct Secret {
    /// The present key, and one that the device had before, if that is still taken.
    pub keys: Keys,
    /// The line that says the present key.
    pub line: usize,
    /// The line that says the old one, if there is one.
    pub old_line: Option<usize>,
}

// By hand, so that a proof of an owner has one call at each exit, not a drop of each field.
impl Drop for Secret {
    fn drop(self) {
        let Secret {
            keys: _,
            line: _,
            old_line: _,
        } = self;
    }
}

/// With which certificates a device may come inside TLS, by a proxy that verified them (RFC 9887).
#[derive(Clone, Copy)]
pub enum Tls {
    /// With any. That it was verified is taken for granted where the proxy tells nothing of it.
    Any,
    /// With one of this common name.
    Named(CommonName),
}

impl Tls {
    /// Whether a device may come with a certificate of which the proxy told this.
    pub fn admits(&self, certificate: &Certificate) -> bool
        ensures { result ≡ specs.admits self.now certificate.now }
    {
        match (self, certificate) {
            (_, Certificate::Unverified) => false,
            (Tls::Any, Certificate::NotTold | Certificate::Verified(_)) => true,
            (Tls::Named(wanted), Certificate::Verified(Some(name))) => wanted.is(name),
            (Tls::Named(_), Certificate::NotTold | Certificate::Verified(None)) => false,
        }
    }
}

/// A device, or several that share what lets them in. One of a text has a secret, `tls` or both.
pub struct Device {
    /// What it is called.
    pub name: Name,
    /// The addresses that it has, in the order of the text.
    pub places: Sequence<Place>,
    /// The secrets that it shares with the server, if there are any.
    pub secret: Option<Secret>,
    /// With which certificates it may come inside TLS, if it may.
    pub tls: Option<Tls>,
    /// The line that says so, if one does.
    pub tls_line: Option<usize>,
    /// How many connections each of its addresses may have at once, if the text says it.
    pub connections: Option<u32>,
}

// By hand, so that a proof of an owner has one call at each exit, not a drop of each field.
impl Drop for Device {
    fn drop(self) {
        let Device {
            name: _,
            places: _,
            secret: _,
            tls: _,
            tls_line: _,
            connections: _,
        } = self;
    }
}

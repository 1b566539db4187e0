//! Where a server is called.

use crate::port::Port;
use crate::proxy_socket::ProxySocket;
use std::sync::atomic::{AtomicBool, Ordering};

/// Where a server is called: at a port by devices, at a socket by a proxy, or at both.
pub struct Listeners {
    pub(crate) port: Option<Port>,
    pub(crate) proxy: Option<ProxySocket>,
    is_left: AtomicBool,
}

// By hand, so that a proof of an owner has one call at each exit, not a drop of each field.
impl Drop for Listeners {
    fn drop(self) {
        let Listeners {
            port: _,
            proxy: _,
            is_left: _,
        } = self;
    }
}

impl Listeners {
    /// These.
    pub fn new(port: Option<Port>, proxy: Option<ProxySocket>) -> Listeners {
        Listeners {
            port,
            proxy,
            is_left: AtomicBool::new(false),
        }
    }

    /// Nobody takes connections here any more.
    pub(crate) fn leave(&self) {
        self.is_left.store(true, Ordering::SeqCst);
    }

    /// Whether all workers that took connections here have ended.
    pub fn is_left(&self) -> bool {
        self.is_left.load(Ordering::SeqCst)
    }

    /// Takes no more connections. Whoever waits for one is told at once that there is none, and
    /// those in the queues are closed.
    pub(crate) fn close(&self) {
        if let Some(port) = &self.port {
            port.close();
        }
        if let Some(proxy) = &self.proxy {
            proxy.close();
        }
    }
}

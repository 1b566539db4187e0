//! The socket at which a proxy calls.

use mio::net;
use std::io;
use std::net::Shutdown;
use std::os::fd::OwnedFd;
use std::os::unix::net::{UnixListener, UnixStream};

/// A Unix socket at which a proxy calls that takes TLS off the connections of devices (RFC 9887),
/// and that can be closed while threads wait for connections there. Its file stays: the next server
/// takes its place.
#[derive(Drop)]
pub struct ProxySocket {
    listener: UnixListener,
    // the same socket as a stream, which can be shut down
    shutter: UnixStream,
}

impl ProxySocket {
    /// One at which this listens. The error is the system's, which has no more descriptors.
    pub fn new(listener: UnixListener) -> io::Result<ProxySocket> {
        listener.set_nonblocking(true)?;
        let shutter = UnixStream::from(OwnedFd::from(listener.try_clone()?));
        Ok(ProxySocket { listener, shutter })
    }

    /// What accepts connections there without waiting.
    pub(crate) fn listener(&self) -> io::Result<net::UnixListener> {
        Ok(net::UnixListener::from_std(self.listener.try_clone()?))
    }

    /// Takes no more connections. Those in the queue are closed.
    pub(crate) fn close(&self) {
        // to shut down what is closed already fails, and does no harm
        let _ = self.shutter.shutdown(Shutdown::Both);
    }
}

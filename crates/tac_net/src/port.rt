//! The port that devices call.

use mio::net;
use std::io;
use std::net::{Net, Shutdown, SocketAddr, TcpListener, TcpStream};
use std::os::fd::OwnedFd;

/// A port that is listened on, and that can be closed while threads wait for connections there.
#[derive(Drop)]
pub struct Port {
    listener: TcpListener,
    // the same socket as a stream, which can be shut down
    shutter: TcpStream,
}

impl Port {
    /// Listens at an address of this machine. The error is the system's: the address is another
    /// machine's, the port is in use, or it takes rights that the process lacks.
    pub fn bind<R: Net>(rt: &R, address: SocketAddr) -> io::Result<Port> {
        // of this crate, since its queue is as long as the system allows
        let listener = TcpListener::from(net::TcpListener::bind(rt, address)?);
        let shutter = TcpStream::from(OwnedFd::from(listener.try_clone()?));
        Ok(Port { listener, shutter })
    }

    /// The address that is listened at.
    pub fn address(&self) -> io::Result<SocketAddr> {
        self.listener.local_addr()
    }

    /// What accepts connections there without waiting.
    pub(crate) fn listener(&self) -> io::Result<net::TcpListener> {
        Ok(net::TcpListener::from_std(self.listener.try_clone()?))
    }

    /// Takes no more connections. Whoever waits for one is told at once that there is none, and
    /// those in the queue are closed.
    pub(crate) fn close(&self) {
        // to shut down a port that is closed already fails, and does no harm
        let _ = self.shutter.shutdown(Shutdown::Both);
    }
}

//! Where a server is that is asked.

use std::io::{self, ErrorKind};
use std::net::{IpAddr, Net, TcpListener, TcpStream, ToSocketAddrs};
use std::time::{Clock, Duration};
use tac_ask::time_left;

/// The port of TACACS+ (RFC 8907, section 4.1).
const TACACS: u16 = 49;

/// A host, by an address or a name, and a port.
#[derive(Clone, Copy)]
pub(crate) struct ServerAddress<'a> {
    pub(crate) host: &'a str,
    pub(crate) port: u16,
}

// A port that a text says.
fn port_of(text: &str) -> Option<u16> {
    match text.parse::<u16>() {
        Ok(0) => None,
        Ok(port) => Some(port),
        Err(_) => None,
    }
}

// The address in brackets, of which the first was taken off.
fn bracketed(text: &str) -> Option<ServerAddress<'_>> {
    let (host, rest) = text.split_once(']')?;
    if host.parse::<IpAddr>().is_err() {
        return None;
    }
    if rest.is_empty() {
        return Some(ServerAddress { host, port: TACACS });
    }
    let port = port_of(rest.strip_prefix(':')?)?;
    Some(ServerAddress { host, port })
}

/// The address that a text says: an address, or HOST, HOST:PORT, [ADDRESS] or [ADDRESS]:PORT.
pub(crate) fn address_of(text: &str) -> Option<ServerAddress<'_>> {
    if text.parse::<IpAddr>().is_ok() {
        return Some(ServerAddress {
            host: text,
            port: TACACS,
        });
    }
    if let Some(rest) = text.strip_prefix('[') {
        return bracketed(rest);
    }
    let (host, port) = match text.split_once(':') {
        Some((host, port)) => (host, port_of(port)?),
        None => (text, TACACS),
    };
    if host.is_empty() {
        return None;
    }
    Some(ServerAddress { host, port })
}

/// Calls the first of a server's addresses that takes the call until a moment.
pub(crate) fn connect<H>(
    host: &H,
    server: ServerAddress<'_>,
    until: Duration,
) -> io::Result<TcpStream>
where
    H: Clock + Net<Listener = TcpListener, Stream = TcpStream>,
{
    let mut last = io::Error::new(ErrorKind::NotFound, "this host has no address");
    for address in (server.host, server.port).to_socket_addrs(host)? {
        let left = time_left(host, until)?;
        match TcpStream::connect_timeout(host, &address, left) {
            Ok(stream) => return Ok(stream),
            Err(error) => last = error,
        }
    }
    Err(last)
}

//! The address that devices call.

use basics::Bytes;
use clap::ArgMatches;
use std::fs;
use std::io::Read;
use std::net::{IpAddr, SocketAddr};
use std::rt::Files;
use tac_command_line::{ADDRESS, word_of};
use tac_run::{Status, out_of_memory};

/// Where the system says whether `::` is every IPv6 address alone.
const IPV6_ALONE: &str = "/proc/sys/net/ipv6/bindv6only";

/// The address to listen at. The error is the status to end with, and the reason was said.
pub fn address_of<R: Eprint>(rt: &R, matches: &ArgMatches<'_>) -> Result<IpAddr, Status> {
    match matches.get_one::<IpAddr>(ADDRESS) {
        Some(address) => Ok(address),
        None => {
            let word = word_of(matches, ADDRESS);
            let _ = eprintln!(rt;
                "error: invalid value '{word}' for '--address <ADDR>': invalid IP address syntax

For more information, try '--help'."
            );
            Err(Status::BadCommandLine)
        }
    }
}

/// The address with the port, if there is one.
pub fn socket_address(address: IpAddr, port: Option<u16>) -> Option<SocketAddr> {
    Some(SocketAddr::from((address, port?)))
}

/// How an address is written that isn't every one of the machine.
pub fn address_text<R: Eprint + AllocGlobal>(
    rt: &R,
    address: IpAddr,
) -> Result<Option<Bytes>, Status> {
    if address.is_unspecified() {
        return Ok(None);
    }
    match format!(in rt.alloc(); "{address}") {
        Ok(text) => Ok(Some(Bytes::from(text.into_bytes()))),
        Err(_) => Err(out_of_memory(rt)),
    }
}

// Whether a socket at `::` takes calls by IPv6 alone. Where the system doesn't tell, it doesn't.
fn is_ipv6_alone<R: Files>(rt: &R) -> bool {
    let Ok(file) = fs::open(rt, IPV6_ALONE) else {
        return false;
    };
    let mut file = file;
    let mut text = [0; 16];
    match file.read(&mut text) {
        Ok(_) => text[0] == b'1',
        Err(_) => false,
    }
}

/// Says so on standard error where `::` isn't every address of both kinds. It serves all the same.
pub fn warn_of_ipv6_alone<R: Files + Eprint>(rt: &R, address: Option<SocketAddr>) {
    let Some(SocketAddr::V6(address)) = address else {
        return;
    };
    if address.ip().is_unspecified() && is_ipv6_alone(rt) {
        let _ = eprintln!(rt;
            "tacd: '::' takes calls by IPv6 alone, since net.ipv6.bindv6only is 1 on this machine: \
             devices that call by IPv4 aren't served"
        );
    }
}

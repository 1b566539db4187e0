//! What would be found at a path, or at a port.

use crate::access::{Wanted, access};
use std::fs;
use std::io::{self, Error, ErrorKind};
use std::net::{Net, SocketAddr, UdpSocket};
use std::os::unix::fs::FileTypeExt;
use std::rt::Files;

/// The error at which a socket is opened as a file.
const ENXIO: i32 = 6;

/// The folder that a path is in.
fn folder_of(path: &str) -> &str {
    match path.rsplit_once('/') {
        Some(("", _)) => "/",
        Some((folder, _)) => folder,
        None => ".",
    }
}

/// Whether files could be made in the folder of a path. The error is the system's. That a disk is
/// full isn't found.
pub fn see_folder(path: &str) -> io::Result<()> {
    access(folder_of(path), Wanted::MakeFiles)
}

/// Whether a file could be opened at a path to read it and to write to it, and be made there if it
/// isn't there. The error is the system's.
pub fn see_file<R: Files>(rt: &R, path: &str) -> io::Result<()> {
    match fs::metadata(rt, path) {
        Ok(found) if found.is_dir() => Err(Error::from_raw_os_error(libc::EISDIR)),
        Ok(found) if found.file_type().is_socket() => Err(Error::from_raw_os_error(ENXIO)),
        Ok(_) => access(path, Wanted::ReadAndWrite),
        Err(error) if error.kind() == ErrorKind::NotFound => see_folder(path),
        Err(error) => Err(error),
    }
}

/// Whether a port of this machine could be bound, whoever has it now. The error is the system's.
///
/// The system judges the right to a port and the address alike for UDP, whose port is bound for that
/// and let go. The port of TCP isn't touched: who listens there goes on, and nobody is called. What
/// may be so of UDP alone is passed over: that its port is in use, and that a rule of the machine
/// forbids it, which the system tells by another error than a lack of rights.
pub fn see_port<R: Net>(rt: &R, address: SocketAddr) -> io::Result<()> {
    let Err(error) = UdpSocket::bind(rt, address) else {
        return Ok(());
    };
    let is_in_use = error.kind() == ErrorKind::AddrInUse;
    if is_in_use || error.raw_os_error() == Some(libc::EPERM) {
        return Ok(());
    }
    Err(error)
}

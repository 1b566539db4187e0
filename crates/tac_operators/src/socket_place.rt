//! What a server would find at the place of a socket.

use crate::console_socket::{NO_SOCKET, TAKEN};
use basics::split_once;
use dry_run::see_folder;
use std::fs;
use std::io::{self, Error, ErrorKind, Read};
use std::os::unix::fs::FileTypeExt;
use std::os::unix::net::SocketAddr;
use std::rt::Files;

/// How many bytes of the names in a folder are looked at.
const GLANCE: usize = 1_024;

// Whether a folder, whose path ends in a slash, has anything but the socket of a server that was
// killed.
fn has_others<R: Files>(rt: &R, folder: &str) -> io::Result<bool> {
    let mut names = rt.open_dir(folder)?;
    let mut text = [0; GLANCE];
    let n = names.read(&mut text)?;
    let mut rest = text.split_at(n.min(GLANCE)).0;
    'names: for _ in 0..GLANCE {
        let Some((name, others)) = split_once(rest, 0) else {
            return Ok(false);
        };
        if name != b".".as_slice() && name != b"..".as_slice() && name != b"s".as_slice() {
            return Ok(true);
        }
        rest = others;
    }
    Ok(false)
}

// Whether the folder could be made in which a socket is made first. What a server left there that
// was killed is no hindrance.
fn see_maker<R: Files + AllocGlobal>(rt: &R, path: &str) -> io::Result<()> {
    let folder = format!(in rt.alloc(); "{path}.new")?;
    match fs::symlink_metadata(rt, folder.as_str()) {
        Ok(found) if !found.is_dir() => Err(Error::new(ErrorKind::AlreadyExists, TAKEN)),
        Ok(_) => {
            let names = format!(in rt.alloc(); "{path}.new/")?;
            if has_others(rt, names.as_str())? {
                return Err(Error::new(ErrorKind::AlreadyExists, TAKEN));
            }
            Ok(())
        }
        Err(_) => Ok(()),
    }
}

/// Whether a server could listen at a socket at a path ([`ConsoleHost::open_socket`]), as far as is
/// seen there: nothing is made, changed or called. So it doesn't matter whether a server listens
/// there already. Nor does a FIFO, where one may be taken away.
///
/// [`ConsoleHost::open_socket`]: crate::ConsoleHost::open_socket
pub fn see_socket<R: Files + AllocGlobal>(rt: &R, path: &str, may_be_fifo: bool) -> io::Result<()> {
    if let Ok(found) = fs::symlink_metadata(rt, path) {
        let file_type = found.file_type();
        if !file_type.is_socket() && !(may_be_fifo && file_type.is_fifo()) {
            return Err(Error::new(ErrorKind::AlreadyExists, NO_SOCKET));
        }
    }
    see_maker(rt, path)?;
    see_folder(path)?;
    let within = format!(in rt.alloc(); "{path}.new/s")?;
    SocketAddr::from_pathname(within.as_str())?;
    Ok(())
}

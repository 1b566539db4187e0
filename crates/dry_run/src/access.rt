//! What the system lets this process do with a file.

ghost use Rattle.std.specs.Prelude.{IfSome};
ghost use Rattle.libc.specs.Io.{Ended};

use libc::PATH_MAX;
use std::io::{self, Error};

/// What is asked of a file, or of a folder.
#[derive(Clone, Copy)]
pub(crate) enum Wanted {
    /// To read the file and to write to it.
    ReadAndWrite,
    /// To make files in the folder.
    MakeFiles,
}

impl Wanted {
    fn mode(self) -> i32 {
        match self {
            Wanted::ReadAndWrite => libc::R_OK | libc::W_OK,
            Wanted::MakeFiles => libc::W_OK | libc::X_OK,
        }
    }
}

// A path as the C library takes it, unless it is too long.
fn c_path(path: &[u8]) -> Option<[u8; PATH_MAX]>
    ensures { IfSome result Ended }
{
    if path.len() >= PATH_MAX {
        return None;
    }
    let mut text = [0; PATH_MAX];
    'bytes: for i in 0..path.len() {
        text[i] = path[i];
    }
    text[PATH_MAX - 1] = 0;
    Some(text)
}

/// Whether this process may do that at a path. The error is the system's.
pub(crate) fn access(path: &str, wanted: Wanted) -> io::Result<()> {
    let Some(text) = c_path(path.as_bytes()) else {
        return Err(Error::from_raw_os_error(libc::ENAMETOOLONG));
    };
    if unsafe { libc::access(&text, wanted.mode()) } < 0 {
        return Err(Error::from_raw_os_error(os::errno()));
    }
    Ok(())
}

//! The files with secrets that are read again while a server serves.

use basics::Bytes;
use std::alloc::{AllocError, Global};
use std::io::ErrorKind;
use std::rt::Files;
use tac_devices::Devices;
use tac_hall_console::Unread;
use tac_io::MAX_INPUT;
use tac_run::{TextFault, TextFile};

fn why(told: Result<String, AllocError>) -> Unread {
    match told {
        Ok(told) => Unread::Why(Bytes::from(told.into_bytes())),
        Err(_) => Unread::Memory,
    }
}

// Why an operator doesn't get the text of the file at a path.
fn unread(alloc: Global, path: &str, fault: &TextFault) -> Unread {
    match fault {
        TextFault::Memory => Unread::Memory,
        TextFault::Unopened(error) if error.kind() == ErrorKind::OutOfMemory => Unread::Memory,
        fault => why(format!(in alloc; "{path}: {fault}")),
    }
}

/// A file with secrets, which is opened and read each time that its text is asked for. What is
/// remarked on it is said on the host's standard error.
#[derive(Drop)]
pub struct SecretFile<'a, R, H> {
    /// What opens it.
    pub rt: &'a R,
    /// Whose standard error it is.
    pub host: &'a H,
    /// The file.
    pub file: TextFile<'a>,
}

impl<'a, R: Files, H: Eprint> SecretFile<'a, R, H> {
    /// That of a policy.
    pub fn of_policy(rt: &'a R, host: &'a H, path: &'a str) -> SecretFile<'a, R, H> {
        SecretFile {
            rt,
            host,
            file: TextFile::secret(path, MAX_INPUT),
        }
    }

    /// That of devices.
    pub fn of_devices(rt: &'a R, host: &'a H, path: &'a str) -> SecretFile<'a, R, H> {
        SecretFile {
            rt,
            host,
            file: TextFile::secret(path, Devices::MAX_TEXT),
        }
    }

    /// Its text.
    pub fn text(&self, alloc: Global) -> Result<Vec<u8>, Unread> {
        match self.file.text(self.rt, self.host, alloc) {
            Ok(text) => Ok(text),
            Err(fault) => Err(unread(alloc, self.file.path, &fault)),
        }
    }
}

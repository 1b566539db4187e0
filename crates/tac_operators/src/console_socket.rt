//! The file of a socket, and the one at which operators come in.

use crate::fifo::is_unread;
use std::fs::{DirBuilder, File, OpenOptions, Permissions};
use std::io::{ErrorKind, IsTerminal, Read};
use std::net::{Net, Shutdown};
use std::os::fd::OwnedFd;
use std::os::unix::fs::{DirBuilderExt, FileTypeExt, PermissionsExt};
use std::os::unix::net::{UnixListener, UnixStream};
use std::rt::Files;
use std::thread::Threads;
use std::time::Clock;
use std::{fs, io};

/// The rights of the folder in which the socket is made: its owner's alone.
const FOLDER_MODE: u32 = 0o700;

/// The rights of a console's socket: its owner's alone.
const MODE: u32 = 0o600;

/// What is said where something else is in a socket's place.
pub(crate) const NO_SOCKET: &str = "it is no socket";

/// What is said where the folder can't be made, since something has its name.
pub(crate) const TAKEN: &str = "something else is at this path with '.new' after it";

/// What the system does for consoles, and for a proxy's socket.
pub trait ConsoleHost {
    /// Listens at a path, at a socket of these rights, as in `chmod`: nobody has more at any
    /// moment. What a server left there that has ended is replaced. The error is the system's, or
    /// says that something else is there or that a server listens there.
    fn open_socket(&self, path: &str, mode: u32) -> io::Result<UnixListener>;

    /// Removes the file of such a socket.
    fn remove_socket(&self, path: &str) -> io::Result<()>;

    /// Whether there is a FIFO at a path.
    fn is_fifo(&self, path: &str) -> bool;

    /// Opens a FIFO for reading and writing, which waits for nobody.
    fn open_fifo(&self, path: &str) -> io::Result<File>;

    /// Opens a FIFO for writing, which waits until somebody has it open for reading.
    fn await_reader(&self, path: &str) -> io::Result<File>;

    /// Whether somebody types at standard input.
    fn is_terminal(&self) -> bool;

    /// What the system tells of this process, as the beginning of /proc/self/status, and how many
    /// bytes that are.
    fn process_status(&self, into: &mut [u8]) -> io::Result<usize>;
}

impl ConsoleHost for HostRuntime {
    fn open_socket(&self, path: &str, mode: u32) -> io::Result<UnixListener> {
        open_socket(self, path, mode)
    }

    fn remove_socket(&self, path: &str) -> io::Result<()> {
        fs::remove_file(self, path)
    }

    fn is_fifo(&self, path: &str) -> bool {
        match fs::symlink_metadata(self, path) {
            Ok(metadata) => metadata.file_type().is_fifo(),
            Err(_) => false,
        }
    }

    fn open_fifo(&self, path: &str) -> io::Result<File> {
        OpenOptions::new().read(true).write(true).open(self, path)
    }

    fn await_reader(&self, path: &str) -> io::Result<File> {
        OpenOptions::new().write(true).open(self, path)
    }

    fn is_terminal(&self) -> bool {
        self.stdin().is_terminal()
    }

    fn process_status(&self, into: &mut [u8]) -> io::Result<usize> {
        let mut file = fs::open(self, "/proc/self/status")?;
        file.read(into)
    }
}

// Whether the place is free: nothing is there, or a socket at which nobody listens.
fn see_that_it_is_free<R: Files + Net>(rt: &R, path: &str) -> io::Result<()> {
    let Ok(metadata) = fs::symlink_metadata(rt, path) else {
        return Ok(());
    };
    if !metadata.file_type().is_socket() {
        return Err(io::Error::new(ErrorKind::AlreadyExists, NO_SOCKET));
    }
    match UnixStream::connect(rt, path) {
        Ok(_) => Err(io::Error::new(ErrorKind::AddrInUse, "a server is there already")),
        Err(error) if error.kind() == ErrorKind::ConnectionRefused => Ok(()),
        Err(error) => Err(error),
    }
}

// Makes the folder in which the socket is made. What is told is told of the socket's own path.
fn make_folder<R: Files>(rt: &R, folder: &str) -> io::Result<()> {
    match DirBuilder::new().mode(FOLDER_MODE).create(rt, folder) {
        Err(error) if error.kind() == ErrorKind::AlreadyExists => {
            Err(io::Error::new(ErrorKind::AlreadyExists, TAKEN))
        }
        made => made,
    }
}

// Listens at a path, and moves that to another one once its rights are set.
fn listen_at<R: Files + Net>(
    rt: &R,
    within: &str,
    path: &str,
    mode: u32,
) -> io::Result<UnixListener> {
    let listener = UnixListener::bind(rt, within)?;
    fs::set_permissions(rt, within, Permissions::from_mode(mode))?;
    fs::rename(rt, within, path)?;
    Ok(listener)
}

fn open_socket<R: Files + Net + AllocGlobal>(
    rt: &R,
    path: &str,
    mode: u32,
) -> io::Result<UnixListener> {
    see_that_it_is_free(rt, path)?;
    let folder = format!(in rt.alloc(); "{path}.new")?;
    let within = format!(in rt.alloc(); "{path}.new/s")?;
    // what a server left that was killed at this point
    let _ = fs::remove_file(rt, within.as_str());
    let _ = fs::remove_dir(rt, folder.as_str());
    make_folder(rt, folder.as_str())?;
    let listening = listen_at(rt, within.as_str(), path, mode);
    let _ = fs::remove_file(rt, within.as_str());
    let _ = fs::remove_dir(rt, folder.as_str());
    listening
}

/// A socket at which operators come in, and which can be closed while threads wait there.
#[derive(Drop)]
pub struct ConsoleSocket<'a> {
    path: &'a str,
    listener: UnixListener,
    // the same socket as a stream, which can be shut down
    shutter: UnixStream,
}

impl<'a> ConsoleSocket<'a> {
    /// Listens at a path ([`ConsoleHost::open_socket`]). A FIFO that nobody reads is taken away
    /// first.
    pub fn open<R>(rt: &R, path: &'a str) -> io::Result<ConsoleSocket<'a>>
    where
        R: ConsoleHost + Threads + Clock + Sync,
    {
        if rt.is_fifo(path) && is_unread(rt, path)? {
            rt.remove_socket(path)?;
        }
        let listener = rt.open_socket(path, MODE)?;
        let shutter = UnixStream::from(OwnedFd::from(listener.try_clone()?));
        Ok(ConsoleSocket {
            path,
            listener,
            shutter,
        })
    }

    /// Waits for an operator.
    pub(crate) fn accept(&self) -> io::Result<UnixStream> {
        let (stream, _) = self.listener.accept()?;
        Ok(stream)
    }

    /// Takes no more operators, and removes the file. Whoever waits for one is told at once that
    /// there is none.
    pub(crate) fn close<R: ConsoleHost>(&self, rt: &R) {
        // Before it is closed, since another server may put its own there from then on. To remove
        // what is gone, or to shut down what is closed, fails and does no harm.
        let _ = rt.remove_socket(self.path);
        let _ = self.shutter.shutdown(Shutdown::Both);
    }
}

//! The host of a server, whose standard error nobody waits for.

use basics::Bytes;
use std::alloc::Global;
use std::fmt::Display;
use std::fs::File;
use std::io;
use std::net::{Net, SocketAddr};
use std::os::fd::OwnedFd;
use std::os::unix::net::UnixListener;
use std::sync::Wait;
use std::thread::Threads;
use std::time::{Clock, Duration};
use tac_complaints::Complaints;
use tac_journal::LogFiles;
use tac_keep::{KeepFiles, Use};
use tac_operators::ConsoleHost;

/// Another host, but what is said on its standard error is left for the thread that writes it
/// ([`tac_complaints`]): a reader who is stuck holds up nobody who serves.
#[derive(Clone, Copy)]
pub struct ServingHost<'a, H> {
    /// The other one.
    pub host: &'a H,
    /// Where complaints are left.
    pub complaints: &'a Complaints,
}

impl<H: Wait + AllocGlobal> Eprint for ServingHost<'_, H> {
    fn eprint<D: Display + Drop>(&self, value: D) -> io::Result<()> {
        let text = format!(in self.host.alloc(); "{value}").ok();
        let line = text.map(|text| Bytes::from(text.into_bytes()));
        self.complaints.add(self.host, line);
        Ok(())
    }

    fn eprintln<D: Display + Drop>(&self, value: D) -> io::Result<()> {
        self.eprint(format_args!("{value}\n"))
    }
}

impl<H: Wait> Wait for ServingHost<'_, H> {}

impl<H: Threads> Threads for ServingHost<'_, H> {}

impl<H: AllocGlobal> Alloc for ServingHost<'_, H> {
    type A = Global;

    fn alloc(&self) -> Global {
        self.host.alloc()
    }
}

impl<H: Clock> Clock for ServingHost<'_, H> {
    fn monotonic(&self) -> io::Result<Duration> {
        self.host.monotonic()
    }

    fn since_1970(&self) -> io::Result<Duration> {
        self.host.since_1970()
    }

    fn sleep(&self, duration: Duration) {
        self.host.sleep(duration)
    }
}

impl<H: Net> Net for ServingHost<'_, H> {
    type Stream = H::Stream;

    type Listener = H::Listener;

    fn bind(&self, addr: SocketAddr) -> io::Result<H::Listener> {
        self.host.bind(addr)
    }

    fn connect(&self, addr: SocketAddr) -> io::Result<H::Stream> {
        self.host.connect(addr)
    }
}

impl<H: LogFiles> LogFiles for ServingHost<'_, H> {
    fn open_log(&self, path: &str) -> io::Result<File> {
        self.host.open_log(path)
    }

    fn sync_log(&self, file: &File) -> io::Result<()> {
        self.host.sync_log(file)
    }

    fn open_pipe(&self, path: &str) -> io::Result<File> {
        self.host.open_pipe(path)
    }

    fn share_output(&self) -> io::Result<OwnedFd> {
        self.host.share_output()
    }
}

impl<H: KeepFiles> KeepFiles for ServingHost<'_, H> {
    fn find_file(&self, path: &str, uses: &[Use<'_>]) -> io::Result<bool> {
        self.host.find_file(path, uses)
    }

    fn find_own(&self, path: &str, uses: &[Use<'_>]) -> io::Result<bool> {
        self.host.find_own(path, uses)
    }

    fn lock_file(&self, path: &str) -> io::Result<File> {
        self.host.lock_file(path)
    }

    fn replace_file(&self, path: &str, draft: &str, bytes: &[u8]) -> io::Result<()> {
        self.host.replace_file(path, draft, bytes)
    }

    fn unlink_file(&self, path: &str) -> io::Result<()> {
        self.host.unlink_file(path)
    }
}

impl<H: ConsoleHost> ConsoleHost for ServingHost<'_, H> {
    fn open_socket(&self, path: &str, mode: u32) -> io::Result<UnixListener> {
        self.host.open_socket(path, mode)
    }

    fn remove_socket(&self, path: &str) -> io::Result<()> {
        self.host.remove_socket(path)
    }

    fn is_fifo(&self, path: &str) -> bool {
        self.host.is_fifo(path)
    }

    fn open_fifo(&self, path: &str) -> io::Result<File> {
        self.host.open_fifo(path)
    }

    fn await_reader(&self, path: &str) -> io::Result<File> {
        self.host.await_reader(path)
    }

    fn is_terminal(&self) -> bool {
        self.host.is_terminal()
    }

    fn process_status(&self, into: &mut [u8]) -> io::Result<usize> {
        self.host.process_status(into)
    }
}

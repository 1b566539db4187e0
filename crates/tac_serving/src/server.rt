//! The server, from its options to its end.
//!
//! Each fault is said on standard error. The status tells it too, so it doesn't matter whether
//! that could be written.

ghost use Rattle.std.specs.Prelude.{◌≡◌, ◌⊎◌, IfErr};
ghost use Rattle.tac_serving.specs.Ending.{end_of_serving, status_of_serving};

use crate::console::{ConsoleInput, NoConsole};
use crate::operators::serve_operators;
use crate::options::Options;
use crate::source::{ConsoleSide, DevicesFile};
use std::alloc::Global;
use std::cell::RefCell;
use std::io;
use std::io::{Read, Write};
use std::net::{Net, SocketAddr, TcpListener, TcpStream};
use std::rt::Files;
use std::sync::{Arc, Wait};
use std::thread::Threads;
use std::time::Clock;
use tac_complaints::{Complaints, begin_writing};
use tac_desk::Desk;
use tac_desks::LiveDesk;
use tac_journal::{Journal, LogFiles, OneInput, Typists};
use tac_keep::KeepFiles;
use tac_net::{Listeners, Port, ProxySocket, ServeFault, ServerFiles, serve};
use tac_operators::ConsoleHost;
use tac_run::Status;
use tac_start::{
    Notices, SecretFile, ServingHost, first_file, journal_of, tell_of_edits, warn_of_few,
    warn_of_ipv6_alone,
};
use tac_status::CountingWatch;
use tac_watch::{FillingWatch, Watched};

/// The rights of the socket that a proxy calls: its owner's, and those of its group, which is the
/// proxy's where the folder is.
const PROXY_MODE: u32 = 0o660;

// The port that devices call.
fn port_at<R: Eprint, H>(rt: &R, host: &H, address: SocketAddr) -> Result<Port, Status>
where
    H: Net<Listener = TcpListener, Stream = TcpStream>,
    ensures { IfErr result (λ status. (status ≡ Status.OutOfMemory) ⊎ (status ≡ Status.Failed)) }
{
    match Port::bind(host, address) {
        Ok(port) => Ok(port),
        Err(error) => {
            let _ = eprintln!(rt; "tacd: {address}: {error}");
            Err(Status::of_unopened(error.kind()))
        }
    }
}

// The socket that a proxy calls.
fn proxy_at<R: Eprint, H: ConsoleHost>(
    rt: &R,
    host: &H,
    path: &str,
) -> Result<ProxySocket, Status> {
    let opened = match host.open_socket(path, PROXY_MODE) {
        Ok(listener) => ProxySocket::new(listener),
        Err(error) => Err(error),
    };
    match opened {
        Ok(socket) => Ok(socket),
        Err(error) => {
            let _ = eprintln!(rt; "tacd: {path}: {error}");
            Err(Status::of_unopened(error.kind()))
        }
    }
}

// Where the server is called.
fn listeners_of<R: Eprint, H>(rt: &R, host: &H, options: &Options<'_>) -> Result<Listeners, Status>
where
    H: ConsoleHost + Net<Listener = TcpListener, Stream = TcpStream>,
{
    let port = match options.address {
        Some(address) => Some(port_at(rt, host, address)?),
        None => None,
    };
    let proxy = match options.proxy {
        Some(path) => Some(proxy_at(rt, host, path)?),
        None => None,
    };
    Ok(Listeners::new(port, proxy))
}

/// Who watches the desk of any server: what it has is counted, and standard error says when its
/// records fill up.
pub(crate) fn watch_of<'a, H: Eprint>(
    host: &'a H,
    options: &'a Options<'_>,
    desk: &LiveDesk,
) -> (CountingWatch<'a>, FillingWatch<'a, H>) {
    let counting = CountingWatch::new(&options.counts.desk, desk.policy());
    (counting, FillingWatch::new(host))
}

// The devices' file that may be read again, if there is one.
fn devices_file<'a, R: Files, H: Eprint>(
    rt: &'a R,
    host: &'a H,
    options: &'a Options<'_>,
) -> Option<DevicesFile<'a, R, H>> {
    match (options.devices, options.settings.callers.directory()) {
        (Some(path), Some(directory)) => Some(DevicesFile {
            file: SecretFile::of_devices(rt, host, path),
            locks: host,
            directory,
            taken: RefCell::new(None),
        }),
        _ => None,
    }
}

/// Serves a desk with a console on this input and output, at which these type, until that ends.
pub(crate) fn serve_desk<R, H, D: Desk + Send, I: Read + Drop, O: Write + Drop, T: Typists + Drop>(
    rt: &R,
    host: &H,
    options: &Options<'_>,
    desk: D,
    journal: &Option<Journal<'_>>,
    listeners: &Listeners,
    console: (I, O, T),
) -> Result<(), ServeFault>
where
    R: Files + Print + Eprint,
    H: Threads + Wait + Clock + Sync + AllocGlobal + Eprint + LogFiles + Net,
{
    let (mut input, mut output, typists) = console;
    let source = ConsoleSide {
        policy: SecretFile::of_policy(rt, host, options.path),
        devices: devices_file(rt, host, options),
        typists,
    };
    let files = ServerFiles {
        log: journal,
        source: &source,
        counts: &options.counts,
    };
    serve(
        host,
        listeners,
        desk,
        &options.settings,
        &files,
        &mut input,
        &mut output,
    )
}

/// The same of the desk of a file, whose edits aren't kept.
pub(crate) fn serve_console<R, H, I: Read + Drop, O: Write + Drop, T: Typists + Drop>(
    rt: &R,
    host: &H,
    options: &Options<'_>,
    desk: LiveDesk,
    journal: &Option<Journal<'_>>,
    listeners: &Listeners,
    console: (I, O, T),
) -> Result<(), ServeFault>
where
    R: Files + Print + Eprint,
    H: Threads + Wait + Clock + Sync + AllocGlobal + Eprint + LogFiles + Net,
{
    let watch = watch_of(host, options, &desk);
    let desk = Watched::new(desk, options.record_limit, watch);
    serve_desk(rt, host, options, desk, journal, listeners, console)
}

// The status of a server that failed.
fn status_of(fault: ServeFault) -> Status
    ensures { result ≡ status_of_serving fault }
{
    match fault {
        ServeFault::Memory | ServeFault::Threads | ServeFault::Descriptors => Status::OutOfMemory,
        ServeFault::ReadFault | ServeFault::WriteFault | ServeFault::CloseRefused => Status::Failed,
    }
}

/// Says why a server ended, unless it was stopped. The error is the status to end with.
pub(crate) fn ended<R: Eprint>(rt: &R, outcome: Result<(), ServeFault>) -> Result<(), Status>
    ensures { result ≡ end_of_serving outcome }
{
    match outcome {
        Ok(()) => Ok(()),
        Err(fault) => {
            let _ = eprintln!(rt; "tacd: {fault}");
            Err(status_of(fault))
        }
    }
}

// Serves a desk as the options say, until its console ends it. The reason of a fault was said.
fn serve_at<R, H>(
    rt: &R,
    host: &H,
    options: &Options<'_>,
    desk: LiveDesk,
    journal: &Option<Journal<'_>>,
    listeners: &Listeners,
) -> Result<(), Status>
where
    R: Files + Input + Print + Eprint + AllocGlobal,
    H: Threads + Wait + Clock + Sync + AllocGlobal + Eprint + LogFiles + Net + ConsoleHost,
    H: KeepFiles,
{
    if let Some(path) = options.console {
        return serve_operators(rt, host, options, desk, journal, listeners, path);
    }
    let outcome = if options.has_console {
        let input = ConsoleInput::new(host, rt.reader());
        let console = (input, io::writer(rt), OneInput);
        serve_console(rt, host, options, desk, journal, listeners, console)
    } else {
        let input = NoConsole {
            clock: host,
            listeners,
        };
        let notices = Notices::new(rt, host, options.has_log_for_output());
        let console = (input, notices, OneInput);
        serve_console(rt, host, options, desk, journal, listeners, console)
    };
    ended(host, outcome)
}

// Where complaints are left from now on, and a thread writes them. The error is Memory or Threads.
fn complaints_of<H>(host: &H) -> Result<Arc<Complaints, Global>, ServeFault>
where
    H: Threads + Wait + AllocGlobal + Eprint + Copy + Send + Drop + 'static,
{
    let complaints = Complaints::new(host.alloc())?;
    let complaints = Arc::new(host.alloc(), complaints)?;
    let theirs = Arc::try_clone(&complaints)?;
    match begin_writing(host, theirs) {
        Ok(()) => Ok(complaints),
        Err(_) => Err(ServeFault::Threads),
    }
}

/// Serves as the options say, until its console ends it: a socket's, the runtime's input and
/// output, or no input at all. Threads, sockets and the log are the host's. What is said on
/// standard error from its first connection on is written by a thread of its own, and the server's
/// end waits for that no longer than a second.
pub(crate) fn serve_by<R, H>(rt: &R, host: &H, options: &Options<'_>) -> Result<(), Status>
where
    R: Files + Input + Print + Eprint + AllocGlobal,
    H: Threads + Wait + Clock + Sync + AllocGlobal + Eprint + LogFiles + Net + ConsoleHost,
    H: KeepFiles + Net<Listener = TcpListener, Stream = TcpStream> + Copy + Send + Drop + 'static,
{
    // its lock is held until the server has ended
    let first = first_file(rt, host, options.path, options.kept, &options.uses())?;
    serve_first(rt, host, options, first.path)
}

// The same, where the policy is at first that of this file.
fn serve_first<R, H>(rt: &R, host: &H, options: &Options<'_>, first: &str) -> Result<(), Status>
where
    R: Files + Input + Print + Eprint + AllocGlobal,
    H: Threads + Wait + Clock + Sync + AllocGlobal + Eprint + LogFiles + Net + ConsoleHost,
    H: KeepFiles + Net<Listener = TcpListener, Stream = TcpStream> + Copy + Send + Drop + 'static,
{
    let desk = options.desk_of(rt, first)?;
    if first != options.path {
        options.tray.begin_with_edits();
        tell_of_edits(rt, options.path, first);
    }
    let journal = journal_of(rt, host, options.log, options.syncs)?;
    let listeners = listeners_of(rt, host, options)?;
    warn_of_few(
        rt,
        options.settings.connections_at_once,
        options.settings.workers,
    );
    warn_of_ipv6_alone(rt, options.address);
    let complaints = match complaints_of(host) {
        Ok(complaints) => complaints,
        Err(fault) => return ended(rt, Err(fault)),
    };
    let serving = ServingHost {
        host,
        complaints: &complaints,
    };
    let outcome = serve_at(rt, &serving, options, desk, &journal, &listeners);
    complaints.settle(host);
    outcome
}

//! `tacd serve`, from its words to its end.

use crate::checking::check_start;
use crate::options::Options;
use crate::server::serve_by;
use clap::ArgMatches;
use std::net::{Net, TcpListener, TcpStream};
use std::rt::Files;
use std::sync::Wait;
use std::thread::{self, Threads};
use std::time::Clock;
use tac_journal::LogFiles;
use tac_keep::KeepFiles;
use tac_operators::ConsoleHost;
use tac_run::Status;

// How many processors there are; where the system doesn't tell, one.
fn processors<H: Threads>(host: &H) -> usize {
    match thread::available_parallelism(host) {
        Ok(processors) => processors.get(),
        Err(_) => 1,
    }
}

/// Serves devices as the command line says, until the console ends it; or looks at a start alone. A
/// parse that succeeds leaves of the options the address, and the key or the devices' file, to be
/// judged. Words, files and streams are the runtime's, threads, sockets and the log the host's.
pub fn serve_devices<R, H>(rt: &R, host: &H, matches: &ArgMatches<'_>) -> Status
where
    R: Files + Input + Print + Eprint + AllocGlobal,
    H: Threads + Wait + Clock + Sync + AllocGlobal + Eprint + LogFiles + ConsoleHost + KeepFiles,
    H: Net<Listener = TcpListener, Stream = TcpStream> + Copy + Send + Drop + 'static,
{
    let outcome = match Options::read(rt, matches, processors(host)) {
        Ok(options) if options.is_checked => check_start(rt, host, &options),
        Ok(options) => serve_by(rt, host, &options),
        Err(status) => Err(status),
    };
    match outcome {
        Ok(()) => Status::Done,
        Err(status) => status,
    }
}

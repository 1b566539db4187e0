//! Where a server's log goes, and what takes its lines.

ghost use Rattle.std.specs.Prelude.{◌≡◌, ◌⊎◌, IfErr};

use crate::looking::seen;
use clap::ArgMatches;
use dry_run::see_file;
use std::fs::{self, FileType};
use std::io::{self, Error, ErrorKind, IsTerminal};
use std::os::unix::fs::FileTypeExt;
use std::rt::Files;
use std::time::Clock;
use tac_command_line::{CONSOLE, LOG, NO_CONSOLE};
use tac_journal::{Journal, LogFiles, NO_REGULAR_FILE, OUTPUT_NAME, STANDARD_OUTPUT, UNSYNCED};
use tac_run::{Status, warn_of_readers_at};

/// What is said where answers of a console would stand among the lines of a log.
const TWO_FOR_OUTPUT: &str = "error: the console and the log can't both have standard output: \
    give --console PATH, or --no-console

For more information, try '--help'.";

/// Whether this word of `--log` is standard output.
pub fn is_output(path: &str) -> bool {
    path == "-" || path == "/dev/stdout"
}

/// Whether the lines of a log go to standard output.
pub fn has_log_for_output(log: Option<&str>) -> bool {
    match log {
        Some(path) => is_output(path),
        None => false,
    }
}

/// That standard output is there, and no console has it too, where lines of a log go there. Whether
/// it is there is asked before a file is opened, which would be taken for it. The error is the status
/// to end with, and the reason was said.
pub fn see_output<R: Files + Eprint>(rt: &R, matches: &ArgMatches<'_>) -> Result<(), Status> {
    if !has_log_for_output(matches.get_str(LOG)) {
        return Ok(());
    }
    if !matches.get_flag(NO_CONSOLE) && matches.get_str(CONSOLE).is_none() {
        let _ = eprintln!(rt; "{TWO_FOR_OUTPUT}");
        return Err(Status::BadCommandLine);
    }
    match fs::metadata(rt, STANDARD_OUTPUT) {
        Ok(_) => Ok(()),
        Err(error) => {
            let _ = eprintln!(rt; "tacd: {OUTPUT_NAME}: {error}");
            Err(Status::of_unopened(error.kind()))
        }
    }
}

// What a word of `--log` is called, and where it is.
fn place_of(log: &str) -> (&str, &str) {
    if is_output(log) {
        return (OUTPUT_NAME, STANDARD_OUTPUT);
    }
    (log, log)
}

// Says so of a log that others can read. It has what was typed at devices, secrets too.
fn warn_of_readers_of<R: Files + Eprint>(rt: &R, log: &str) {
    let (name, path) = place_of(log);
    warn_of_readers_at(rt, name, path);
}

// What takes the lines of an auditor, as it was opened by this name.
fn opened_journal<'a, R: Eprint>(
    rt: &R,
    name: &str,
    opened: io::Result<Journal<'a>>,
) -> Result<Journal<'a>, Status>
    ensures { IfErr result (λ status. (status ≡ Status.OutOfMemory) ⊎ (status ≡ Status.Failed)) }
{
    match opened {
        Ok(journal) => Ok(journal),
        Err(error) => {
            let _ = eprintln!(rt; "tacd: {name}: {error}");
            Err(Status::of_unopened(error.kind()))
        }
    }
}

// That at a path, or standard output.
fn journal_at<'a, R: Eprint, H>(
    rt: &R,
    host: &H,
    path: &'a str,
    syncs: bool,
) -> Result<Journal<'a>, Status>
where
    H: Clock + LogFiles,
    ensures { IfErr result (λ status. (status ≡ Status.OutOfMemory) ⊎ (status ≡ Status.Failed)) }
{
    if is_output(path) {
        return opened_journal(rt, OUTPUT_NAME, Journal::standard_output(host, syncs));
    }
    opened_journal(rt, path, Journal::open(host, path, syncs))
}

/// What takes the lines of an auditor, if this word of `--log` asks for it. The error is the status
/// to end with, and the reason was said.
pub fn journal_of<'a, R: Files + Eprint, H>(
    rt: &R,
    host: &H,
    log: Option<&'a str>,
    syncs: bool,
) -> Result<Option<Journal<'a>>, Status>
where
    H: Clock + LogFiles,
    ensures { IfErr result (λ status. (status ≡ Status.OutOfMemory) ⊎ (status ≡ Status.Failed)) }
{
    let Some(log) = log else {
        return Ok(None);
    };
    match journal_at(rt, host, log, syncs) {
        Ok(journal) => {
            warn_of_readers_of(rt, log);
            Ok(Some(journal))
        }
        Err(status) => Err(status),
    }
}

// Whether there is a terminal at a path, where a device is.
fn is_terminal<H: LogFiles>(host: &H, path: &str) -> bool {
    match host.open_pipe(path) {
        Ok(file) => file.is_terminal(),
        Err(_) => false,
    }
}

// Whether what is at a path takes the lines of a log.
fn see_kind<H: LogFiles>(host: &H, path: &str, file_type: FileType, syncs: bool) -> io::Result<()> {
    if file_type.is_file() {
        return Ok(());
    }
    let is_pipe = file_type.is_fifo()
        || (file_type.is_socket() && path == STANDARD_OUTPUT)
        || (file_type.is_char_device() && is_terminal(host, path));
    if !is_pipe {
        return Err(Error::new(ErrorKind::InvalidInput, NO_REGULAR_FILE));
    }
    if syncs {
        return Err(Error::new(ErrorKind::InvalidInput, UNSYNCED));
    }
    Ok(())
}

// The same, or whether a file could be made there. A pipe of standard output needs no right.
fn see_log_at<R: Files, H: LogFiles>(rt: &R, host: &H, path: &str, syncs: bool) -> io::Result<()> {
    let Ok(found) = fs::metadata(rt, path) else {
        return see_file(rt, path);
    };
    if path != STANDARD_OUTPUT || found.is_file() {
        see_file(rt, path)?;
    }
    see_kind(host, path, found.file_type(), syncs)
}

/// Looks at the place of the log, if this word of `--log` asks for one, and opens nothing that takes
/// its lines. The error is the status that a start would end with, and the reason was said.
pub fn see_log<R: Files + Eprint, H: LogFiles>(
    rt: &R,
    host: &H,
    log: Option<&str>,
    syncs: bool,
) -> Result<(), Status> {
    let Some(log) = log else {
        return Ok(());
    };
    let (name, path) = place_of(log);
    seen(rt, name, see_log_at(rt, host, path, syncs))?;
    warn_of_readers_of(rt, log);
    Ok(())
}

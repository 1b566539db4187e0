//! What several threads append lines to.

ghost use Rattle.tac_journal.specs.Log.{somewhere};

use crate::disk::Disk;
use crate::log::Log;
use crate::open_file::{LogPath, OpenFile};
use crate::opening::{LogFiles, STANDARD_OUTPUT, UNSYNCED, is_pipe, no_regular_file};
use crate::pipe::{Pipe, PipeLog};
use brief_lock::take;
use std::fs::File;
use std::io::{self, Error, ErrorKind};
use std::os::fd::OwnedFd;
use std::sync::atomic::{AtomicBool, Ordering};
use std::sync::{Mutex, Wait};
use std::time::Clock;
use tac_audit::Refused;

/// What standard output is called where something is said of it.
pub const OUTPUT_NAME: &str = "standard output";

// A file that takes lines.
#[derive(Drop)]
struct FileLog<'a> {
    log_path: LogPath<'a>,
    open_file: Mutex<OpenFile>,
}

// What takes lines.
#[derive(Drop)]
enum Kind<'a> {
    File(FileLog<'a>),
    Pipe(PipeLog<'a>),
}

/// What several threads append lines to, one after another: a file, or a pipe.
///
/// Twice a second at most a file is opened again by its path, and where that fails, or no clock can
/// be read, at each append. So where it was renamed, lines go to a new file within a second. A pipe
/// stays open. Nobody waits for who reads it: where it has no room, or nobody reads it any more, it
/// takes no lines. A terminal is taken for a pipe.
#[derive(Drop)]
pub struct Journal<'a> {
    kind: Kind<'a>,
}

// Lines can't count only once they are on the disk where they go into a pipe.
fn refuse_syncs(syncs: bool) -> io::Result<()> {
    if syncs {
        return Err(Error::new(ErrorKind::InvalidInput, UNSYNCED));
    }
    Ok(())
}

// The pipe at a path. It is open for reading too meanwhile, so this waits for no reader.
fn pipe_at<H: LogFiles>(host: &H, path: &str, _reader: File) -> io::Result<Pipe> {
    let file = host.open_pipe(path)?;
    if !is_pipe(&file) {
        return Err(no_regular_file());
    }
    Pipe::new(OwnedFd::from(file))
}

impl<'a> Journal<'a> {
    // What was opened at a path, by this name.
    fn of_file<H>(
        host: &H,
        path: &'a str,
        name: &'a str,
        file: File,
        syncs: bool,
    ) -> io::Result<Journal<'a>>
    where
        H: Clock + LogFiles,
    {
        if is_pipe(&file) {
            refuse_syncs(syncs)?;
            let pipe = pipe_at(host, path, file)?;
            return Ok(Journal::of_pipe(name, pipe));
        }
        let log_path = LogPath {
            path,
            name,
            disk: if syncs { Some(Disk::new()) } else { None },
            is_failing: AtomicBool::new(false),
        };
        let open_file = Mutex::new(OpenFile::new(host, file)?);
        let log = FileLog {
            log_path,
            open_file,
        };
        Ok(Journal {
            kind: Kind::File(log),
        })
    }

    // A pipe of this name.
    fn of_pipe(name: &'a str, pipe: Pipe) -> Journal<'a> {
        Journal {
            kind: Kind::Pipe(PipeLog::new(name, pipe)),
        }
    }

    /// Opens what is at a path, and makes a file where there is nothing. Lines count once it took
    /// them; or once they are on the disk, where it syncs. The error is the system's, or that it is
    /// no regular file and no pipe, or that it syncs and is a pipe.
    pub fn open<H>(host: &H, path: &'a str, syncs: bool) -> io::Result<Journal<'a>>
    where
        H: Clock + LogFiles,
    {
        let file = host.open_log(path)?;
        Journal::of_file(host, path, path, file, syncs)
    }

    /// The same of standard output. A pipe or a socket that can't be opened is shared with who else
    /// has it: none of them waits for its reader any more.
    pub fn standard_output<H>(host: &H, syncs: bool) -> io::Result<Journal<'a>>
    where
        H: Clock + LogFiles,
    {
        let unopened = match host.open_log(STANDARD_OUTPUT) {
            Ok(file) => {
                return Journal::of_file(host, STANDARD_OUTPUT, OUTPUT_NAME, file, syncs);
            }
            Err(error) => error,
        };
        let Ok(output) = host.share_output() else {
            return Err(unopened);
        };
        refuse_syncs(syncs)?;
        Ok(Journal::of_pipe(OUTPUT_NAME, Pipe::new(output)?))
    }

    /// Whether it takes lines, as far as the last append tells. It waits for nobody who appends.
    pub fn takes_lines(&self) -> bool {
        match &self.kind {
            Kind::File(log) => !log.log_path.is_failing.load(Ordering::SeqCst),
            Kind::Pipe(log) => log.takes_lines(),
        }
    }
}

impl FileLog<'_> {
    // Appends lines, and waits for the disk where they count only then.
    fn append<H>(&self, host: &H, lines: &[u8]) -> Result<(), Refused>
    where
        H: Wait + Clock + Eprint + LogFiles,
    {
        let number = self
            .log_path
            .append(host, &mut take(host, &self.open_file), lines)?;
        match &self.log_path.disk {
            Some(disk) => self.log_path.send(host, disk, &self.open_file, number),
            None => Ok(()),
        }
    }
}

impl Log for Journal<'_> {
    ghost keeping = { λ _. somewhere };

    fn is_kept(&self) -> bool {
        true
    }

    fn append<H>(&self, host: &H, lines: &[u8]) -> Result<(), Refused>
    where
        H: Wait + Clock + Eprint + LogFiles,
    {
        if lines.is_empty() {
            return Ok(());
        }
        match &self.kind {
            Kind::File(log) => log.append(host, lines),
            Kind::Pipe(log) => log.append(host, lines),
        }
    }
}

//! The replay of a script, with the lines of an auditor or without.
//!
//! Each fault is said on standard error. The status tells it too, so it doesn't matter whether that
//! could be written.

use basics::{Bytes, send};
use clap::ArgMatches;
use std::alloc::Global;
use std::fs::File;
use std::io;
use tac_audit::{Notice, Origin, Refused, Witness, push_line};
use tac_command_line::{LOG, TIME};
use tac_journal::LogFiles;
use tac_run::Status;
use tac_server::{Noticed, replay, replay_told};

// A witness of a replay, which makes the lines that `serve --log` writes of its packets. The device
// of a connection is named by its number.
#[derive(Drop)]
struct ScriptLog<'a> {
    alloc: Global,
    // what each line tells as its time
    time: Option<&'a str>,
    lines: Vec<u8>,
    // whether there was memory for all lines
    is_whole: bool,
}

// Where lines tell a time, an equal text.
fn time_of(alloc: Global, time: Option<&str>) -> Result<Option<Bytes>, Refused> {
    match time {
        Some(time) => Ok(Some(Bytes::from_slice(alloc, time.as_bytes())?)),
        None => Ok(None),
    }
}

// Where the lines of a connection come from, by its number.
fn origin_of(alloc: Global, number: u32) -> Result<Origin, Refused> {
    let device = format!(in alloc; "connection {number}")?;
    Ok(Origin {
        device: Bytes::from_slice(alloc, device.as_bytes())?,
        named: None,
    })
}

impl<'a> ScriptLog<'a> {
    fn new(alloc: Global, time: Option<&'a str>) -> ScriptLog<'a> {
        ScriptLog {
            alloc,
            time,
            lines: Vec::new(alloc),
            is_whole: true,
        }
    }

    // Adds the line of a notice, if it has one.
    fn add(&mut self, number: u32, notice: &Notice) -> Result<(), Refused> {
        if notice.goes_on() {
            return Ok(());
        }
        let time = time_of(self.alloc, self.time)?;
        let origin = origin_of(self.alloc, number)?;
        push_line(self.alloc, &mut self.lines, time.as_ref(), &origin, notice)?;
        Ok(())
    }

    fn take(&mut self, noticed: &Noticed) -> Result<(), Refused> {
        match noticed {
            Noticed::Opened(_) => Ok(()),
            Noticed::On(number, notice) => self.add(*number, notice),
        }
    }
}

impl Witness<Noticed> for ScriptLog<'_> {
    ghost takes = { λ _ _ _. Unit {0} };

    ghost refuses = { λ _ _ _. Unit {0} };

    fn tell(&mut self, noticed: &Noticed) -> Result<(), Refused> {
        let told = self.take(noticed);
        self.is_whole = self.is_whole && told.is_ok();
        told
    }
}

// The script comes from standard input, and what is replied goes to standard output.
fn play<R: Input + Print + Eprint + AllocGlobal>(rt: &R) -> Status {
    let outcome = replay(rt.alloc(), &mut rt.reader(), &mut io::writer(rt));
    if let Err(fault) = outcome {
        let _ = eprintln!(rt; "tacd: {fault}");
    }
    Status::of_replay(outcome)
}

// The same, and the witness is told.
fn play_told<R>(rt: &R, log: &mut ScriptLog<'_>) -> Status
where
    R: Input + Print + Eprint + AllocGlobal,
{
    let outcome = replay_told(rt.alloc(), &mut rt.reader(), &mut io::writer(rt), log);
    if let Err(fault) = outcome {
        let _ = eprintln!(rt; "tacd: {fault}");
    }
    Status::of_replay(outcome)
}

// Appends the lines to their file. The error is the status to end with.
fn append<R: Eprint>(
    rt: &R,
    path: &str,
    file: &mut File,
    log: &ScriptLog<'_>,
) -> Result<(), Status> {
    if !log.is_whole {
        let _ = eprintln!(rt; "tacd: {path}: memory ran out for its lines");
        return Err(Status::OutOfMemory);
    }
    let (_, sent) = send(file, log.lines.as_slice());
    if sent.is_err() {
        let _ = eprintln!(rt; "tacd: {path}: its lines could not be written");
        return Err(Status::Failed);
    }
    Ok(())
}

// Opens the file of a log, which is made where there is none. The error is the status to end with.
fn open_log<R: Eprint, H: LogFiles>(rt: &R, host: &H, path: &str) -> Result<File, Status> {
    match host.open_log(path) {
        Ok(file) => Ok(file),
        Err(error) => {
            let _ = eprintln!(rt; "tacd: {path}: {error}");
            Err(Status::of_unopened(error.kind()))
        }
    }
}

// Plays a script, and appends the lines of its packets to the file at this path.
fn play_logged<R, H>(rt: &R, host: &H, path: &str, time: Option<&str>) -> Result<Status, Status>
where
    R: Input + Print + Eprint + AllocGlobal,
    H: LogFiles,
{
    let mut file = open_log(rt, host, path)?;
    let mut log = ScriptLog::new(rt.alloc(), time);
    let status = play_told(rt, &mut log);
    append(rt, path, &mut file, &log)?;
    Ok(status)
}

/// Plays the script that standard input gives, as the options say. The file of the log is opened
/// before anything is read, and its lines are appended when the script was played. That fails
/// whatever the replay ended as.
pub fn replay_script<R, H>(rt: &R, host: &H, options: &ArgMatches<'_>) -> Status
where
    R: Input + Print + Eprint + AllocGlobal,
    H: LogFiles,
{
    match options.get_str(LOG) {
        Some(path) => match play_logged(rt, host, path, options.get_str(TIME)) {
            Ok(status) | Err(status) => status,
        },
        None => play(rt),
    }
}

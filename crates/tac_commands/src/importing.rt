//! A policy made of a file of tac_plus.

use basics::send;
use clap::ArgMatches;
use std::fs::OpenOptions;
use std::io;
use std::os::unix::fs::OpenOptionsExt;
use std::rt::Files;
use tac_command_line::importing_line::{DEVICES_TO, KEY_TO};
use tac_command_line::{FILE, word_of};
use tac_io::{AnswerFault, MAX_INPUT};
use tac_plus_file::FileFault;
use tac_plus_import::{Import, Remark, Wanted, import_file};
use tac_run::{Status, TextFile, complain, out_of_memory, read_file, warn_of_readers};

/// Who may read a file with keys: its owner alone.
const MODE: u32 = 0o600;

// Tells what was left out and what was decided. It doesn't matter whether this could be written.
fn tell_remarks<R: Eprint>(rt: &R, path: &str, remarks: &[Remark]) {
    'remarks: for remark in remarks {
        let _ = eprintln!(rt; "{path} {remark}");
    }
}

// A file that is not there yet, or is empty from now on.
fn create<R: Files>(rt: &R, path: &str) -> io::Result<R::File> {
    OpenOptions::new()
        .write(true)
        .create(true)
        .truncate(true)
        .mode(MODE)
        .open(rt, path)
}

// Writes a file with keys, if there is anything to be written.
fn write_file<R: Files + Eprint>(
    rt: &R,
    path: Option<&str>,
    text: &Option<Vec<u8>>,
) -> Result<(), Status> {
    let (Some(path), Some(text)) = (path, text) else {
        return Ok(());
    };
    let mut file = match create(rt, path) {
        Ok(file) => file,
        Err(error) => {
            let _ = eprintln!(rt; "tacd: {path}: {error}");
            return Err(Status::of_unopened(error.kind()));
        }
    };
    // one that was there already may have other rights
    warn_of_readers(rt, path, &file);
    let (_, sent) = send(&mut file, text.as_slice());
    if sent.is_err() {
        let _ = eprintln!(rt; "tacd: {path}: it could not be written");
        return Err(Status::Failed);
    }
    Ok(())
}

// Writes what a file became: the keys first, so that a policy on standard output is a whole one.
fn write_import<R>(
    rt: &R,
    matches: &ArgMatches<'_>,
    path: &str,
    import: &Import,
) -> Result<Status, Status>
where
    R: Files + Print + Eprint,
{
    write_file(rt, matches.get_str(KEY_TO), &import.key)?;
    write_file(rt, matches.get_str(DEVICES_TO), &import.devices)?;
    tell_remarks(rt, path, import.remarks.as_slice());
    let (_, sent) = send(&mut io::writer(rt), import.policy.as_slice());
    if sent.is_err() {
        complain(rt, path, AnswerFault::WriteFault);
        return Err(Status::Failed);
    }
    Ok(if import.leaves_out() {
        Status::Differs
    } else {
        Status::Done
    })
}

// That a file isn't one of tac_plus, and where.
fn refuse<R: Eprint>(rt: &R, path: &str, fault: FileFault) -> Status {
    match fault {
        FileFault::Wrong { line, mistake } => {
            let _ = eprintln!(rt; "{path} line {line}: {mistake}");
            Status::Refused
        }
        FileFault::Memory => out_of_memory(rt),
    }
}

/// Prints the policy that a file of tac_plus becomes, and tells what it doesn't say.
pub fn import<R>(rt: &R, matches: &ArgMatches<'_>) -> Status
where
    R: Files + Print + Eprint + AllocGlobal,
{
    let path = word_of(matches, FILE);
    let wanted = Wanted {
        key: matches.get_str(KEY_TO).is_some(),
        devices: matches.get_str(DEVICES_TO).is_some(),
    };
    let text = match read_file(rt, TextFile::new(path, MAX_INPUT)) {
        Ok(text) => text,
        Err(status) => return status,
    };
    match import_file(rt.alloc(), text.as_slice(), wanted) {
        Ok(import) => match write_import(rt, matches, path, &import) {
            Ok(status) | Err(status) => status,
        },
        Err(fault) => refuse(rt, path, fault),
    }
}

//! What is said on standard error.
//!
//! The status tells each fault too, so it doesn't matter whether what is said of it could be
//! written.

use crate::status::Status;
use crate::text::{TextFault, TextFile};
use std::rt::Files;
use tac_devices::Devices;
use tac_io::{AnswerFault, MAX_INPUT};

/// What standard input is called where it is refused or can't be read.
pub const STANDARD_INPUT: &str = "standard input";

// Says why the text of an input of this name isn't had.
fn say<R: Eprint>(rt: &R, name: &str, fault: &TextFault) {
    let _ = match fault {
        TextFault::Memory => eprintln!(rt; "tacd: {fault}"),
        fault => eprintln!(rt; "tacd: {name}: {fault}"),
    };
}

/// Opens a file to be read. The error is the status to end with, and why was said.
pub fn open_file<R: Files + Eprint>(rt: &R, file: TextFile<'_>) -> Result<R::File, Status> {
    match file.open(rt, rt) {
        Ok(open) => Ok(open),
        Err(fault) => {
            say(rt, file.path, &fault);
            Err(Status::of_text_fault(&fault))
        }
    }
}

/// The text of a file. The error is the status to end with, and why was said.
pub fn read_file<R>(rt: &R, file: TextFile<'_>) -> Result<Vec<u8>, Status>
where
    R: Files + Eprint + AllocGlobal,
{
    match file.text(rt, rt, rt.alloc()) {
        Ok(text) => Ok(text),
        Err(fault) => {
            say(rt, file.path, &fault);
            Err(Status::of_text_fault(&fault))
        }
    }
}

// Says why an input of this name, which may have so many bytes, isn't answered, or not to the end.
fn complain_of<R: Eprint>(rt: &R, name: &str, most: usize, fault: AnswerFault) {
    match fault {
        AnswerFault::ReadFault => say(rt, name, &TextFault::Failed),
        AnswerFault::TooLong => say(rt, name, &TextFault::TooLong(most)),
        AnswerFault::Memory | AnswerFault::Untold => say(rt, name, &TextFault::Memory),
        AnswerFault::WriteFault => {
            let _ = eprintln!(rt; "tacd: {fault}");
        }
    }
}

/// Says why an input of this name isn't answered, or not to the end, which is bounded as a policy is.
pub fn complain<R: Eprint>(rt: &R, name: &str, fault: AnswerFault) {
    complain_of(rt, name, MAX_INPUT, fault);
}

/// Says why a devices' file isn't answered, or not to the end.
pub fn complain_of_devices<R: Eprint>(rt: &R, path: &str, fault: AnswerFault) {
    complain_of(rt, path, Devices::MAX_TEXT, fault);
}

/// Says what tells more of a policy's file that is refused.
pub fn name_lint<R: Eprint>(rt: &R, path: &str) {
    let _ = eprintln!(rt; "tacd: 'tacd lint {path}' says more");
}

/// Says what tells more of a devices' file that is refused.
pub fn name_devices_lint<R: Eprint>(rt: &R, path: &str) {
    let _ = eprintln!(rt; "tacd: 'tacd devices --lint {path}' says more");
}

/// Says that memory ran out, and gives the status to end with.
pub fn out_of_memory<R: Eprint>(rt: &R) -> Status {
    say(rt, "", &TextFault::Memory);
    Status::OutOfMemory
}

//! The check and the lint of a policy.

use crate::devices_lint::name_devices_file;
use std::io::{self, Read};
use std::rt::Files;
use tac_command_line::INPUT_PATH;
use tac_io::MAX_INPUT;
use tac_review::{CheckEnd, LintEnd, check, lint};
use tac_run::{STANDARD_INPUT, Status, TextFile, complain, name_lint, open_file};

/// Opens a file whose text a check or a review reads: a policy or cases. The error is the status to
/// end with, and why was said.
pub(crate) fn open_text<R: Files + Eprint>(rt: &R, path: &str) -> Result<R::File, Status> {
    open_file(rt, TextFile::new(path, MAX_INPUT))
}

// Checks the policy that an input of this name has. What is found goes to standard output.
fn check_input<R, F>(rt: &R, path: &str, name: &str, input: &mut F) -> Status
where
    R: Print + Eprint + AllocGlobal,
    F: Read,
{
    let outcome = check(rt.alloc(), input, &mut io::writer(rt));
    match outcome {
        Ok(CheckEnd::Sound) => {}
        Ok(CheckEnd::Refused) => name_lint(rt, path),
        Err(fault) => complain(rt, name, fault),
    }
    Status::of_check(outcome)
}

// The same of what a policy probably doesn't mean.
fn lint_input<R, F>(rt: &R, path: &str, name: &str, input: &mut F) -> Status
where
    R: Files + Print + Eprint + AllocGlobal,
    F: Read,
{
    let outcome = lint(rt.alloc(), input, &mut io::writer(rt));
    match outcome {
        Ok(LintEnd::Refused) if path != INPUT_PATH => name_devices_file(rt, path),
        Ok(_) => {}
        Err(fault) => complain(rt, name, fault),
    }
    Status::of_lint(outcome)
}

/// Prints what the check of a policy finds, which comes from a file or from standard input.
pub fn check_policy<R>(rt: &R, path: &str) -> Status
where
    R: Files + Input + Print + Eprint + AllocGlobal,
{
    if path == INPUT_PATH {
        return check_input(rt, path, STANDARD_INPUT, &mut rt.reader());
    }
    match open_text(rt, path) {
        Ok(file) => {
            let mut file = file;
            check_input(rt, path, path, &mut file)
        }
        Err(status) => status,
    }
}

/// Prints what a policy probably doesn't mean.
pub fn lint_policy<R>(rt: &R, path: &str) -> Status
where
    R: Files + Input + Print + Eprint + AllocGlobal,
{
    if path == INPUT_PATH {
        return lint_input(rt, path, STANDARD_INPUT, &mut rt.reader());
    }
    match open_text(rt, path) {
        Ok(file) => {
            let mut file = file;
            lint_input(rt, path, path, &mut file)
        }
        Err(status) => status,
    }
}

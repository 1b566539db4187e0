//! The policy's file, and the desk of the policy.

ghost use Rattle.std.specs.Prelude.{IfOk, OnOk};
ghost use Rattle.std.specs.Io.KnownBytes.{IsAtEnd};
ghost use Rattle.tac_io.specs.Answering.{IsAnswered, IsWorked};
ghost use Rattle.tac_start.specs.Opening.{IsDeskOfText};

use crate::notices::Notices;
use pol_automaton::Meter;
use pol_live::Live;
use std::alloc::{AllocError, Global};
use std::io::{Read, Write};
use std::rt::Files;
use tac_desk::{Desk, Query, Report};
use tac_desks::LiveDesk;
use tac_hall_console::has_user;
use tac_io::{AnswerFault, InputFault, MAX_INPUT, read_whole, write_answer};
use tac_review::refusal_line;
use tac_run::{Status, TextFile, complain, name_lint, open_file};
use tac_tally::RecordLimit;

// The desk of a policy's text, and nothing to print; or no desk, and what is printed instead.
fn desk_of_text(
    alloc: Global,
    limit: RecordLimit,
    text: &[u8],
) -> Result<(Vec<u8>, Option<LiveDesk>), AllocError>
    ensures { IfOk result (λ opened. IsDeskOfText limit text.now opened.0.items opened.1) }
{
    let mut meter = Meter::new();
    match Live::of_text(alloc, text, &mut meter)? {
        Ok(live) => {
            let desk = LiveDesk::of_live(alloc, live, meter, limit)?;
            Ok((Vec::new(alloc), Some(desk)))
        }
        Err(refusal) => {
            let line = refusal_line(alloc, refusal)?;
            Ok((line, None))
        }
    }
}

// The same of what the reader gives.
fn answer<R: Read>(
    alloc: Global,
    limit: RecordLimit,
    reader: &mut R,
) -> Result<(Vec<u8>, Option<LiveDesk>), InputFault>
    ensures end { OnOk result (IsAtEnd (R.remaining reader.new)) }
    ensures worked { IsWorked (IsDeskOfText limit) (R.remaining reader.old) result }
{
    let text = read_whole(alloc, reader, MAX_INPUT)?;
    let (printed, desk) = desk_of_text(alloc, limit, text.as_slice())?;
    Ok((printed, desk))
}

/// Makes the desk of the policy whose text the reader gives, which keeps records as the limit says.
/// Where the policy is refused there is no desk, and the reason is written as by a check. The whole
/// text is read first.
pub fn open_desk<R: Read, W: Write>(
    alloc: Global,
    limit: RecordLimit,
    reader: &mut R,
    writer: &mut W,
) -> Result<Option<LiveDesk>, AnswerFault>
    // The whole input was read.
    ensures read { OnOk result (IsAtEnd (R.remaining reader.new)) }

    // The desk is the policy's, or there is none and what the check of the text prints was written;
    // or what a fault leaves.
    ensures answered { IsAnswered (IsDeskOfText limit) (R.remaining reader.old)
        (W.contents writer.old) (W.contents writer.new) result }
{
    write_answer(writer, answer(alloc, limit, reader))
}

// Says that nobody can log in by a policy, where it has no user. It doesn't matter whether this could
// be written.
fn warn_of_nobody<R: Eprint>(rt: &R, path: &str, desk: &mut LiveDesk) {
    let Ok(report) = desk.query(&Query::Policy) else {
        return;
    };
    if let Report::Policy(policy) = report.get() {
        if !has_user(policy) {
            let _ = eprintln!(rt; "tacd: {path}: the policy has no user: nobody can log in");
        }
    }
}

/// The desk of the policy in a file, which keeps records as the limit says. Why a policy is refused
/// goes where notices do. The error is the status to end with, and the reason was said.
pub fn desk_of_file<R: Files + Print + Eprint + AllocGlobal>(
    rt: &R,
    path: &str,
    limit: RecordLimit,
    notices: &mut Notices<'_, R, R>,
) -> Result<LiveDesk, Status> {
    let mut file = open_file(rt, TextFile::secret(path, MAX_INPUT))?;
    match open_desk(rt.alloc(), limit, &mut file, notices) {
        Ok(Some(mut desk)) => {
            warn_of_nobody(rt, path, &mut desk);
            Ok(desk)
        }
        Ok(None) => {
            name_lint(rt, path);
            Err(Status::Refused)
        }
        Err(fault) => {
            complain(rt, path, fault);
            Err(Status::of_answer(fault))
        }
    }
}

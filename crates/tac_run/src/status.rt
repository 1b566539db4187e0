//! What the program's exit status tells.

ghost use Rattle.std.specs.Prelude.{◌≡◌, ◌≢◌, ◌⊎◌};
ghost use Rattle.tac_run.specs.Ending.{status_of, status_of_check, status_of_lint};
ghost use Rattle.tac_run.specs.Ending.{status_of_devices_lint, status_of_heard};
ghost use Rattle.tac_run.specs.Ending.{status_of_listing, status_of_question};
ghost use Rattle.tac_run.specs.Ending.{IsMemoryFault, status_of_review};

use crate::text::TextFault;
use clap::error::ErrorKind;
use std::io::ErrorKind as IoErrorKind;
use tac_console_client::Heard;
use tac_devices::ListingEnd;
use tac_devices_lint::DevicesLintEnd;
use tac_io::AnswerFault;
use tac_review::{CheckEnd, LintEnd, Permission, ReviewEnd, ReviewFault};
use tac_server::{ReplayEnd, ReplayFault};

/// How a run of the program ended, with the number that its caller sees.
#[derive(Clone, Copy, PartialEq, Eq)]
pub enum Status {
    /// All was done; help counts as that.
    Done = 0,
    /// The script, a policy, a devices' file, an edit, a question or a table has a fault, which was
    /// printed; or a case isn't so; or a server that was asked doesn't grant it.
    Refused = 1,
    /// The command line is not one of this program's.
    BadCommandLine = 2,
    /// Memory ran out, or a thread could not be made.
    OutOfMemory = 3,
    /// Reading or writing failed, a port or the file of a log couldn't be had, the desk couldn't be
    /// closed, or a server that was asked gave no answer.
    Failed = 4,
    /// Someone gains or loses a line by the new policy, or it takes edits; or a lint told
    /// something; or an address may not call; or an edit was made at a console, and isn't kept; or
    /// what is asked is denied.
    Differs = 5,
}

impl Status {
    /// The status of a replay.
    pub fn of_replay(outcome: Result<ReplayEnd, ReplayFault>) -> Status
        ensures done { outcome ≡ Ok ReplayEnd.Done → result ≡ Status.Done }
        ensures refused { outcome ≡ Ok ReplayEnd.Refused → result ≡ Status.Refused }
        ensures memory { outcome ≡ Err ReplayFault.Memory → result ≡ Status.OutOfMemory }
        ensures read { outcome ≡ Err ReplayFault.ReadFault → result ≡ Status.Failed }
        ensures write { outcome ≡ Err ReplayFault.WriteFault → result ≡ Status.Failed }
    {
        match outcome {
            Ok(ReplayEnd::Done) => Status::Done,
            Ok(ReplayEnd::Refused) => Status::Refused,
            Err(ReplayFault::Memory) => Status::OutOfMemory,
            Err(ReplayFault::ReadFault | ReplayFault::WriteFault) => Status::Failed,
        }
    }

    /// The status where an input isn't answered, or not to the end.
    pub fn of_answer(fault: AnswerFault) -> Status
        ensures { result ≡ status_of fault }
    {
        match fault {
            AnswerFault::Memory | AnswerFault::Untold => Status::OutOfMemory,
            AnswerFault::ReadFault | AnswerFault::TooLong | AnswerFault::WriteFault => {
                Status::Failed
            }
        }
    }

    /// The status of a check.
    pub fn of_check(outcome: Result<CheckEnd, AnswerFault>) -> Status
        ensures { result ≡ status_of_check outcome }
    {
        match outcome {
            Ok(CheckEnd::Sound) => Status::Done,
            Ok(CheckEnd::Refused) => Status::Refused,
            Err(fault) => Status::of_answer(fault),
        }
    }

    /// The status of a lint.
    pub fn of_lint(outcome: Result<LintEnd, AnswerFault>) -> Status
        ensures { result ≡ status_of_lint outcome }
    {
        match outcome {
            Ok(LintEnd::Quiet) => Status::Done,
            Ok(LintEnd::Told) => Status::Differs,
            Ok(LintEnd::Refused) => Status::Refused,
            Err(fault) => Status::of_answer(fault),
        }
    }

    /// The status where a devices' file is told of.
    pub fn of_listing(outcome: Result<ListingEnd, AnswerFault>) -> Status
        ensures { result ≡ status_of_listing outcome }
    {
        match outcome {
            Ok(ListingEnd::Fine) => Status::Done,
            Ok(ListingEnd::Stranger) => Status::Differs,
            Ok(ListingEnd::Refused) => Status::Refused,
            Err(fault) => Status::of_answer(fault),
        }
    }

    /// The status of a lint of a devices' file.
    pub fn of_devices_lint(outcome: Result<DevicesLintEnd, AnswerFault>) -> Status
        ensures { result ≡ status_of_devices_lint outcome }
    {
        match outcome {
            Ok(DevicesLintEnd::Quiet) => Status::Done,
            Ok(DevicesLintEnd::Told) => Status::Differs,
            Ok(DevicesLintEnd::Refused) => Status::Refused,
            Err(fault) => Status::of_answer(fault),
        }
    }

    /// The status of a review, where it is this one if something differs.
    pub fn of_review(outcome: Result<ReviewEnd, ReviewFault>, differs: Status) -> Status
        ensures { result ≡ status_of_review differs outcome }
    {
        match outcome {
            Ok(ReviewEnd::Done | ReviewEnd::Answered(_)) => Status::Done,
            Ok(ReviewEnd::Differs | ReviewEnd::Edited(_)) => differs,
            Ok(ReviewEnd::BadPolicy(_) | ReviewEnd::Refused) => Status::Refused,
            Err(fault) => Status::of_answer(fault.fault),
        }
    }

    /// The status of a question's review that tells what was answered.
    pub fn of_question(outcome: Result<ReviewEnd, ReviewFault>) -> Status
        ensures { result ≡ status_of_question outcome }
    {
        match outcome {
            Ok(ReviewEnd::Answered(Permission::Permitted)) => Status::Done,
            Ok(ReviewEnd::Answered(Permission::Denied)) => Status::Differs,
            Ok(ReviewEnd::Answered(Permission::Unknown)) => Status::Refused,
            outcome => Status::of_review(outcome, Status::Done),
        }
    }

    /// The status of a client of a console whose lines were answered.
    pub fn of_heard(heard: Heard) -> Status
        ensures { result ≡ status_of_heard heard }
    {
        match heard {
            Heard::Well => Status::Done,
            Heard::Unkept => Status::Differs,
            Heard::Refused => Status::Refused,
        }
    }

    /// The status where the text of a file isn't had.
    pub fn of_text_fault(fault: &TextFault) -> Status
        ensures memory { IsMemoryFault fault.now → result ≡ Status.OutOfMemory }
        ensures failed { (IsMemoryFault fault.now → ⊥) → result ≡ Status.Failed }
    {
        match fault {
            TextFault::Memory => Status::OutOfMemory,
            TextFault::Unopened(error) => Status::of_unopened(error.kind()),
            TextFault::Folder | TextFault::Failed | TextFault::TooLong(_) => Status::Failed,
        }
    }

    /// The status where a file could not be opened, or a port not be bound.
    pub fn of_unopened(kind: IoErrorKind) -> Status
        ensures memory { kind ≡ IoErrorKind.OutOfMemory → result ≡ Status.OutOfMemory }
        ensures failed { kind ≢ IoErrorKind.OutOfMemory → result ≡ Status.Failed }
    {
        match kind {
            IoErrorKind::OutOfMemory => Status::OutOfMemory,
            _ => Status::Failed,
        }
    }

    /// The status of a command line that asks for help or is refused.
    pub fn of_command_line(kind: ErrorKind) -> Status
        ensures shown { (kind ≡ ErrorKind.DisplayHelp) ⊎ (kind ≡ ErrorKind.DisplayVersion)
            → result ≡ Status.Done }
        ensures memory { kind ≡ ErrorKind.OutOfMemory → result ≡ Status.OutOfMemory }
        ensures mistake { (kind ≢ ErrorKind.DisplayHelp) × (kind ≢ ErrorKind.DisplayVersion)
            × (kind ≢ ErrorKind.OutOfMemory) → result ≡ Status.BadCommandLine }
    {
        match kind {
            ErrorKind::DisplayHelp | ErrorKind::DisplayVersion => Status::Done,
            ErrorKind::OutOfMemory => Status::OutOfMemory,
            _ => Status::BadCommandLine,
        }
    }

    /// The status where the words of the command line could not be had: one isn't UTF-8, or there
    /// was no room for them.
    pub fn of_unread_words(kind: IoErrorKind) -> Status
        ensures memory { kind ≡ IoErrorKind.OutOfMemory → result ≡ Status.OutOfMemory }
        ensures mistake { kind ≢ IoErrorKind.OutOfMemory → result ≡ Status.BadCommandLine }
    {
        match kind {
            IoErrorKind::OutOfMemory => Status::OutOfMemory,
            _ => Status::BadCommandLine,
        }
    }

    /// The number that the process ends with.
    pub fn number(self) -> u8
        ensures done { self ≡ Status.Done → result ≡ 0 }
        ensures refused { self ≡ Status.Refused → result ≡ 1 }
        ensures bad_command_line { self ≡ Status.BadCommandLine → result ≡ 2 }
        ensures out_of_memory { self ≡ Status.OutOfMemory → result ≡ 3 }
        ensures failed { self ≡ Status.Failed → result ≡ 4 }
        ensures differs { self ≡ Status.Differs → result ≡ 5 }
    {
        self as u8
    }
}

//! What is recorded.

ghost use Rattle.std.specs.Prelude.{◌≡◌, ◌<◌, ◌^◌, ℕ, IfOk, Some};
ghost use Rattle.std.specs.Fmt.{decimal};
ghost use Rattle.std.specs.Char.{is_ascii_digit};
ghost use Rattle.std.specs.List.{list_all};
ghost use Rattle.tac_request.specs.Record.{kind_of, seconds_of, first_under, task_of, elapsed_of};
ghost use Rattle.tac_request.specs.Record.{command_of, text_line, record_of};

use crate::line::{command_line, first_value};
use basics::{Bytes, StructuralEq, is_text};
use std::alloc::{AllocError, Global};

/// What an accounting record tells of (RFC 8907, section 7.1).
#[derive(Clone, Copy, Debug, PartialEq, Eq)]
pub enum AcctKind {
    /// A task begins.
    Begin,
    /// A task has ended.
    Stop,
    /// A task goes on, without an update.
    Watch,
    /// A task goes on, with an update.
    Update,
}

const START: u8 = 0x02;

const STOP: u8 = 0x04;

const WATCHDOG: u8 = 0x08;

/// The two flags of a watchdog record with an update.
const UPDATE: u8 = WATCHDOG | START;

/// The kind of record that these flags ask for (RFC 8907, section 7.1); `None` where START (0x02),
/// STOP (0x04) and WATCHDOG (0x08) mean nothing together. The other flags don't matter.
pub fn acct_kind(flags: u8) -> Option<AcctKind>
    ensures { result ≡ kind_of flags }
{
    match flags & (START | STOP | WATCHDOG) {
        START => Some(AcctKind::Begin),
        STOP => Some(AcctKind::Stop),
        WATCHDOG => Some(AcctKind::Watch),
        UPDATE => Some(AcctKind::Update),
        _ => None,
    }
}

/// An accounting record: what this server keeps of an accounting request.
#[derive(Debug, PartialEq, Eq)]
pub struct Record {
    pub user: Bytes,
    pub kind: AcctKind,
    /// The argument `task_id`; the empty text where there is none.
    pub task: Bytes,
    /// The argument `elapsed_time` in seconds; 0 where there is none that can be used.
    pub elapsed: u32,
    /// The command line, where the arguments make one of symbols alone, whatever the service is.
    pub line: Option<Bytes>,
}

// By hand, so that a proof of an owner has one call at each exit, not a drop of each field.
impl Drop for Record {
    fn drop(self) {
        let Record {
            user: _,
            kind: _,
            task: _,
            elapsed: _,
            line: _,
        } = self;
    }
}

impl StructuralEq for Record {
    ghost use Rattle.std.proofs.Common.{rules};

    ghost identical = { Prim.search rules };
}

fn are_digits(bytes: &[u8]) -> bool
    ensures { result ≡ list_all is_ascii_digit bytes.now }
{
    bytes.iter().all(|byte| byte.is_ascii_digit())
}

// The seconds that one or more decimal digits tell, where they fit.
fn seconds(digits: &[u8]) -> Option<u32>
    ensures { result ≡ seconds_of digits.now }
{
    // `parse` also takes a plus sign.
    if !are_digits(digits) {
        return None;
    }
    match str::from_utf8(digits) {
        Ok(text) => text.parse().ok(),
        Err(_) => None,
    }
}

fn copy_line(alloc: Global, line: &Option<Bytes>) -> Result<Option<Bytes>, AllocError>
    ensures { IfOk result (λ copy. copy ≡ line.now) }
{
    match line {
        Some(line) => Ok(Some(line.copy(alloc)?)),
        None => Ok(None),
    }
}

/// The value of the first argument `task_id` (RFC 8907, section 8.3); the empty text where there is
/// none. The error means that memory ran out.
pub fn task_id(alloc: Global, args: &[Bytes]) -> Result<Bytes, AllocError>
    ensures { IfOk result (λ task. task ≡ task_of args.now) }
{
    Bytes::from_slice(alloc, first_value(args, b"task_id").unwrap_or(&[]))
}

/// The name of the argument that tells how long a task took.
const ELAPSED_TIME: &[u8] = b"elapsed_time";

// The seconds of the first `elapsed_time`, which counts even where it tells none.
fn elapsed_time(args: &[Bytes]) -> u32
    ensures { result ≡ elapsed_of args.now }
{
    first_value(args, ELAPSED_TIME)
        .and_then(seconds)
        .unwrap_or(0)
}

// The line that the arguments make, if its bytes are symbols.
fn printable_line(alloc: Global, args: &[Bytes]) -> Result<Option<Bytes>, AllocError>
    ensures { IfOk result (λ line. line ≡ text_line (command_of args.now)) }
{
    match command_line(alloc, args)? {
        Some(line) if is_text(line.as_slice()) => Ok(Some(line)),
        _ => Ok(None),
    }
}

impl Record {
    /// What is kept of a request of this user with these arguments that tells of this kind. The
    /// error means that memory ran out.
    ///
    /// Of the arguments (RFC 8907, section 8.3) the first of a name counts, and one without `=` or
    /// `*` has no name. An `elapsed_time` can be used if it is one or more decimal digits, also
    /// with leading zeros, of a value below 2^32. The line is made of `cmd` and each `cmd-arg` as
    /// by `request_line`, but whatever the service is: some devices record commands under another
    /// than `shell`.
    pub fn from_request(
        alloc: Global,
        user: Bytes,
        args: &[Bytes],
        kind: AcctKind,
    ) -> Result<Record, AllocError>
        ensures value { IfOk result (λ kept. kept ≡ record_of user args.now kind) }
        // Seconds that a client printed are read as themselves.
        ensures printed { (n : ℕ) → n < 2 ^ 32 →
            first_under ELAPSED_TIME.now args.now ≡ Some (decimal n) →
            IfOk result (λ kept. kept.elapsed ≡ n) }
    {
        let task = task_id(alloc, args)?;
        let elapsed = elapsed_time(args);
        let line = printable_line(alloc, args)?;
        Ok(Record {
            user,
            kind,
            task,
            elapsed,
            line,
        })
    }

    /// The user and the task.
    pub fn into_texts(self) -> (Bytes, Bytes)
        ensures { result ≡ (self.user, self.task) }
    {
        let Record {
            user,
            kind: _,
            task,
            elapsed: _,
            line: _,
        } = self;
        (user, task)
    }

    /// An equal record. The error means that memory ran out.
    pub fn copy(&self, alloc: Global) -> Result<Record, AllocError>
        ensures { IfOk result (λ copy. copy ≡ self.now) }
    {
        Ok(Record {
            user: self.user.copy(alloc)?,
            kind: self.kind,
            task: self.task.copy(alloc)?,
            elapsed: self.elapsed,
            line: copy_line(alloc, &self.line)?,
        })
    }
}

//! The end of a file, where lines are appended.

ghost use Rattle.std.specs.Prelude.{◌≡◌, ◌≤◌, ◌<◌, ℕ, List, Option, length, take};
ghost use Rattle.std.specs.Io.KnownBytes.{Appends};
ghost use Rattle.tac_journal.specs.Appended.{Appended, Ends, Takes};

use std::fmt;
use std::io::{self, ErrorKind, Write};
use std::thread::sleep;
use std::time::{Clock, Duration};

/// How long a pause is in which a pipe may get room, in milliseconds.
const MOMENT: u64 = 1;

/// Why lines weren't appended.
#[derive(Drop)]
pub(crate) enum Untaken {
    /// The system says why.
    Failed(io::Error),
    /// The file or pipe took only a beginning of them.
    Cut,
}

impl fmt::Display for Untaken {
    fn fmt<W: fmt::Write>(&self, f: &mut fmt::Formatter<W>) -> fmt::Result {
        match self {
            Untaken::Failed(error) if error.kind() == ErrorKind::WouldBlock => {
                write!(f, "it is full, since its reader takes nothing")
            }
            Untaken::Failed(error) => write!(f, "{error}"),
            Untaken::Cut => write!(f, "only a part of a line fitted"),
        }
    }
}

/// A file at whose end lines are appended.
#[derive(Drop)]
pub(crate) struct Tail<F> {
    pub(crate) file: F,
    /// Whether its last line counts as having no end.
    pub(crate) is_cut: bool,
}

impl Untaken {
    // Whether there was no room for all of the lines, as where who reads a pipe is late.
    fn is_for_room(&self) -> bool {
        match self {
            Untaken::Failed(error) => error.kind() == ErrorKind::WouldBlock,
            Untaken::Cut => true,
        }
    }
}

// Writes these bytes once. Ok if the file took all of them.
fn write_once<F: Write>(file: &mut F, bytes: &[u8]) -> (usize, Result<(), Untaken>)
    ensures takes { Takes result bytes.now (F.contents file.old) (F.contents file.new) }
    ensures within { result.0 ≤ length bytes.now }
{
    match file.write(bytes) {
        Ok(taken) if taken < bytes.len() => (taken, Err(Untaken::Cut)),
        Ok(taken) => (taken, Ok(())),
        Err(error) => (0, Err(Untaken::Failed(error))),
    }
}

// The same of bytes of which the file took the first ones.
fn write_rest<F: Write>(file: &mut F, bytes: &[u8], taken: usize) -> (usize, Result<(), Untaken>)
    requires within { taken ≤ length bytes.now }
    requires some_left { 0 < length bytes.now → taken < length bytes.now }
    ensures takes { (start : Option (List ℕ)) →
        Appends start (F.contents file.old) (take taken bytes.now) →
        Takes result bytes.now start (F.contents file.new) }
    ensures within { result.0 ≤ length bytes.now }
{
    let (_, rest) = bytes.split_at(taken);
    let (more, written) = write_once(file, rest);
    (taken + more, written)
}

/// Writes these bytes, and waits so many times for a moment where there is no room for all of them.
/// Ok if the file took all of them; and else how many of them, the first ones, it took.
pub(crate) fn write_patiently<H: Clock, F: Write>(
    host: &H,
    file: &mut F,
    bytes: &[u8],
    pauses: u32,
) -> (usize, Result<(), Untaken>)
    ensures { Takes result bytes.now (F.contents file.old) (F.contents file.new) }
{
    let mut taken = 0;
    'pauses: for _ in 0..pauses {
        let (so_far, written) = write_rest(file, bytes, taken);
        match written {
            Ok(()) => return (so_far, Ok(())),
            Err(why) => {
                if !why.is_for_room() {
                    return (so_far, Err(why));
                }
            }
        }
        taken = so_far;
        sleep(host, Duration::from_millis(MOMENT));
    }
    write_rest(file, bytes, taken)
}

impl<F: Write> Tail<F> {
    // Ends the last line, where it has no end.
    fn end_line<H: Clock>(&mut self, host: &H, pauses: u32) -> Result<(), Untaken>
        ensures { Ends result self.old.is_cut self.new.is_cut
            (F.contents self.old.file) (F.contents self.new.file) }
    {
        if !self.is_cut {
            return Ok(());
        }
        let (_, written) = write_patiently(host, &mut self.file, b"\n", pauses);
        if let Ok(()) = &written {
            self.is_cut = false;
        }
        written
    }

    /// Appends these lines, after what ends a last line without an end: each by one write, or where
    /// there is no room for all of it by more of them, with so many pauses in between. Where the
    /// file takes a part of them, its last line counts as having no end, whatever the part ends in.
    pub(crate) fn append<H: Clock>(
        &mut self,
        host: &H,
        lines: &[u8],
        pauses: u32,
    ) -> Result<(), Untaken>
        ensures { Appended result lines.now self.old.is_cut self.new.is_cut
            (F.contents self.old.file) (F.contents self.new.file) }
    {
        self.end_line(host, pauses)?;
        let (taken, written) = write_patiently(host, &mut self.file, lines, pauses);
        if let Err(_) = &written {
            self.is_cut = taken > 0;
        }
        written
    }
}

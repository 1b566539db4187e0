//! Complaints that wait to be written, no more than there may be.

ghost use Rattle.std.specs.Prelude.{◌≡◌, IfOk};
ghost use Rattle.tac_complaints.specs.Waiting as complaints;

use basics::Bytes;
use std::alloc::{AllocError, Global};
use std::collections::VecDeque;
use std::fmt;
use std::marker::Model;

/// How many complaints may wait.
pub const MOST_WAITING: usize = 64;

/// What is written next.
#[derive(Drop)]
pub enum Told {
    /// A complaint, with the end of its line.
    Complaint(Bytes),
    /// How many complaints were left out.
    LeftOut(u64),
}

impl fmt::Display for Told {
    fn fmt<W: fmt::Write>(&self, f: &mut fmt::Formatter<W>) -> fmt::Result {
        match self {
            // what was displayed is text
            Told::Complaint(line) => f.write_str(str::from_utf8(line.as_slice()).unwrap_or("")),
            Told::LeftOut(1) => write!(f, "tacd: 1 complaint was left out\n"),
            Told::LeftOut(count) => write!(f, "tacd: {count} complaints were left out\n"),
        }
    }
}

/// Complaints that wait to be written, and how many were left out. It takes the memory for its
/// places when it is made.
///
/// Once one was left out, so is each later one until that was told: what is written stands in the
/// order in which it came.
#[derive(Drop)]
pub struct Waiting {
    lines: VecDeque<Bytes>,
    left_out: u64,
}

impl Model for Waiting {
    ghost use Rattle.std.specs.Prelude.{◌≤◌, length};
    ghost use Rattle.std.specs.VecDeque.{deque_capacity};
    ghost use Rattle.tac_complaints.specs.Waiting.{Complaints};

    ghost Value = { Complaints };

    ghost view = { λ all. record { waiting = all.lines.items; left_out = all.left_out } };

    ghost invariant = { λ all. (length all.lines.items ≤ 64)
        × (64 ≤ deque_capacity all.lines) };
}

impl Waiting {
    /// None waits, and none was left out.
    pub fn new(alloc: Global) -> Result<Waiting, AllocError>
        ensures { IfOk result (λ all. all ≡ complaints.none) }
    {
        let lines = VecDeque::with_capacity(alloc, MOST_WAITING)?;
        Ok(Waiting { lines, left_out: 0 })
    }

    /// Adds one; none where there was no memory for its text, and then it is left out.
    pub fn add(&mut self, line: Option<Bytes>)
        ensures { self.new ≡ complaints.added line self.old }
    {
        match line {
            Some(line) if self.left_out == 0 && self.lines.len() < MOST_WAITING => {
                self.lines.push_back_reserved(line);
            }
            _ => self.left_out = self.left_out.saturating_add(1),
        }
    }

    /// Whether nothing is to be written.
    pub fn is_empty(&self) -> bool
        ensures { result ≡ complaints.is_empty self.now }
    {
        self.lines.is_empty() && self.left_out == 0
    }

    /// What is written next: the first that waits, and after the last how many were left out.
    pub fn take(&mut self) -> Option<Told>
        ensures { complaints.Takes result self.old self.new }
    {
        if let Some(line) = self.lines.pop_front() {
            return Some(Told::Complaint(line));
        }
        if self.left_out == 0 {
            return None;
        }
        let count = self.left_out;
        self.left_out = 0;
        Some(Told::LeftOut(count))
    }
}

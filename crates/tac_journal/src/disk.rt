//! What of a file's lines is on the disk, where lines count only then.

ghost use Rattle.std.specs.Prelude.{◌≡◌, ◌<◌, ◌↔◌, ◌||◌, ℕ, List, [], ◌∷◌, IsOk, nat_le};
ghost use Rattle.tac_journal.specs.Disk as turns;
ghost use Rattle.tac_journal.specs.declared.disk.Fate.TheVariants.{Kept};

use std::sync::{Mutex, Wait};
use tac_audit::Refused;

/// What became of an append.
#[derive(Clone, Copy, PartialEq, Eq)]
pub(crate) enum Fate {
    /// Its lines are on the disk. It counts.
    Kept,
    /// The disk may have lost some of them. It never counts.
    Lost,
    /// The file wasn't sent to the disk since.
    Open,
}

impl Fate {
    /// Whether the append counts.
    pub(crate) fn counts(self) -> Result<(), Refused>
        ensures { IsOk result ↔ (self ≡ Kept) }
    {
        match self {
            Fate::Kept => Ok(()),
            Fate::Lost | Fate::Open => Err(Refused),
        }
    }
}

/// What is known of the appends to a file, which are numbered from 1 in their order.
#[derive(Clone, Copy)]
pub(crate) struct Settled {
    // up to which append all lines are on the disk
    kept: u64,
    // up to which some may be lost
    lost: u64,
}

// The greater of two: what comes up to it comes up to one of them.
fn greater(one: u64, other: u64) -> u64
    ensures { (n : ℕ) → nat_le n result ≡ (nat_le n one || nat_le n other) }
{
    if one <= other {
        return other;
    }
    one
}

impl Settled {
    /// The file was never sent to the disk.
    pub(crate) fn new() -> Settled
        ensures { turns.Knows result [] }
    {
        Settled { kept: 0, lost: 0 }
    }

    /// What is known once the disk had all appends up to this one: it kept their lines, or may have
    /// lost some.
    pub(crate) fn after(self, number: u64, is_kept: bool) -> Settled
        ensures { (before : List turns.Turn) → turns.Knows self before →
            let turn : turns.Turn = record { upto = number; is_kept = is_kept } in
            turns.Knows result (turn ∷ before) }
    {
        if is_kept {
            return Settled {
                kept: greater(number, self.kept),
                lost: self.lost,
            };
        }
        Settled {
            kept: self.kept,
            lost: greater(number, self.lost),
        }
    }

    /// What became of an append.
    pub(crate) fn fate(self, number: u64) -> Fate
        ensures { (before : List turns.Turn) → turns.Knows self before → 0 < number →
            result ≡ turns.fate before number }
    {
        if number <= self.lost {
            Fate::Lost
        } else if number <= self.kept {
            Fate::Kept
        } else {
            Fate::Open
        }
    }
}

/// The turns of a disk, which threads share.
#[derive(Drop)]
pub(crate) struct Disk {
    /// Who holds it sends the file to the disk, and with it the lines of all who wait for it.
    pub(crate) sending: Mutex<()>,
    settled: Mutex<Settled>,
}

impl Disk {
    /// No file was sent to it.
    pub(crate) fn new() -> Disk {
        Disk {
            sending: Mutex::new(()),
            settled: Mutex::new(Settled::new()),
        }
    }

    /// What became of an append.
    pub(crate) fn fate<H: Wait>(&self, host: &H, number: u64) -> Fate {
        self.settled.lock(host).fate(number)
    }

    /// Notes a turn: all lines up to an append are on the disk, or some may be lost.
    pub(crate) fn settle<H: Wait>(&self, host: &H, number: u64, is_kept: bool) {
        let mut settled = self.settled.lock(host);
        *settled = settled.after(number, is_kept);
    }
}

//! What takes the lines of an auditor.

ghost use Rattle.std.specs.Prelude.{◌≡◌, OnOk};
ghost use Rattle.tac_journal.specs.Log.{Keeping, keeping_of, nowhere};

use crate::opening::LogFiles;
use std::sync::Wait;
use std::time::Clock;
use tac_audit::Refused;

/// A log that several threads append to, or none.
pub trait Log {
    /// Whether it keeps lines, and which it took. Only an append says that any log took some.
    ghost keeping: { Self → Keeping };

    /// Whether lines are kept. Where they aren't, none need be made.
    fn is_kept(&self) -> bool
        ensures { result ≡ (keeping self.now).is_kept };

    /// Appends these lines, each with its LF, at once: no line of another stands between them. It
    /// may wait for those who append meanwhile. The file, the clock and standard error are the
    /// host's.
    ///
    /// Refused, they don't count: the log didn't take them whole, or the disk may have lost them.
    /// The device that they tell of is to be sent nothing.
    fn append<H>(&self, host: &H, lines: &[u8]) -> Result<(), Refused>
    where
        H: Wait + Clock + Eprint + LogFiles,
        ensures { OnOk result ((keeping self.now).took lines.now) };
}

/// No log: it takes all lines, and keeps none.
#[derive(Clone, Copy, Debug)]
pub struct Nowhere;

impl Log for Nowhere {
    ghost keeping = { λ _. nowhere };

    fn is_kept(&self) -> bool {
        false
    }

    fn append<H>(&self, _host: &H, _lines: &[u8]) -> Result<(), Refused>
    where
        H: Wait + Clock + Eprint + LogFiles,
    {
        Ok(())
    }
}

impl<L: Log> Log for Option<L> {
    ghost keeping = { keeping_of L.keeping };

    fn is_kept(&self) -> bool {
        match self {
            Some(log) => log.is_kept(),
            None => false,
        }
    }

    fn append<H>(&self, host: &H, lines: &[u8]) -> Result<(), Refused>
    where
        H: Wait + Clock + Eprint + LogFiles,
    {
        match self {
            Some(log) => log.append(host, lines),
            None => Ok(()),
        }
    }
}

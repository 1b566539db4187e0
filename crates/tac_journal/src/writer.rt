//! What lines are appended to by one thread: a log, with what it needs for that.

ghost use Rattle.std.specs.Prelude.{◌≡◌, ℕ, List, IfOk, OnOk, OnErr};
ghost use Rattle.tac_journal.specs.Logged.{IsLogged};

use crate::log::Log;
use crate::opening::LogFiles;
use std::alloc::AllocError;
use std::sync::Wait;
use std::time::Clock;
use tac_audit::Refused;

/// What takes lines at its end, or refuses them.
pub trait Append {
    /// It took these lines whole, and is this one then.
    ghost takes: { Self → List ℕ → Self → Type 0 };

    /// It refused these lines, and is this one then.
    ghost refuses: { Self → List ℕ → Self → Type 0 };

    /// Appends lines, each with its LF. Refused, they don't count, though it may have a part of
    /// them.
    fn append(&mut self, lines: &[u8]) -> Result<(), Refused>
        ensures ok { OnOk result (takes self.old lines.now self.new) }
        ensures err { OnErr result (refuses self.old lines.now self.new) };
}

/// A log that threads share, as one of them appends to it.
#[derive(Drop)]
pub struct LogWriter<'a, H, L> {
    host: &'a H,
    log: &'a L,
}

impl<'a, H, L: Log> LogWriter<'a, H, L>
where
    H: Wait + Clock + Eprint + LogFiles,
{
    /// This log, whose file, clock and standard error are the host's.
    pub fn new(host: &'a H, log: &'a L) -> LogWriter<'a, H, L>
        ensures { result.log.now ≡ log.now }
    {
        LogWriter { host, log }
    }
}

impl<H, L: Log> Append for LogWriter<'_, H, L>
where
    H: Wait + Clock + Eprint + LogFiles,
{
    ghost takes = { λ was lines now. (now ≡ was) × (L.keeping was.log.now).took lines };

    ghost refuses = { λ was _ now. now ≡ was };

    fn append(&mut self, lines: &[u8]) -> Result<(), Refused> {
        self.log.append(self.host, lines)
    }
}

/// Appends lines, which were made if there was memory for them.
pub(crate) fn log_lines<F: Append>(
    log: &mut F,
    lines: Result<Vec<u8>, AllocError>,
) -> Result<(), Refused>
    ensures { (wanted : List ℕ) → IfOk lines (λ lines. lines.items ≡ wanted) →
        IsLogged F.takes F.refuses result wanted log.old log.new }
{
    log.append(lines?.as_slice())
}

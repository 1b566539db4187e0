//! The line of refused connections in a log.

ghost use Rattle.std.specs.Prelude.{◌≡◌, IfOk};
ghost use Rattle.tac_journal.specs.TurnedAway.{line_turned_away, IsTurnedAway};

use crate::moment::now;
use crate::writer::{Append, log_lines};
use basics::Bytes;
use std::alloc::{AllocError, Global};
use std::time::Clock;
use tac_audit::{Origin, Refused, TurnedAway, WhyTurnedAway, turned_away_line};

// The line of JSON of these at this time.
fn line_of_refusals(
    alloc: Global,
    time: Bytes,
    origin: Origin,
    why: WhyTurnedAway,
    count: u64,
) -> Result<Vec<u8>, AllocError>
    ensures { IfOk result (λ line. line.items ≡ line_turned_away time origin why count) }
{
    let turned = TurnedAway {
        time,
        origin,
        why,
        count,
    };
    turned_away_line(alloc, &turned)
}

/// Appends the line of so many connections that were refused for this reason, the last of them of
/// this origin, at the present time and by one append. Refused, the log didn't take it, the clock
/// can't be read, or memory ran out.
pub fn log_turned_away<C: Clock, F: Append>(
    alloc: Global,
    clock: &C,
    log: &mut F,
    origin: Origin,
    why: WhyTurnedAway,
    count: u64,
) -> Result<(), Refused>
    ensures { IsTurnedAway F.takes F.refuses result origin why count log.old log.new }
{
    let time = now(alloc, clock)?;
    log_lines(log, line_of_refusals(alloc, time, origin, why, count))
}

//! The numbers that a server begins with.

ghost use Rattle.std.specs.Prelude.{◌≡◌};
ghost use Rattle.tac_start.specs.Opening as opening;

use tac_desks::MAX_RECORDS;
use tac_tally::RecordLimit;

/// The most workers of a server that isn't told how many.
const MOST_WORKERS: usize = 16;

/// The bytes of a megabyte.
const MEGABYTE: u64 = 1_048_576;

/// So many megabytes, in bytes.
pub fn megabytes(count: u32) -> u64
    ensures { result ≡ opening.megabytes count }
{
    u64::from(count) * MEGABYTE
}

/// How many workers there are: as many as the option says, where it is given; else one for each
/// processor, or the most where each waits for the disk before it replies.
pub fn workers_of(given: Option<u32>, syncs: bool, processors: usize) -> u32
    ensures { result ≡ opening.workers given syncs processors }
{
    let wanted = if syncs { MOST_WORKERS } else { processors };
    match given {
        Some(workers) => workers,
        None => wanted.clamp(1, MOST_WORKERS) as u32,
    }
}

/// How many threads work passwords out: one less than there are processors, but at least one, and no
/// more than four.
pub fn hashers_of(processors: usize) -> u32
    ensures { result ≡ opening.hashers processors }
{
    processors.saturating_sub(1).clamp(1, 4) as u32
}

/// How many records are kept, and what is done with one more: by what the option says, where it is
/// given.
pub fn record_limit_of(most: Option<u32>) -> RecordLimit
    ensures { result ≡ opening.record_limit most }
{
    match most {
        Some(most) => RecordLimit::forgetting(most as usize),
        None => RecordLimit::refusing(MAX_RECORDS),
    }
}

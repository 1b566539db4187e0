//! How many connections there are of each address that has any.

ghost use Rattle.std.specs.Prelude.{◌≡◌, ◌<◌, List, ℕ, IfSome, is_some};
ghost use Rattle.std.specs.Str.{bytes_eq};
ghost use Rattle.std.specs.HashMap.{get};
ghost use Rattle.tac_census.specs.Counting.{one_less, looked_up};

use std::collections::HashMap;

// Counts, by the segments of addresses.
pub(crate) type Table = HashMap<[u16; 8], u32>;

// How many there are of these segments. A hash look-up.
pub(crate) fn count_of(table: &Table, segments: &[u16; 8]) -> u32
    ensures { result ≡ looked_up (get bytes_eq table.now segments.now) }
{
    match table.get(segments) {
        Some(count) => *count,
        None => 0,
    }
}

// One less of these segments, and whether there was one. At most two hash look-ups.
pub(crate) fn take_one(table: &mut Table, segments: &[u16; 8]) -> bool
    requires { IfSome (get bytes_eq table.old segments.now) (λ count. 0 < count) }
    ensures there { result ≡ is_some (get bytes_eq table.old segments.now) }
    ensures less { (others : List ℕ) → get bytes_eq table.new others
        ≡ one_less (bytes_eq segments.now others) (get bytes_eq table.old others) }
{
    let Some(count) = table.get_mut(segments) else {
        return false;
    };
    if *count > 1 {
        *count -= 1;
        return true;
    }
    table.remove(segments);
    true
}

//! The choice of a key.

ghost use Rattle.std.specs.Prelude.{◌≡◌, Some, IfOk, OnErr, IsSome, IsTrue};
ghost use Rattle.tac_first.specs.Choice.{chosen, chosen_of, is_served, ShowsItsKey};

use crate::fit::{IN_RANGE, fit_of};
use crate::keys::{Keys, Shown};
use std::alloc::{AllocError, Global};
use tac_wire::{Frame, KeyDoor};

// Which of two keys a packet shows.
fn choose_between(
    alloc: Global,
    present: &KeyDoor,
    old: &KeyDoor,
    frame: &Frame,
) -> Result<Shown, AllocError>
    ensures exact { IfOk result (λ shown. shown ≡ chosen_of present.now (Some old.now) frame.now) }
    ensures memory { OnErr result (IsTrue (is_served frame.now.header.kind.0)) }
{
    let present_fit = fit_of(alloc, present, frame)?;
    if present_fit == IN_RANGE {
        return Ok(Shown::Present);
    }
    if present_fit < fit_of(alloc, old, frame)? {
        Ok(Shown::Old)
    } else {
        Ok(Shown::Present)
    }
}

/// Which of a device's keys a packet shows that is the first on its connection.
///
/// Nothing in a packet names its key, so its body is read under the present key, and under the old
/// one unless it fits the present one well. That costs two pads and two readings at most, each of a
/// copy of the body that is let go before the next; a reading copies the fields of a valid body.
/// Without an old key, and for a type that isn't served, nothing is read and no memory taken. The
/// error means that memory ran out.
pub fn choose(alloc: Global, keys: &Keys, frame: &Frame) -> Result<Shown, AllocError>
    ensures exact { IfOk result (λ shown. shown ≡ chosen keys.now frame.now) }
    // What devices send with values in their ranges shows their key.
    ensures own { ShowsItsKey keys.now }
    ensures memory { OnErr result
        (IsSome keys.now.old × IsTrue (is_served frame.now.header.kind.0)) }
{
    match &keys.old {
        Some(old) => choose_between(alloc, &keys.present, old, frame),
        None => Ok(Shown::Present),
    }
}

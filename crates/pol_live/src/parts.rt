//! The automata that are kept of a policy.

ghost use Rattle.std.specs.Prelude.{◌≡◌, ◌<◌, ℕ, length, slice_set, Some, None, IfOk};
ghost use Rattle.std.specs.Option.{option_copied};
ghost use Rattle.pol_live.specs.Kept.{slot};

use crate::shared::Shared;
use basics::Sequence;
use std::alloc::{AllocError, Global};

/// Places for automata, one for each subject of a policy, in its order.
pub(crate) type Slots = Sequence<Option<Shared>>;

/// The automata of a policy's subjects, those that there are.
pub(crate) struct Parts {
    /// Of a subject's own rules.
    pub(crate) owns: Slots,
    /// Of the rules along its chain, its own first.
    pub(crate) wholes: Slots,
}

// By hand, so that a proof of an owner has one call at each exit, not a drop of each field.
impl Drop for Parts {
    fn drop(self) {
        let Parts { owns: _, wholes: _ } = self;
    }
}

/// So many places without automata.
pub(crate) fn blank(alloc: Global, count: usize) -> Result<Slots, AllocError>
    ensures many { IfOk result (λ slots. length slots ≡ count) }
    ensures none { IfOk result (λ slots. (k : ℕ) → slot slots k ≡ None) }
{
    let mut slots = Sequence::new(alloc);
    for _ in 0..count {
        slots.push(None)?;
    }
    Ok(slots)
}

/// The automaton at a place, if there is one.
pub(crate) fn lookup(slots: &Slots, at: usize) -> Option<&Shared>
    ensures { option_copied result ≡ slot slots.now at }
{
    match slots.as_slice().get(at) {
        Some(slot) => slot.as_ref(),
        None => None,
    }
}

/// Puts an automaton at a place.
pub(crate) fn put(slots: &mut Slots, at: usize, shared: Shared)
    requires { at < length slots.old }
    ensures { slots.new ≡ slice_set slots.old at (Some shared) }
{
    if let Some(slot) = slots.get_mut(at) {
        *slot = Some(shared);
    }
}

//! The states that a scan has found.

ghost use Rattle.std.specs.Prelude.{◌≡◌, ◌<◌, [], ◌∷◌, length, slice_get, Some, IfOk};
ghost use Rattle.pol_scan.specs.Discovery.{AreFound, AreAfter, Advances};

use crate::machine::{Column, Machine};
use crate::words::Words;
use indexmap::IndexSet;
use std::alloc::{AllocError, Global};
use std::hash::Hash;

/// The states found so far, in the order of discovery, and beside each the word that led there.
#[derive(Drop)]
pub(crate) struct Found<S: Eq + Hash + Drop> {
    pub(crate) states: IndexSet<S>,
    pub(crate) words: Words,
}

impl<S: Eq + Hash + Drop> Found<S> {
    // A found state.
    pub(crate) fn state(&self, number: usize) -> &S
        requires { number < length self.now.states.keys }
        ensures { Some result.now ≡ slice_get self.now.states.keys number }
    {
        let Some(state) = self.states.get_index(number) else {
            unreachable!();
        };
        state
    }
}

// The first state alone.
pub(crate) fn begin<M: Machine>(
    alloc: Global,
    machine: &mut M,
) -> Result<Found<M::State>, AllocError>
    ensures found { IfOk result (λ found. AreFound (M.congruence machine.new) (M.leads machine.new)
        found.words found.states.keys) }
    ensures first { IfOk result (λ found. found.words ≡ [] ∷ []) }
    ensures after { IfOk result (λ found. AreAfter found.words 0 0) }
    ensures grows { M.grows machine.old machine.new }
{
    let start = machine.start()?;
    let mut states = IndexSet::new(alloc);
    states.insert(start)?;
    Ok(Found {
        states,
        words: Words::new(alloc),
    })
}

// Follows a column from a found state: the state to which it leads, and whether that is a new one.
pub(crate) fn follow<M: Machine>(
    machine: &mut M,
    found: &mut Found<M::State>,
    number: usize,
    column: Column,
) -> Result<(usize, bool), AllocError>
    requires number { number < length found.old.words }
    requires column { column < (M.congruence machine.old).width }
    requires found { AreFound (M.congruence machine.old) (M.leads machine.old)
        found.old.words found.old.states.keys }
    requires after { AreAfter found.old.words number column }
    ensures advances { IfOk result (λ r. Advances (M.congruence machine.new) (M.leads machine.new)
        found.old.words found.new.words found.new.states.keys number column r.0 r.1) }
    ensures grows { M.grows machine.old machine.new }
{
    let next = machine.step(found.state(number), column)?;
    let (at, is_new) = found.states.insert_full(next)?;
    if is_new {
        found.words.push(number, column)?;
    }
    Ok((at, is_new))
}

//! The automaton of entries and others after them.

ghost use Rattle.std.specs.Prelude.{◌≡◌, ◌<◌, ◌≤◌, ◌+◌, ◌++◌, ℕ, List, All, min, IfOk, OnOk};
ghost use Rattle.std.specs.Prelude.{OnErr, IsErrOf};
ghost use Rattle.std.specs.List.{AllZip};
ghost use Rattle.pol_scan.specs.Table.{count};
ghost use Rattle.pol_residual.specs.Residuals.{HasMoreResiduals, ExcludesLaw, IsResidualCount};
ghost use Rattle.pol_automaton.specs.Joining.{joined_first, joined_sure};

use crate::decider::Decider;
use crate::fault::DeciderFault;
use crate::joined_pairs::Joining;
use crate::meter::Meter;
use crate::pairs::Pair;
use pol_scan::{Automaton, StateNumber, scan};
use std::alloc::{AllocError, Global};

// The first match of a pair of states.
fn first_of_pair(first: &Decider, rest: &Decider, pair: &Pair) -> Option<usize>
    requires first { pair.now.0 < count first.now.table }
    requires rest { pair.now.1 < count rest.now.table }
    requires few { first.now.entries + rest.now.entries ≤ usize.MAX }
    ensures { result ≡ joined_first first.now rest.now pair.now.0 pair.now.1 }
{
    if let Some(entry) = first.first_match(pair.0) {
        return Some(entry);
    }
    let Some(entry) = rest.first_match(pair.1) else {
        return None;
    };
    Some(first.entries() + entry)
}

// The first match of each pair.
fn firsts_of_pairs(
    alloc: Global,
    first: &Decider,
    rest: &Decider,
    pairs: &[Pair],
) -> Result<Vec<Option<usize>>, AllocError>
    requires few { first.now.entries + rest.now.entries ≤ usize.MAX }
    requires within { All (λ pair. (pair.0 < count first.now.table)
        × (pair.1 < count rest.now.table)) pairs.now }
    ensures { IfOk result (λ firsts. AllZip (λ pair found.
        found ≡ joined_first first.now rest.now pair.0 pair.1) pairs.now firsts.items) }
{
    let mut firsts = Vec::new(alloc);
    for pair in pairs {
        firsts.push(first_of_pair(first, rest, pair))?;
    }
    Ok(firsts)
}

// Whether an entry of either is sure.
fn is_sure_pair(first: &Decider, rest: &Decider, pair: &Pair) -> bool
    requires first { pair.now.0 < count first.now.table }
    requires rest { pair.now.1 < count rest.now.table }
    ensures { result ≡ joined_sure first.now rest.now pair.now.0 pair.now.1 }
{
    first.is_sure(pair.0) || rest.is_sure(pair.1)
}

// Whether an entry is sure, of each pair.
fn sures_of_pairs(
    alloc: Global,
    first: &Decider,
    rest: &Decider,
    pairs: &[Pair],
) -> Result<Vec<bool>, AllocError>
    requires { All (λ pair. (pair.0 < count first.now.table)
        × (pair.1 < count rest.now.table)) pairs.now }
    ensures { IfOk result (λ sures. AllZip (λ pair sure.
        sure ≡ joined_sure first.now rest.now pair.0 pair.1) pairs.now sures.items) }
{
    let mut sures = Vec::new(alloc);
    for pair in pairs {
        sures.push(is_sure_pair(first, rest, pair))?;
    }
    Ok(sures)
}

impl Decider {
    ghost use Rattle.pol_automaton.specs.Automaton.{IsDecider};

    /// The Decider of the entries of one, and those of another after them. It takes time by its
    /// states and its columns.
    pub fn join(
        alloc: Global,
        first: &Decider,
        rest: &Decider,
        limit: StateNumber,
        meter: &mut Meter,
    ) -> Result<Decider, DeciderFault>
        ensures decider { (own others : List (List ℕ)) → IsDecider first.now own
            → IsDecider rest.now others → IfOk result (λ d. IsDecider d (own ++ others)) }
        ensures few { IfOk result (λ d. count d.table ≤ limit) }
        ensures too_many { (own others : List (List ℕ)) → IsDecider first.now own
            → IsDecider rest.now others → IsErrOf result DeciderFault.TooManyStates
            → HasMoreResiduals (own ++ others) limit }
        ensures excludes { ExcludesLaw }
        ensures counted { IfOk result
            (λ d. meter.new.total ≡ min (meter.old.total + count d.table) u128.MAX) }
        ensures exact { (own others : List (List ℕ)) (residuals : ℕ) → IsDecider first.now own
            → IsDecider rest.now others → IsResidualCount (own ++ others) residuals
            → OnOk result (meter.new.total ≡ min (meter.old.total + residuals) u128.MAX) }
        ensures not_counted { OnErr result (meter.new.total ≡ meter.old.total) }
    {
        // More entries than memory has places.
        let Some(entries) = first.entries().checked_add(rest.entries()) else {
            return Err(DeciderFault::Memory);
        };
        let alphabet = first.alphabet().join(&rest.alphabet());
        let mut joining = Joining {
            alphabet,
            first,
            rest,
        };
        let Automaton { table, states } = scan(alloc, &mut joining, limit)?;
        let firsts = firsts_of_pairs(alloc, first, rest, states.as_slice())?;
        let sures = sures_of_pairs(alloc, first, rest, states.as_slice())?;
        meter.raise(table.states());
        Ok(Decider {
            alphabet,
            table,
            firsts,
            sures,
            entries,
        })
    }
}

//! One step of the scan.

ghost use Rattle.std.specs.Prelude.{◌≡◌, ◌<◌, ◌++◌, List, length, map, IfOk, OnOk};
ghost use Rattle.pol_deriv.specs.Table.{Grows};
ghost use Rattle.pol_automaton.specs.declared.entry_term.EntryTerm.{EntryTerm};
ghost use Rattle.pol_automaton.specs.Scanning.{item_of, AreResiduals};
ghost use Rattle.pol_automaton.specs.Stepping.{AreWithin, AreDerivatives, AddsDerivatives, AreCut};

use crate::arranging::arrange;
use crate::cutting::cut;
use crate::entry_term::EntryTerm;
use pol_deriv::{Number, Terms};
use std::alloc::{AllocError, Global};

// Adds terms of an entry.
pub(crate) fn push_each(
    items: &mut Vec<EntryTerm>,
    entry: usize,
    numbers: &[Number],
) -> Result<(), AllocError>
    ensures { OnOk result
        (items.new.items ≡ items.old.items ++ map (item_of entry) numbers.now) }
{
    for term in numbers {
        items.push(EntryTerm { entry, term: *term })?;
    }
    Ok(())
}

// Adds the derivatives of a term by a symbol.
fn push_derivatives(
    terms: &mut Terms,
    item: EntryTerm,
    symbol: u8,
    derived: &mut Vec<EntryTerm>,
) -> Result<(), AllocError>
    requires item { item.term < length terms.old }
    requires within { AreWithin terms.old derived.old.items }
    ensures grows { Grows terms.old terms.new }
    ensures adds { OnOk result
        (AddsDerivatives terms.old terms.new symbol item derived.old.items derived.new.items) }
{
    let numbers = terms.derivatives(item.term, symbol)?;
    push_each(derived, item.entry, numbers)?;
    Ok(())
}

// The derivatives of residuals by a symbol.
fn derivatives(
    alloc: Global,
    terms: &mut Terms,
    items: &[EntryTerm],
    symbol: u8,
) -> Result<Vec<EntryTerm>, AllocError>
    requires { AreResiduals terms.old items.now }
    ensures grows { Grows terms.old terms.new }
    ensures right { IfOk result (λ next. AreResiduals terms.new next.items) }
    ensures exact { IfOk result
        (λ next. AreDerivatives terms.old terms.new symbol items.now next.items) }
{
    let mut next = Vec::new(alloc);
    for item in items {
        push_derivatives(terms, *item, symbol, &mut next)?;
    }
    arrange(&mut next);
    Ok(next)
}

/// What counts of the residuals to which residuals and a symbol lead. Takes the time to ask for the
/// derivatives of each term, and to put them in order.
pub(crate) fn step(
    alloc: Global,
    terms: &mut Terms,
    items: &[EntryTerm],
    symbol: u8,
) -> Result<Vec<EntryTerm>, AllocError>
    requires { AreResiduals terms.old items.now }
    ensures grows { Grows terms.old terms.new }
    ensures right { IfOk result (λ next. AreResiduals terms.new next.items) }
    ensures exact { IfOk result (λ next. (derived : List EntryTerm)
        × AreDerivatives terms.old terms.new symbol items.now derived
        × AreCut terms.new derived next.items) }
{
    let mut next = derivatives(alloc, terms, items, symbol)?;
    cut(terms, &mut next);
    Ok(next)
}

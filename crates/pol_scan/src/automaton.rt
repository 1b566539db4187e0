//! The scan that finds all states.

ghost use Rattle.std.specs.Prelude.{◌≡◌, ◌<◌, ◌≤◌, ◌+◌, ℕ, length, IfOk, OnOk, IsErrOf};
ghost use Rattle.std.specs.List.{AllZip};
ghost use Rattle.pol_scan.specs.Congruence.{HasIndex, HasIndexAbove};
ghost use Rattle.pol_scan.specs.Discovery.{StandsAt};
ghost use Rattle.pol_scan.specs.Table.{count, IsAutomatonOf};

use crate::fault::ScanFault;
use crate::found::{Found, begin, follow};
use crate::machine::{Column, Machine};
use crate::table::{StateNumber, Table};
use indexmap::IndexSet;
use std::alloc::Global;
use std::hash::Hash;

/// A deterministic automaton without accepting states.
#[derive(Drop)]
pub struct Automaton<S: Eq + Hash + Drop> {
    /// The row and the word of each state.
    pub table: Table,
    /// The states, in the order of their numbers.
    pub states: IndexSet<S>,
}

// Follows each column from a found state, and keeps the row of cells.
fn fill_row<M: Machine>(
    machine: &mut M,
    found: &mut Found<M::State>,
    cells: &mut Vec<StateNumber>,
    number: usize,
    width: Column,
    limit: StateNumber,
) -> Result<(), ScanFault>
    requires number { number < length found.old.words }
    requires width { width ≡ (M.congruence machine.old).width }
    requires few { length found.old.words ≤ limit }
    requires stands { StandsAt (M.congruence machine.old) (M.leads machine.old)
        found.old.words found.old.states.keys cells.old.items number 0 }

    // The next row begins after this one.
    ensures stands { OnOk result (StandsAt (M.congruence machine.new) (M.leads machine.new)
        found.new.words found.new.states.keys cells.new.items (number + 1) 0) }
    ensures number { OnOk result (number < length found.new.words) }
    ensures few { OnOk result (length found.new.words ≤ limit) }
    ensures too_many { IsErrOf result ScanFault.TooMany
        → HasIndexAbove (M.congruence machine.new) limit }
    ensures width { width ≡ (M.congruence machine.new).width }
    ensures grows { M.grows machine.old machine.new }
{
    'columns: for column in 0..width {
        let (next, _) = follow(machine, found, number, column)?;
        if found.states.len() > limit as usize {
            return Err(ScanFault::TooMany);
        }
        cells.push(next as StateNumber)?;
    }
    Ok(())
}

/// Finds the states of a machine, breadth first, and the columns of each in order. So states are
/// numbered in the order of their least words, and each has the word along which it was found.
///
/// One step of the machine and one look-up for each state and column.
pub fn scan<M: Machine>(
    alloc: Global,
    machine: &mut M,
    limit: StateNumber,
) -> Result<Automaton<M::State>, ScanFault>
    ensures automaton { IfOk result (λ a. IsAutomatonOf (M.congruence machine.old) a.table) }
    ensures states { IfOk result (λ a. AllZip (M.leads machine.new) a.table.words a.states.keys) }

    // The states are all the classes, and at most the limit.
    ensures index { IfOk result (λ a. HasIndex (M.congruence machine.old) (count a.table)) }
    ensures few { IfOk result (λ a. count a.table ≤ limit) }

    // There are too many only where more words than the limit differ. It can't be both.
    ensures too_many { IsErrOf result ScanFault.TooMany
        → HasIndexAbove (M.congruence machine.old) limit }
    ensures excludes { (index : ℕ) → HasIndex (M.congruence machine.old) index → index ≤ limit
        → ¬ (HasIndexAbove (M.congruence machine.old) limit) }

    // Also where it gives up.
    ensures grows { M.grows machine.old machine.new }
{
    let width = machine.width();
    let mut found = begin(alloc, machine)?;
    if limit == 0 {
        return Err(ScanFault::TooMany);
    }
    let mut cells = Vec::new(alloc);
    let mut number = 0;
    'rows: while number < found.states.len() {
        fill_row(machine, &mut found, &mut cells, number, width, limit)?;
        number += 1;
    }
    let Found { states, words } = found;
    let table = Table::new(alloc, width, cells, words)?;
    Ok(Automaton { table, states })
}

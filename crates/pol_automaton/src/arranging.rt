//! Lists of terms in order.

ghost use Rattle.std.specs.Prelude.{◌↔◌, Contains};
ghost use Rattle.std.specs.List.Sorted.{IsStrictlySortedBy};
ghost use Rattle.pol_automaton.specs.declared.entry_term.EntryTerm.{EntryTerm as Item};
ghost use Rattle.pol_automaton.specs.Scanning.{order};

use crate::entry_term::EntryTerm;

/// Puts the terms in order, each once. Many lists have one term or none, and are as they should be.
pub(crate) fn arrange(items: &mut Vec<EntryTerm>)
    ensures sorted { IsStrictlySortedBy order items.new.items }
    ensures members { (x : Item) → Contains items.new.items x ↔ Contains items.old.items x }
{
    if items.len() < 2 {
        return;
    }
    items.sort_unstable();
    items.dedup();
}

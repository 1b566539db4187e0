//! Sets of terms, by their numbers.

ghost use Rattle.std.specs.Prelude.{◌≡◌, ◌↔◌, ℕ, Contains};
ghost use Rattle.std.specs.List.Sorted.{IsStrictlyIncreasing};
ghost use Rattle.pol_deriv.specs.Table.{SameSetLaw};

use crate::node::Number;
use std::marker::Model;

/// A set of terms. A contract sees the list of their numbers, in order.
#[derive(Drop)]
pub struct TermSet {
    numbers: Vec<Number>,
}

impl Model for TermSet {
    ghost use Rattle.std.specs.Prelude.{ℕ, List};
    ghost use Rattle.std.specs.List.Sorted.{IsStrictlyIncreasing};

    ghost Value = { List ℕ };

    ghost view = { λ set. set.numbers.items };

    ghost invariant = { λ set. IsStrictlyIncreasing set.numbers.items };
}

// Puts numbers in order, each once. Most lists have one number or none, and are as they should be.
fn arrange(numbers: &mut Vec<Number>)
    ensures members { (n : ℕ) → Contains numbers.new.items n ↔ Contains numbers.old.items n }
    ensures sorted { IsStrictlyIncreasing numbers.new.items }
{
    if numbers.len() < 2 {
        return;
    }
    numbers.sort_unstable();
    numbers.dedup();
}

impl TermSet {
    /// The set of these numbers.
    pub(crate) fn new(mut numbers: Vec<Number>) -> TermSet
        ensures members { (n : ℕ) → Contains result n ↔ Contains numbers.items n }
        ensures sorted { IsStrictlyIncreasing result }
    {
        arrange(&mut numbers);
        TermSet { numbers }
    }

    /// The numbers of the terms.
    pub fn numbers(&self) -> &[Number]
        ensures numbers { result.now ≡ self.now }

        // They ascend, so two sets of the same terms have the same numbers.
        ensures sorted { IsStrictlyIncreasing result.now }
        ensures law { SameSetLaw }
    {
        &self.numbers
    }
}

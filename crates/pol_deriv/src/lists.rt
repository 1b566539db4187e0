//! Lists of numbers, in one piece of memory.

ghost use Rattle.std.specs.Prelude.{◌≡◌, ◌+◌, ◌<◌, [], ◌∷◌, ◌++◌, length, slice_get, Some};
ghost use Rattle.std.specs.Prelude.{OnOk, OnErr};

use crate::node::Number;
use std::alloc::{AllocError, Global};
use std::marker::Model;

/// Where a list lies.
#[derive(Clone, Copy)]
struct Span {
    start: usize,
    end: usize,
}

/// Lists of numbers, in order. A contract sees the list of them.
pub(crate) struct Lists {
    spans: Vec<Span>,
    numbers: Vec<Number>,
}

// By hand, so that a proof of an owner has one call at each exit, not a drop of each field.
impl Drop for Lists {
    fn drop(self) {
        let Lists {
            spans: _,
            numbers: _,
        } = self;
    }
}

impl Model for Lists {
    ghost use Rattle.std.specs.Prelude.{ℕ, List};

    ghost Value = { List (List ℕ) };

    ghost use Rattle.pol_deriv.specs.Spans.{lists_of, AreWithin};

    ghost view = { λ lists. lists_of lists.numbers.items lists.spans.items };

    ghost invariant = { λ lists. AreWithin lists.numbers.items lists.spans.items };
}

impl Lists {
    /// No lists.
    pub(crate) fn new(alloc: Global) -> Lists
        ensures { result ≡ [] }
    {
        Lists {
            spans: Vec::new(alloc),
            numbers: Vec::new(alloc),
        }
    }

    /// How many lists there are.
    pub(crate) fn len(&self) -> usize
        ensures { result ≡ length self.now }
    {
        self.spans.len()
    }

    /// The list so many places after another.
    pub(crate) fn get(&self, first: usize, offset: usize) -> &[Number]
        requires { first + offset < length self.now }
        ensures { slice_get self.now (first + offset) ≡ Some result.now }
    {
        let Span { start, end } = self.spans[first + offset];
        &self.numbers[start..end]
    }

    /// Adds a list at the end.
    pub(crate) fn push(&mut self, list: &[Number]) -> Result<(), AllocError>
        ensures ok { OnOk result (self.new ≡ self.old ++ list.now ∷ []) }
        ensures err { OnErr result (self.new ≡ self.old) }
    {
        let start = self.numbers.len();
        self.numbers.extend_from_slice(list)?;
        let end = self.numbers.len();
        self.spans.push(Span { start, end })?;
        Ok(())
    }
}

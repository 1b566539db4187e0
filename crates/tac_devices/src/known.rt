//! Values of which none stands twice.

ghost use Rattle.std.specs.Prelude.{◌≡◌, ◌++◌, ◌∷◌, [], length, false, OnOk};
ghost use Rattle.std.specs.List.{list_any};

use indexmap::IndexSet;
use std::alloc::{AllocFailed, Global};
use std::hash::Hash;
use std::marker::Model;

/// Values in the order in which they came, each found in expected constant time.
#[derive(Drop)]
pub(crate) struct Known<T: Eq + Hash + Drop> {
    items: IndexSet<T>,
}

impl<T: Eq + Hash + Drop> Model for Known<T> {
    ghost use Rattle.std.specs.Prelude.{List};

    ghost Value = { List T };

    ghost view = { λ known. known.items.keys };
}

impl<T: Eq + Hash + Drop> Known<T> {
    /// No values. Takes no memory.
    pub(crate) fn new(alloc: Global) -> Known<T>
        ensures { result ≡ [] }
    {
        Known {
            items: IndexSet::new(alloc),
        }
    }

    /// Whether the value is there.
    pub(crate) fn has(&self, item: &T) -> bool
        ensures { result ≡ list_any (T.eq item.now) self.now }
    {
        self.items.contains(item)
    }

    /// How many values there are.
    pub(crate) fn len(&self) -> usize
        ensures { result ≡ length self.now }
    {
        self.items.len()
    }

    /// Adds a value that isn't there yet.
    pub(crate) fn push(&mut self, item: T) -> Result<(), AllocFailed<T>>
        requires { list_any (T.eq item) self.old ≡ false }
        ensures { OnOk result (self.new ≡ self.old ++ item ∷ []) }
    {
        self.items.insert(item)?;
        Ok(())
    }
}

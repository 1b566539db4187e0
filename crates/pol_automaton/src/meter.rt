//! How much was built.

ghost use Rattle.std.specs.Prelude.{◌≡◌, ◌≤◌, ◌+◌, min};
ghost use Rattle.std.below.core.specs.declared.int.u128.TheConstants.{MAX};

/// Counts the states of the automata that were made. It stays at its greatest value.
#[derive(Debug, Drop)]
pub struct Meter {
    total: u128,
    // so that callers know it of each meter
    ghost fits: { total ≤ MAX },
}

impl Meter {
    /// Nothing was made.
    pub fn new() -> Meter
        ensures { result.total ≡ 0 }
    {
        Meter { total: 0 }
    }

    /// How many states were made.
    pub fn total(&self) -> u128
        ensures { result ≡ self.now.total }
    {
        self.total
    }

    /// So many more were made.
    pub(crate) fn raise(&mut self, states: u16)
        ensures { self.new.total ≡ min (self.old.total + states) u128.MAX }
    {
        self.total = self.total.saturating_add(u128::from(states));
    }
}

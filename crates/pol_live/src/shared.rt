//! Automata with several owners.

ghost use Rattle.std.specs.Prelude.{◌≡◌, IfOk};

use pol_automaton::Decider;
use std::alloc::{AllocError, Global};
use std::marker::Model;
use std::sync::Arc;

/// An automaton that subjects, and the policies before and after an edit, may share. A contract
/// sees the automaton.
#[derive(Drop)]
pub(crate) struct Shared {
    decider: Arc<Decider>,
}

impl Model for Shared {
    ghost use Rattle.std.specs.Arc.{arc_value};
    ghost use Rattle.pol_automaton.specs.Automaton.{Automaton};

    ghost Value = { Automaton };

    ghost view = { λ shared. arc_value shared.decider };
}

impl Shared {
    pub(crate) fn new(alloc: Global, decider: Decider) -> Result<Shared, AllocError>
        ensures { IfOk result (λ shared. shared ≡ decider) }
    {
        let decider = Arc::new(alloc, decider)?;
        Ok(Shared { decider })
    }

    /// One more owner.
    pub(crate) fn share(&self) -> Result<Shared, AllocError>
        ensures { IfOk result (λ shared. shared ≡ self.now) }
    {
        let decider = self.decider.clone()?;
        Ok(Shared { decider })
    }

    pub(crate) fn decider(&self) -> &Decider
        ensures { result.now ≡ self.now }
    {
        &self.decider
    }
}

//! Who types at a console.

ghost use Rattle.std.specs.Prelude.{IfOk};
ghost use Rattle.tac_audit.specs.declared.event.Typist.{Typist as TypistValue};

use std::alloc::{AllocError, Global};
use tac_audit::Typist;

/// Knows who types at a console.
pub trait Typists {
    /// Whom it may name.
    ghost names: { Self → TypistValue → Type 0 };

    /// Who typed the line that the console answers now. It may wait for a lock. The error means
    /// that memory ran out.
    fn typist(&self, alloc: Global) -> Result<Typist, AllocError>
        ensures { IfOk result (λ typist. names self.now typist) };
}

/// A console with one input: nobody says who has it.
#[derive(Clone, Copy, Debug)]
pub struct OneInput;

impl Typists for OneInput {
    ghost use Rattle.std.specs.Prelude.{◌≡◌};
    ghost use Rattle.tac_audit.specs.declared.event.Typist.TheVariants.{Anyone};

    ghost names = { λ _ typist. typist ≡ Anyone };

    fn typist(&self, _alloc: Global) -> Result<Typist, AllocError> {
        Ok(Typist::Anyone)
    }
}

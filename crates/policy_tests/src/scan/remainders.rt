//! A machine that reads words as numbers, and tells them apart by their remainders.

ghost use Rattle.std.specs.Prelude.{◌≡◌, ◌<◌};

use pol_scan::{Acceptor, Column, Machine, search};
use std::alloc::{AllocError, Global};

/// How words are read: as numbers in a base, told apart by their remainders.
#[derive(Clone, Copy)]
pub struct Numerals {
    pub base: Column,
    pub divisor: u32,
    ghost positive: { 0 < divisor },
}

/// Counts the steps that it makes.
#[derive(Drop)]
pub struct Remainders {
    pub numerals: Numerals,
    /// The remainder that is accepted.
    pub target: u32,
    pub steps: u64,
}

impl Machine for Remainders {
    ghost use Rattle.policy_tests.specs.Remainder.{remainders, LeadsTo, told_apart, kept};
    ghost use Rattle.std.specs.Prelude.{refl};
    ghost use Rattle.std.proofs.Common.{◌∙◌};

    type State = u32;

    ghost congruence = { λ m. remainders m.numerals };

    ghost leads = { λ m. LeadsTo m.numerals };

    ghost grows = { λ a b. (a.numerals ≡ b.numerals) × (a.target ≡ b.target) };

    fn width(&self) -> Column {
        self.numerals.base
    }

    fn start(&mut self) -> Result<u32, AllocError> {
        Ok(0)
    }

    fn step(&mut self, state: &u32, column: Column) -> Result<u32, AllocError> {
        self.steps = self.steps.saturating_add(1);
        let Numerals { base, divisor } = self.numerals;
        let number = u64::from(*state) * u64::from(base) + u64::from(column);
        Ok((number % u64::from(divisor)) as u32)
    }

    ghost tells = { λ m. told_apart m.numerals };

    ghost keeps = { λ a b e. kept a.numerals b.numerals e.0 };

    ghost reflexive = { λ m. (refl, refl) };

    ghost transitive = { λ a b c p q. (p.0 ∙ q.0, p.1 ∙ q.1) };
}

impl Acceptor for Remainders {
    ghost use Rattle.std.proofs.Common.{sym, ◌∙◌};
    ghost use Rattle.policy_tests.specs.Remainder.{remainder, accepted_kept};

    ghost accepted = { λ m word. remainder m.numerals word ≡ m.target };

    fn accepts(&self, state: &u32) -> bool {
        *state == self.target
    }

    ghost respects = { λ m u v e h. sym e ∙ h };

    ghost stays = { λ a b e. accepted_kept a.numerals b.numerals a.target b.target e.0 e.1 };
}

impl Remainders {
    /// The least word with the remainder that is accepted.
    pub fn least(&mut self, alloc: Global) -> Result<Option<Vec<Column>>, AllocError> {
        let bound = self.numerals.divisor as usize;
        search(alloc, self, bound)
    }
}

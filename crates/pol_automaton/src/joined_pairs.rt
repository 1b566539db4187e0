//! Two automata whose entries are joined.

ghost use Rattle.std.specs.Prelude.{◌≡◌, ◌<◌, ℕ, List, [], IsTrue, IfOk};
ghost use Rattle.basics.specs.Symbol.{is_symbol};
ghost use Rattle.pol_scan.specs.Alphabet.{Alphabet as Columns, least_of};
ghost use Rattle.pol_scan.specs.Words.{longer};
ghost use Rattle.pol_scan.specs.Table.{count};
ghost use Rattle.pol_automaton.specs.Automaton.{is_sure};
ghost use Rattle.pol_automaton.specs.Pairs.{state_after};
ghost use Rattle.pol_automaton.specs.Joining.{AreJoined, unless_sure};

use crate::decider::Decider;
use crate::pairs::Pair;
use pol_scan::{Alphabet, Column, Machine, StateNumber};
use std::alloc::AllocError;

// The states of the empty text.
fn start(first: &Decider, rest: &Decider) -> Pair
    ensures { (alphabet : Columns) → AreJoined alphabet first.now rest.now [] result.0 result.1 }
{
    (first.start(), rest.start())
}

// The state of the second automaton, which is its start once an entry of the first is sure.
fn step_rest(
    first: &Decider,
    rest: &Decider,
    reached: StateNumber,
    state: StateNumber,
    symbol: u8,
) -> StateNumber
    requires reached { reached < count first.now.table }
    requires state { state < count rest.now.table }
    requires symbol { IsTrue (is_symbol symbol) }
    ensures value { result
        ≡ unless_sure (is_sure first.now reached) (state_after rest.now state symbol) }
    ensures within { result < count rest.now.table }
{
    if first.is_sure(reached) {
        return rest.start();
    }
    rest.next(state, symbol)
}

// The states to which a pair and a symbol lead.
fn step(first: &Decider, rest: &Decider, pair: &Pair, symbol: u8) -> Pair
    requires first { pair.now.0 < count first.now.table }
    requires rest { pair.now.1 < count rest.now.table }
    requires symbol { IsTrue (is_symbol symbol) }
    ensures { (alphabet : Columns) (word : List ℕ) (column : ℕ) → symbol ≡ least_of alphabet column
        → AreJoined alphabet first.now rest.now word pair.now.0 pair.now.1
        → AreJoined alphabet first.now rest.now (longer word column) result.0 result.1 }
{
    let reached = first.next(pair.0, symbol);
    (reached, step_rest(first, rest, reached, pair.1, symbol))
}

/// Two automata, of which the second has the entries after those of the first.
#[derive(Drop)]
pub(crate) struct Joining<'a> {
    pub(crate) alphabet: Alphabet,
    pub(crate) first: &'a Decider,
    pub(crate) rest: &'a Decider,
}

impl<'a> Machine for Joining<'a> {
    ghost use Rattle.pol_automaton.specs.Joining.{joined, told_joined, joined_kept};
    ghost use Rattle.std.specs.Prelude.{refl};
    ghost use Rattle.std.proofs.Common.{◌∙◌};

    type State = Pair;

    ghost congruence = { λ m. joined m.alphabet m.first.now m.rest.now };

    ghost leads = { λ m word state.
        AreJoined m.alphabet m.first.now m.rest.now word state.0 state.1 };

    ghost grows = { λ a b. (a.alphabet ≡ b.alphabet) × (a.first.now ≡ b.first.now)
        × (a.rest.now ≡ b.rest.now) };

    fn width(&self) -> Column {
        self.alphabet.width()
    }

    fn start(&mut self) -> Result<Pair, AllocError> {
        Ok(start(self.first, self.rest))
    }

    fn step(&mut self, state: &Pair, column: Column) -> Result<Pair, AllocError> {
        let symbol = self.alphabet.least_of(column);
        Ok(step(self.first, self.rest, state, symbol))
    }

    ghost tells = { λ m u v s t. told_joined m.alphabet m.first.now m.rest.now u v s t };

    ghost keeps = { λ a b g. joined_kept a.alphabet b.alphabet a.first.now a.rest.now
        b.first.now b.rest.now g.0 g.1 g.2 };

    ghost reflexive = { λ m. (refl, refl, refl) };

    ghost transitive = { λ a b c p q. (p.0 ∙ q.0, p.1 ∙ q.1, p.2 ∙ q.2) };
}

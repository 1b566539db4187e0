//! Two automata that read one text, side by side.

ghost use Rattle.std.specs.Prelude.{◌≡◌, ◌<◌, ℕ, List, [], IsTrue, IfOk};
ghost use Rattle.basics.specs.Symbol.{is_symbol};
ghost use Rattle.pol_scan.specs.Alphabet.{Alphabet as Columns, least_of};
ghost use Rattle.pol_scan.specs.Words.{longer};
ghost use Rattle.pol_scan.specs.Table.{count};
ghost use Rattle.pol_automaton.specs.Pairs.{ArePair};

use crate::decider::Decider;
use crate::verdicts::{is_change, verdict_by};
use crate::way::Way;
use pol_names::Verdict;
use pol_scan::{Acceptor, Alphabet, Column, Machine, StateNumber};
use std::alloc::AllocError;

/// A state of each of two automata.
pub(crate) type Pair = (StateNumber, StateNumber);

// The states of the empty text.
fn start(first: &Decider, second: &Decider) -> Pair
    ensures { (alphabet : Columns) → ArePair alphabet first.now second.now [] result.0 result.1 }
{
    (first.start(), second.start())
}

// The states to which a pair and a symbol lead.
fn step(first: &Decider, second: &Decider, pair: &Pair, symbol: u8) -> Pair
    requires first { pair.now.0 < count first.now.table }
    requires second { pair.now.1 < count second.now.table }
    requires symbol { IsTrue (is_symbol symbol) }
    ensures { (alphabet : Columns) (word : List ℕ) (column : ℕ) → symbol ≡ least_of alphabet column
        → ArePair alphabet first.now second.now word pair.now.0 pair.now.1
        → ArePair alphabet first.now second.now (longer word column) result.0 result.1 }
{
    (first.next(pair.0, symbol), second.next(pair.1, symbol))
}

/// Two automata and verdicts on their entries, to be searched for a text whose decision changed.
#[derive(Drop)]
pub(crate) struct Comparing<'a> {
    pub(crate) alphabet: Alphabet,
    pub(crate) old: &'a Decider,
    pub(crate) old_verdicts: &'a [Verdict],
    pub(crate) new: &'a Decider,
    pub(crate) new_verdicts: &'a [Verdict],
    pub(crate) way: Way,
}

impl<'a> Machine for Comparing<'a> {
    ghost use Rattle.pol_automaton.specs.Pairs.{pairs, told_pairs, comparison_of, comparing_kept};
    ghost use Rattle.std.specs.Prelude.{refl};
    ghost use Rattle.std.proofs.Common.{◌∙◌};

    type State = Pair;

    ghost congruence = { λ m. pairs m.alphabet m.old.now m.new.now };

    ghost leads = { λ m word state. ArePair m.alphabet m.old.now m.new.now word state.0 state.1 };

    ghost grows = { λ a b. (a.alphabet ≡ b.alphabet)
        × (comparison_of a.old.now a.old_verdicts.now a.new.now a.new_verdicts.now a.way
        ≡ comparison_of b.old.now b.old_verdicts.now b.new.now b.new_verdicts.now b.way) };

    fn width(&self) -> Column {
        self.alphabet.width()
    }

    fn start(&mut self) -> Result<Pair, AllocError> {
        Ok(start(self.old, self.new))
    }

    fn step(&mut self, state: &Pair, column: Column) -> Result<Pair, AllocError> {
        let symbol = self.alphabet.least_of(column);
        Ok(step(self.old, self.new, state, symbol))
    }

    ghost tells = { λ m u v s t. told_pairs m.alphabet m.old.now m.new.now u v s t };

    ghost keeps = { λ a b g. comparing_kept a.alphabet b.alphabet
        (comparison_of a.old.now a.old_verdicts.now a.new.now a.new_verdicts.now a.way)
        (comparison_of b.old.now b.old_verdicts.now b.new.now b.new_verdicts.now b.way) g.0 g.1 };

    ghost reflexive = { λ m. (refl, refl) };

    ghost transitive = { λ a b c p q. (p.0 ∙ q.0, p.1 ∙ q.1) };
}

impl<'a> Acceptor for Comparing<'a> {
    ghost use Rattle.pol_scan.specs.Alphabet.{text_of};
    ghost use Rattle.pol_automaton.specs.Pairs.{comparison_of, changes, changes_same, changes_stay};

    ghost accepted = { λ m word. IsTrue (changes
        (comparison_of m.old.now m.old_verdicts.now m.new.now m.new_verdicts.now m.way)
        (text_of m.alphabet word)) };

    fn accepts(&self, state: &Pair) -> bool {
        let before = verdict_by(self.old_verdicts, self.old.first_match(state.0));
        let after = verdict_by(self.new_verdicts, self.new.first_match(state.1));
        is_change(self.way, before, after)
    }

    ghost respects = { λ m u v same h. changes_same
        (comparison_of m.old.now m.old_verdicts.now m.new.now m.new_verdicts.now m.way)
        (text_of m.alphabet u) (text_of m.alphabet v) same.0 same.1 h };

    ghost stays = { λ a b g word. changes_stay a.alphabet b.alphabet
        (comparison_of a.old.now a.old_verdicts.now a.new.now a.new_verdicts.now a.way)
        (comparison_of b.old.now b.old_verdicts.now b.new.now b.new_verdicts.now b.way)
        g.0 g.1 word };
}

//! Automata that decide by the first match.

ghost use Rattle.std.specs.Prelude.{◌≡◌, ◌<◌, ◌≤◌, ◌+◌, ℕ, List, [], IsTrue, min, IfOk, IfSome};
ghost use Rattle.std.specs.Prelude.{IfNone, OnOk, OnErr, IsErrOf};
ghost use Rattle.basics.specs.Symbol.{is_symbol};
ghost use Rattle.pol_pattern.specs.Matching.{MatchLaw};
ghost use Rattle.pol_scan.specs.Table.{count};
ghost use Rattle.pol_residual.specs.Residuals.{HasMoreResiduals, ExcludesLaw, IsResidualCount};
ghost use Rattle.pol_automaton.specs.Entries.{AreEntries};
ghost use Rattle.pol_automaton.specs.Decision.{IsFirstMatch, Decides, IsReachText, SameMatchLaw};
ghost use Rattle.pol_automaton.specs.Alike.{IsClassCount};

use crate::entries::Entries;
use crate::fault::DeciderFault;
use crate::meter::Meter;
use pol_pattern::Pattern;
use pol_scan::{Alphabet, Automaton, StateNumber, Table, scan};
use std::alloc::{AllocError, Global};
use std::marker::Model;

/// An automaton over the residuals of entries: for each text it tells the first entry whose pattern
/// holds it. It doesn't keep the patterns.
///
/// A state takes a row of cells, one for each column, and 34 bytes.
pub struct Decider {
    pub(crate) alphabet: Alphabet,
    pub(crate) table: Table,
    // by state
    pub(crate) firsts: Vec<Option<usize>>,
    // by state: whether an entry holds every text that goes on
    pub(crate) sures: Vec<bool>,
    pub(crate) entries: usize,
}

// By hand, so that a proof of an owner has one call at each exit, not a drop of each field.
impl Drop for Decider {
    fn drop(self) {
        let Decider {
            alphabet: _,
            table: _,
            firsts: _,
            sures: _,
            entries: _,
        } = self;
    }
}

impl Model for Decider {
    ghost use Rattle.pol_automaton.specs.Automaton.{Automaton as Deciding, IsWhole};

    ghost Value = { Deciding };

    ghost view = { λ d. record {
      alphabet = d.alphabet;
      table = d.table;
      firsts = d.firsts.items;
      sures = d.sures.items;
      entries = d.entries;
    } };

    ghost invariant = { λ d. IsWhole (record {
      alphabet = d.alphabet;
      table = d.table;
      firsts = d.firsts.items;
      sures = d.sures.items;
      entries = d.entries;
    }) };
}

impl Decider {
    ghost use Rattle.pol_automaton.specs.Automaton.{IsDecider, IsWhole, state_of, first_of};
    ghost use Rattle.pol_automaton.specs.Automaton.{is_sure};
    ghost use Rattle.pol_automaton.specs.Pairs.{state_after};
    ghost use Rattle.pol_automaton.specs.Reaching.{IsFirstState, NoState};

    /// The Decider of entries that were collected. It takes time by its states, its columns and the
    /// terms of a state.
    pub fn of(
        entries: Entries,
        limit: StateNumber,
        meter: &mut Meter,
    ) -> Result<Decider, DeciderFault>
        ensures decider { (sources : List (List ℕ)) → AreEntries entries sources
            → IfOk result (λ d. IsDecider d sources) }

        // Its states are all the residuals, and at most the limit.
        ensures few { IfOk result (λ d. count d.table ≤ limit) }

        // It is refused only where there are more residuals than the limit. It can't be both.
        ensures too_many { (sources : List (List ℕ)) → AreEntries entries sources
            → IsErrOf result DeciderFault.TooManyStates → HasMoreResiduals sources limit }
        ensures excludes { ExcludesLaw }

        // The meter rises by the states that were made, which is by the number of residuals.
        ensures counted { IfOk result
            (λ d. meter.new.total ≡ min (meter.old.total + count d.table) u128.MAX) }
        ensures exact { (sources : List (List ℕ)) (residuals : ℕ) → AreEntries entries sources
            → IsResidualCount sources residuals
            → OnOk result (meter.new.total ≡ min (meter.old.total + residuals) u128.MAX) }
        ensures not_counted { OnErr result (meter.new.total ≡ meter.old.total) }
    {
        let mut entries = entries;
        let count = entries.count();
        let Automaton { table, states } = scan(entries.alloc(), &mut entries, limit)?;
        let firsts = entries.firsts(states.as_slice())?;
        let sures = entries.sures(states.as_slice())?;
        meter.raise(table.states());
        Ok(Decider {
            alphabet: entries.alphabet(),
            table,
            firsts,
            sures,
            entries: count,
        })
    }

    /// The Decider of these patterns, in order.
    pub fn own(
        alloc: Global,
        patterns: &[Pattern],
        limit: StateNumber,
        meter: &mut Meter,
    ) -> Result<Decider, DeciderFault>
        ensures decider { IfOk result (λ d. IsDecider d patterns.now) }
        ensures few { IfOk result (λ d. count d.table ≤ limit) }
        ensures too_many { IsErrOf result DeciderFault.TooManyStates
            → HasMoreResiduals patterns.now limit }
        ensures excludes { ExcludesLaw }
        ensures counted { IfOk result
            (λ d. meter.new.total ≡ min (meter.old.total + count d.table) u128.MAX) }
        ensures exact { (residuals : ℕ) → IsResidualCount patterns.now residuals
            → OnOk result (meter.new.total ≡ min (meter.old.total + residuals) u128.MAX) }
        ensures not_counted { OnErr result (meter.new.total ≡ meter.old.total) }
    {
        let mut entries = Entries::new(alloc);
        for pattern in patterns {
            entries.add(pattern)?;
        }
        Decider::of(entries, limit, meter)
    }

    /// The first entry whose pattern holds the text. Three look-ups for each symbol up to where the
    /// rest of the text decides nothing any more, and no memory.
    pub fn decide(&self, text: &[u8]) -> Option<usize>
        ensures first { (entries : List (List ℕ)) → IsDecider self.now entries
            → IsFirstMatch entries text.now result }

        // What a pattern holds is what the test of definitions says.
        ensures law { MatchLaw }
    {
        let Some(state) = self.table.run_text(&self.alphabet, text) else {
            return None;
        };
        self.firsts[state as usize]
    }

    /// How many states there are: the number of residuals.
    pub fn states(&self) -> StateNumber
        ensures value { result ≡ count self.now.table }
        ensures residuals { (entries : List (List ℕ)) → IsDecider self.now entries
            → IsResidualCount entries result }

        // There is one such number.
        ensures only { (entries : List (List ℕ)) (count : ℕ) → IsDecider self.now entries
            → IsResidualCount entries count → result ≡ count }

        // A state is enough to decide whatever goes on.
        ensures law { SameMatchLaw }
    {
        self.table.states()
    }

    /// How many columns there are: the number of classes of alike symbols. A state's row has a cell
    /// for each.
    pub fn columns(&self) -> usize
        ensures value { result ≡ self.now.table.width }
        ensures classes { (entries : List (List ℕ)) → IsDecider self.now entries
            → IsClassCount entries result }

        // There is one such number.
        ensures only { (entries : List (List ℕ)) (count : ℕ) → IsDecider self.now entries
            → IsClassCount entries count → result ≡ count }
    {
        self.table.width() as usize
    }

    // The first state of which the entry is the first match.
    fn first_state(&self, entry: usize) -> Option<StateNumber>
        ensures some { IfSome result (λ state. IsFirstState self.now entry state) }
        ensures none { IfNone result (NoState self.now entry (count self.now.table)) }
        ensures whole { IsWhole self.now }
    {
        for state in 0..self.table.states() {
            if self.firsts[state as usize] == Some(entry) {
                return Some(state);
            }
        }
        None
    }

    /// The least text that an entry decides, counted from 0, or nothing if there is none. Linear in
    /// the states, and in the text.
    pub fn reach(&self, alloc: Global, entry: usize) -> Result<Option<Vec<u8>>, AllocError>
        ensures reached { (entries : List (List ℕ)) → IsDecider self.now entries
            → IfOk result (λ r. IfSome r (λ text. IsReachText entries entry text.items)) }
        ensures never { (entries : List (List ℕ)) → IsDecider self.now entries
            → IfOk result (λ r. IfNone r ((text : List ℕ) → ¬ (Decides entries entry text))) }
    {
        let Some(state) = self.first_state(entry) else {
            return Ok(None);
        };
        let word = self.table.word_of(alloc, state)?;
        Ok(Some(self.alphabet.text_of(word)))
    }

    // The state of the empty text.
    pub(crate) fn start(&self) -> StateNumber
        ensures value { result ≡ state_of self.now [] }
        ensures within { result < count self.now.table }
    {
        self.table.run(&[])
    }

    // The state to which a state and a symbol lead.
    pub(crate) fn next(&self, state: StateNumber, symbol: u8) -> StateNumber
        requires state { state < count self.now.table }
        requires symbol { IsTrue (is_symbol symbol) }
        ensures value { result ≡ state_after self.now state symbol }
        ensures within { result < count self.now.table }
    {
        self.table.next(state, self.alphabet.column_of(symbol))
    }

    // The first match of the texts that lead to a state.
    pub(crate) fn first_match(&self, state: StateNumber) -> Option<usize>
        requires { state < count self.now.table }
        ensures value { result ≡ first_of self.now state }
        ensures below { IfSome result (λ i. i < self.now.entries) }
    {
        self.firsts[state as usize]
    }

    // Whether an entry is sure by the texts that lead to a state.
    pub(crate) fn is_sure(&self, state: StateNumber) -> bool
        requires { state < count self.now.table }
        ensures { result ≡ is_sure self.now state }
    {
        self.sures[state as usize]
    }

    // How texts are read.
    pub(crate) fn alphabet(&self) -> Alphabet
        ensures { result ≡ self.now.alphabet }
    {
        self.alphabet
    }

    // How many entries there are.
    pub(crate) fn entries(&self) -> usize
        ensures value { result ≡ self.now.entries }
        ensures whole { IsWhole self.now }
    {
        self.entries
    }

    // How many states there are.
    pub(crate) fn size(&self) -> usize
        ensures value { result ≡ count self.now.table }
        ensures few { result < 65536 }
        ensures whole { IsWhole self.now }
    {
        self.table.states() as usize
    }
}

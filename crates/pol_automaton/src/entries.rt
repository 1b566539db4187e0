//! Entries of which an automaton is to be made.

ghost use Rattle.std.specs.Prelude.{◌≡◌, ◌↔◌, ◌++◌, ◌∷◌, [], ℕ, List, map, All, IsTrue, IfOk, OnOk};
ghost use Rattle.std.specs.Prelude.{OnErr};
ghost use Rattle.std.specs.List.{AllZip};
ghost use Rattle.pol_automaton.specs.Entries.{AreEntries, AreWhole};
ghost use Rattle.pol_residual.specs.Residuals.{any_text};
ghost use Rattle.pol_automaton.specs.Scanning.{item_of, HasTerm, AreResiduals};
ghost use Rattle.pol_automaton.specs.Matching.{IsFirstAccepted};

use crate::cutting::{cut, is_sure};
use crate::dividing::divide_by_terms;
use crate::entry_term::EntryTerm;
use crate::matching::first_accepted;
use crate::stepping::{push_each, step};
use pol_deriv::{Number, Terms};
use pol_pattern::Pattern;
use pol_scan::{Alphabet, Column, Machine};
use std::alloc::{AllocError, Global};
use std::marker::Model;

/// Entries, each a pattern, of which a [`Decider`](crate::Decider) is to be made. Patterns are read
/// where they lie: what is kept of one is the terms of its flat form.
pub struct Entries {
    alloc: Global,
    alphabet: Alphabet,
    terms: Terms,
    // the residual of each entry by the empty text
    start: Vec<EntryTerm>,
    count: usize,
}

// By hand, so that a proof of an owner has one call at each exit, not a drop of each field.
impl Drop for Entries {
    fn drop(self) {
        let Entries {
            alloc: _,
            alphabet: _,
            terms: _,
            start: _,
            count: _,
        } = self;
    }
}

impl Model for Entries {
    ghost use Rattle.pol_automaton.specs.Entries.{Entries as Collected, entries_code, AreWhole};

    ghost Value = { Collected };

    ghost coded = { entries_code };

    ghost view = { λ e. record {
      alphabet = e.alphabet;
      terms = e.terms;
      start = e.start.items;
      count = e.count;
    } };

    ghost invariant = { λ e. AreWhole (record {
      alphabet = e.alphabet;
      terms = e.terms;
      start = e.start.items;
      count = e.count;
    }) };
}

// Adds the terms of an entry, or none of them.
fn push_all(
    alloc: Global,
    items: &mut Vec<EntryTerm>,
    entry: usize,
    numbers: &[Number],
) -> Result<(), AllocError>
    ensures ok { OnOk result
        (items.new.items ≡ items.old.items ++ map (item_of entry) numbers.now) }
    ensures err { OnErr result (items.new.items ≡ items.old.items) }
{
    let mut added = Vec::new(alloc);
    push_each(&mut added, entry, numbers)?;
    items.append(&mut added)?;
    Ok(())
}

impl Entries {
    /// No entries. Takes no memory.
    pub fn new(alloc: Global) -> Entries
        ensures { AreEntries result [] }
    {
        Entries {
            alloc,
            alphabet: Alphabet::undivided(),
            terms: Terms::new(alloc),
            start: Vec::new(alloc),
            count: 0,
        }
    }

    /// Adds an entry, the last. Linear in the pattern's size: a look at each symbol for each of its
    /// classes.
    pub fn add(&mut self, pattern: &Pattern) -> Result<(), AllocError>
        ensures ok { OnOk result ((entries : List (List ℕ)) → AreEntries self.old entries
            → AreEntries self.new (entries ++ pattern.now ∷ [])) }

        // Where memory ran out they are the entries that they were.
        ensures err { OnErr result ((entries : List (List ℕ)) → AreEntries self.old entries
            → AreEntries self.new entries) }
    {
        if self.count == usize::MAX {
            return Err(AllocError);
        }
        let set = self.terms.start(pattern)?;
        push_all(self.alloc, &mut self.start, self.count, set.numbers())?;
        let alphabet = divide_by_terms(self.alphabet, pattern.terms());
        self.alphabet = alphabet;
        self.count += 1;
        Ok(())
    }

    /// Where the memory comes from.
    pub(crate) fn alloc(&self) -> Global {
        self.alloc
    }

    /// How texts are read.
    pub(crate) fn alphabet(&self) -> Alphabet
        ensures { result ≡ self.now.alphabet }
    {
        self.alphabet
    }

    /// How many entries there are.
    pub(crate) fn count(&self) -> usize
        ensures value { result ≡ self.now.count }
        ensures whole { AreWhole self.now }
    {
        self.count
    }

    /// The first entry that each of the residuals accepts.
    pub(crate) fn firsts(&self, states: &[Vec<EntryTerm>]) -> Result<Vec<Option<usize>>, AllocError>
        requires { All (λ state. AreResiduals self.now.terms state.items) states.now }
        ensures { IfOk result (λ firsts. AllZip
            (λ state first. IsFirstAccepted self.now.terms state.items first)
            states.now firsts.items) }
    {
        let mut firsts = Vec::new(self.alloc);
        for state in states {
            firsts.push(first_accepted(&self.terms, state))?;
        }
        Ok(firsts)
    }

    /// Of each of the residuals, whether an entry is sure.
    pub(crate) fn sures(&self, states: &[Vec<EntryTerm>]) -> Result<Vec<bool>, AllocError>
        requires { All (λ state. AreResiduals self.now.terms state.items) states.now }
        ensures { IfOk result (λ sures. AllZip (λ state sure. IsTrue sure
            ↔ ((entry : ℕ) × HasTerm self.now.terms state.items entry any_text))
            states.now sures.items) }
    {
        let mut sures = Vec::new(self.alloc);
        for state in states {
            sures.push(is_sure(&self.terms, state))?;
        }
        Ok(sures)
    }
}

impl Machine for Entries {
    ghost use Rattle.pol_automaton.specs.Entries.{GrowsTo};
    ghost use Rattle.pol_automaton.specs.Scanning.{residuals, LeadsTo};
    ghost use Rattle.pol_automaton.specs.Telling.{told_apart, kept, grows_itself, grows_on};

    type State = Vec<EntryTerm>;

    ghost congruence = { λ e. residuals e.alphabet e.terms e.start };

    ghost leads = { λ e word state. LeadsTo e.alphabet e.terms e.start word state.items };

    ghost grows = { GrowsTo };

    fn width(&self) -> Column {
        self.alphabet.width()
    }

    fn start(&mut self) -> Result<Vec<EntryTerm>, AllocError> {
        let mut start = Vec::from_slice(self.alloc, &self.start)?;
        cut(&self.terms, &mut start);
        Ok(start)
    }

    fn step(
        &mut self,
        state: &Vec<EntryTerm>,
        column: Column,
    ) -> Result<Vec<EntryTerm>, AllocError> {
        let symbol = self.alphabet.least_of(column);
        step(self.alloc, &mut self.terms, state, symbol)
    }

    ghost tells = { λ e u v s t. told_apart e.alphabet e.terms e.start u v s.items t.items };

    ghost keeps = { kept };

    ghost reflexive = { grows_itself };

    ghost transitive = { grows_on };
}

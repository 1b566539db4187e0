//! Tables of automata.

ghost use Rattle.std.specs.Prelude.{◌≡◌, ◌↔◌, ◌<◌, ◌≤◌, ◌+◌, ◌*◌, ℕ, length, fold, false};
ghost use Rattle.std.specs.Prelude.{slice_index, slice_index_or, IsTrue, IsSome, IfSome, IfOk};
ghost use Rattle.basics.specs.Symbol.{is_text as text_test};
ghost use Rattle.pol_scan.specs.Alphabet.{word_of as read_as};
ghost use Rattle.pol_scan.specs.Words.{IsWord};
ghost use Rattle.pol_scan.specs.Table.{count, next, walk, word_of, IsWhole};

use crate::alphabet::Alphabet;
use crate::machine::Column;
use crate::words::Words;
use basics::is_text;
use std::alloc::{AllocError, Global};
use std::marker::Model;

/// The number of a state, from 0 on.
pub type StateNumber = u16;

// How many states there may be.
const MOST_STATES: usize = StateNumber::MAX as usize;

/// The table of a deterministic automaton without accepting states: for each state the word along
/// which it was found, and its row, which has for each column the state to which that leads. State
/// 0 is the first.
///
/// A state takes its row of cells, and 17 bytes.
pub struct Table {
    pub(crate) width: Column,
    // row by row
    cells: Vec<StateNumber>,
    words: Words,
    // by state: whether no column leads out of it
    traps: Vec<bool>,
}

// By hand, so that a proof of an owner has one call at each exit, not a drop of each field.
impl Drop for Table {
    fn drop(self) {
        let Table {
            width: _,
            cells: _,
            words: _,
            traps: _,
        } = self;
    }
}

impl Model for Table {
    ghost use Rattle.pol_scan.specs.declared.table.TheConstants.{MOST_STATES};
    ghost use Rattle.pol_scan.specs.Table.{Table as Rows, IsWhole, MarkTraps};

    ghost Value = { Rows };

    ghost view = { λ t. record { width = t.width; cells = t.cells.items; words = t.words } };

    ghost invariant = { λ t. IsWhole MOST_STATES
        (record { width = t.width; cells = t.cells.items; words = t.words })
        × MarkTraps (record { width = t.width; cells = t.cells.items; words = t.words })
        t.traps.items };
}

// Whether no column leads out of a state.
fn is_trap(width: Column, cells: &[StateNumber], state: StateNumber) -> bool
    requires { (state + 1) * width ≤ length cells.now }
    ensures { IsTrue result ↔ ((column : ℕ) → column < width
        → slice_index cells.now (state * width + column) ≡ state) }
{
    for column in 0..width {
        if cells[state as usize * width as usize + column as usize] != state {
            return false;
        }
    }
    true
}

// For each state whether no column leads out of it. Mostly a look or two at its row.
fn traps_of(
    alloc: Global,
    width: Column,
    cells: &[StateNumber],
    states: usize,
) -> Result<Vec<bool>, AllocError>
    requires few { states ≤ MOST_STATES }
    requires size { length cells.now ≡ states * width }
    ensures each { IfOk result (λ traps. length traps.items ≡ states) }
    ensures right { IfOk result (λ traps. (state : ℕ) → state < states
        → IsTrue (slice_index_or traps.items state false) ↔ ((column : ℕ) → column < width
        → slice_index cells.now (state * width + column) ≡ state)) }
{
    let mut traps = Vec::new(alloc);
    for state in 0..states {
        traps.push(is_trap(width, cells, state as StateNumber))?;
    }
    Ok(traps)
}

impl Table {
    ghost use Rattle.pol_scan.specs.declared.table.TheConstants.{MOST_STATES};

    /// The table of these rows and words. Linear in the cells.
    pub(crate) fn new(
        alloc: Global,
        width: Column,
        cells: Vec<StateNumber>,
        words: Words,
    ) -> Result<Table, AllocError>
        requires { IsWhole MOST_STATES
            (record { width = width; cells = cells.items; words = words }) }
        ensures { IfOk result
            (λ table. table ≡ record { width = width; cells = cells.items; words = words }) }
    {
        let traps = traps_of(alloc, width, &cells, words.len())?;
        Ok(Table {
            width,
            cells,
            words,
            traps,
        })
    }

    /// How many states there are.
    pub fn states(&self) -> StateNumber
        ensures many { result ≡ count self.now }
        ensures some { 0 < result }
    {
        self.words.len() as StateNumber
    }

    /// How many columns there are.
    pub fn width(&self) -> Column
        ensures { result ≡ self.now.width }
    {
        self.width
    }

    /// The state to which a state and a column lead. One look-up.
    pub fn next(&self, state: StateNumber, column: Column) -> StateNumber
        requires state { state < count self.now }
        requires column { column < self.now.width }
        ensures value { result ≡ next self.now state column }
        ensures within { result < count self.now }
    {
        self.cells[state as usize * self.width as usize + column as usize]
    }

    /// The state to which a word leads. One look-up for each column, and no memory.
    pub fn run(&self, word: &[Column]) -> StateNumber
        requires { IsWord self.now.width word.now }
        ensures value { result ≡ walk self.now word.now }
        ensures within { result < count self.now }
    {
        let width = self.width as usize;
        let mut state = 0;
        for column in word {
            state = self.cells[state as usize * width + *column as usize];
        }
        state
    }

    // The state to which symbols lead.
    fn run_symbols(&self, alphabet: &Alphabet, text: &[u8]) -> StateNumber
        requires alphabet { alphabet.now.width ≡ self.now.width }
        requires text { IsTrue (text_test text.now) }
        ensures value { result ≡ walk self.now (read_as alphabet.now text.now) }
        ensures within { result < count self.now }
    {
        let traps = &self.traps;
        let mut state = 0;
        'symbols: for symbol in text {
            state = self.next(state, alphabet.column_of(*symbol));
            if traps[state as usize] {
                return state;
            }
        }
        state
    }

    /// The state to which a text leads, or nothing if a byte is no symbol. One look at each byte,
    /// three look-ups for each symbol up to a state that no symbol leads out of, and no memory.
    pub fn run_text(&self, alphabet: &Alphabet, text: &[u8]) -> Option<StateNumber>
        requires { alphabet.now.width ≡ self.now.width }
        ensures found { IsSome result ↔ IsTrue (text_test text.now) }
        ensures value { IfSome result (λ state.
            state ≡ walk self.now (read_as alphabet.now text.now)) }
        ensures within { IfSome result (λ state. state < count self.now) }
    {
        if !is_text(text) {
            return None;
        }
        Some(self.run_symbols(alphabet, text))
    }

    /// The word that is kept for a state. Linear in its length.
    pub fn word_of(&self, alloc: Global, state: StateNumber) -> Result<Vec<Column>, AllocError>
        requires { state < count self.now }
        ensures { IfOk result (λ word. word.items ≡ word_of self.now state) }
    {
        self.words.word_of(alloc, state as usize)
    }
}

//! Which column each symbol has.

ghost use Rattle.std.specs.Prelude.{◌≡◌, ◌≢◌, ◌<◌, ◌≤◌, ◌+◌, ◌*◌, ◌-◌, ℕ, Bool, List, length};
ghost use Rattle.std.specs.Prelude.{IsTrue, map, slice_index};
ghost use Rattle.basics.specs.Symbol.{is_symbol, is_text};
ghost use Rattle.basics.specs.TextOrder.{IsBefore, IsLeast};
ghost use Rattle.pol_scan.specs.Words.{IsWord, IsWordThat};
ghost use Rattle.pol_scan.specs.Alphabet.{column_of as column_at, least_of as least_at, word_of};
ghost use Rattle.pol_scan.specs.Alphabet.{text_of, IsTextThat, IsAlphabet};
ghost use Rattle.pol_scan.specs.Alphabet.{SameColumn, HasClasses, label_of};

use crate::machine::Column;
use std::marker::Model;

/// How many symbols there are.
pub const SYMBOLS: usize = 95;

// the first symbol
const FIRST: u8 = b' ';

/// Which column each symbol has, and which is a column's least symbol. Columns are numbered in the
/// order of their least symbols.
#[derive(Clone, Copy)]
pub struct Alphabet {
    width: Column,
    // from the first symbol on
    columns: [Column; SYMBOLS],
    least: [u8; SYMBOLS],
}

impl Model for Alphabet {
    ghost use Rattle.pol_scan.specs.Alphabet.{Alphabet as Columns, IsAlphabet as HasColumns};

    ghost Value = { Columns };

    ghost view = { λ a. record { width = a.width; columns = a.columns; least = a.least } };

    ghost invariant = { λ a. HasColumns
        (record { width = a.width; columns = a.columns; least = a.least }) };

    ghost inverse = { λ a. record { width = a.width; columns = a.columns; least = a.least } };
}

// Replaces each column by its least symbol.
fn spell(least: &[u8], word: &mut [u8])
    requires { IsWord (length least.now) word.old }
    ensures { word.new ≡ map (slice_index least.now) word.old }
{
    for place in word.iter_mut() {
        *place = least[*place as usize];
    }
}

// The place of a key among the first so many, or after them.
fn place_of(keys: &[u16; SYMBOLS], many: usize, key: u16) -> usize
    requires { many ≤ SYMBOLS }
    ensures within { result ≤ many }
    ensures others { (k : ℕ) → k < result → slice_index keys.now k ≢ key }
    ensures found { result < many → slice_index keys.now result ≡ key }
{
    for place in 0..many {
        if keys[place] == key {
            return place;
        }
    }
    many
}

// A key for each symbol, by its column and its label.
fn keys_of(columns: &[Column; SYMBOLS], labels: &[u8; SYMBOLS]) -> [u16; SYMBOLS]
    ensures { (k : ℕ) → k < SYMBOLS
        → slice_index result k ≡ slice_index columns.now k * 256 + slice_index labels.now k }
{
    let mut keys = [0; SYMBOLS];
    for place in 0..SYMBOLS {
        keys[place] = u16::from(columns[place]) * 256 + u16::from(labels[place]);
    }
    keys
}

impl Alphabet {
    /// All symbols have one column.
    pub fn undivided() -> Alphabet
        ensures classes { HasClasses result (λ a b. Unit {0}) }
        ensures alphabet { IsAlphabet result }
    {
        Alphabet::of_keys(&[0; SYMBOLS])
    }

    // Two symbols have one column exactly if they have one key.
    fn of_keys(keys: &[u16; SYMBOLS]) -> Alphabet
        ensures classes { HasClasses result (λ a b. label_of keys.now a ≡ label_of keys.now b) }
        ensures alphabet { IsAlphabet result }
    {
        let mut width = 0;
        let mut columns = [0; SYMBOLS];
        let mut least = [0; SYMBOLS];
        // of each column so far
        let mut firsts = [0; SYMBOLS];
        for place in 0..SYMBOLS {
            let column = place_of(&firsts, width, keys[place]);
            columns[place] = column as Column;
            if column == width {
                firsts[width] = keys[place];
                least[width] = FIRST + place as u8;
                width += 1;
            }
        }
        Alphabet {
            width: width as Column,
            columns,
            least,
        }
    }

    // Whether symbols of one column always have one label.
    fn tells(&self, labels: &[u8; SYMBOLS]) -> bool
        ensures { IsTrue result → (a b : ℕ) → IsTrue (is_symbol a) → IsTrue (is_symbol b)
            → SameColumn self.now a b → label_of labels.now a ≡ label_of labels.now b }
    {
        for place in 0..SYMBOLS {
            let least = self.least[self.columns[place] as usize];
            if labels[place] != labels[(least - FIRST) as usize] {
                return false;
            }
        }
        true
    }

    /// The columns divided by labels, one for each symbol from the space on: two symbols have one
    /// column exactly if they had one before and have one label.
    ///
    /// One look at each symbol where the columns tell the labels already. Takes no memory.
    pub fn divide(&self, labels: &[u8; SYMBOLS]) -> Alphabet
        ensures classes { HasClasses result (λ a b. SameColumn self.now a b
            × (label_of labels.now a ≡ label_of labels.now b)) }
        ensures alphabet { IsAlphabet result }
    {
        if self.tells(labels) {
            return *self;
        }
        Alphabet::of_keys(&keys_of(&self.columns, labels))
    }

    /// The columns of two alphabets divided by one another: two symbols have one column exactly if
    /// they have one in both. Takes no memory.
    pub fn join(&self, other: &Alphabet) -> Alphabet
        ensures classes { HasClasses result
            (λ a b. SameColumn self.now a b × SameColumn other.now a b) }
        ensures alphabet { IsAlphabet result }
    {
        self.divide(&other.columns)
    }

    /// How many columns there are.
    pub fn width(&self) -> Column
        ensures value { result ≡ self.now.width }
        ensures alphabet { IsAlphabet self.now }
    {
        self.width
    }

    /// The column of a symbol.
    pub fn column_of(&self, symbol: u8) -> Column
        requires { IsTrue (is_symbol symbol) }
        ensures value { result ≡ column_at self.now symbol }
        ensures within { result < self.now.width }
        ensures least { least_at self.now result ≤ symbol }
        ensures alphabet { IsAlphabet self.now }
    {
        self.columns[symbol as usize - FIRST as usize]
    }

    /// The least symbol of a column.
    pub fn least_of(&self, column: Column) -> u8
        requires { column < self.now.width }
        ensures value { result ≡ least_at self.now column }
        ensures symbol { IsTrue (is_symbol result) }
        ensures own { column_at self.now result ≡ column }
    {
        self.least[column as usize]
    }

    /// The text that spells a word by least symbols, in the same memory: of all texts that are read
    /// as this word it is the least.
    pub fn text_of(&self, mut word: Vec<Column>) -> Vec<u8>
        requires { IsWord self.now.width word.items }
        ensures value { result.items ≡ text_of self.now word.items }
        ensures text { IsTrue (is_text result.items) }
        ensures word { word_of self.now result.items ≡ word.items }

        // Texts stand in the order of the words that they are read as, and words in that of their
        // texts.
        ensures order { (text : List ℕ) → IsTrue (is_text text) → IsBefore text result.items
            → IsBefore (word_of self.now text) word.items }
        ensures order_of_words { (other : List ℕ) → IsBefore other word.items
            → IsBefore (text_of self.now other) result.items }

        // So the least word that passes a test makes the least text that is read as such a word.
        ensures least { (test : List ℕ → Bool)
            → IsLeast (IsWordThat self.now.width (λ word. IsTrue (test word))) word.items
            → IsLeast (IsTextThat (λ text. IsTrue (test (word_of self.now text)))) result.items }
    {
        spell(&self.least, &mut word);
        word
    }
}

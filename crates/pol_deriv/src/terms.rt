//! Terms under numbers, and their derivatives.

ghost use Rattle.std.specs.Prelude.{◌≡◌, ◌↔◌, ◌<◌, ◌++◌, ◌∷◌, [], ℕ, List, length, IsTrue, IfOk};
ghost use Rattle.std.specs.Borrow.{sem};
ghost use Rattle.pol_pattern.specs.Flat as flat;
ghost use Rattle.pol_pattern.specs.Matching.{MatchLaw};
ghost use Rattle.pol_pattern.specs.Sets.{InTerm, InTerms};
ghost use Rattle.pol_pattern.specs.Spelling.{Spells};
ghost use Rattle.pol_residual.specs.Derivative.{Derivatives, Residual};
ghost use Rattle.pol_residual.specs.Derivative.{DerivativeLaw, ResidualLaw, FirstResidual};
ghost use Rattle.pol_residual.specs.Derivative.{NextResidual};
ghost use Rattle.pol_residual.specs.Residuals.{any_text, SureLaw};
ghost use Rattle.pol_deriv.specs.Table.{Means, Grows, IsSetOf, HasTerm, AreNumbers};

use crate::node::Number;
use crate::rows::Rows;
use crate::table::Table;
use crate::term_set::TermSet;
use basics::is_symbol;
use pol_pattern::Pattern;
use std::alloc::{AllocError, Global};
use std::marker::Model;

/// Terms, each once. A contract sees the list of them; the number of a term is its place there.
pub struct Terms {
    table: Table,
    rows: Rows,
}

// By hand, so that a proof of an owner has one call at each exit, not a drop of each field.
impl Drop for Terms {
    fn drop(self) {
        let Terms { table: _, rows: _ } = self;
    }
}

impl Model for Terms {
    ghost use Rattle.std.specs.Prelude.{List};
    ghost use Rattle.std.specs.Coded.{coded_list};
    ghost use Rattle.pol_pattern.specs.Flat.{Term};
    ghost use Rattle.pol_deriv.specs.TermCode.{term_code};

    ghost Value = { List Term };

    ghost coded = { coded_list term_code };

    ghost use Rattle.pol_deriv.specs.Table.{IsDistinct};
    ghost use Rattle.pol_deriv.specs.Rows.{AreRows};

    ghost view = { λ terms. terms.table };

    ghost invariant = { λ terms. record {
      distinct : IsDistinct terms.table;
      rows : AreRows terms.table terms.rows;
    } };
}

impl Terms {
    ghost use Rattle.pol_deriv.specs.Lending.{LendsDerivatives};

    /// No terms.
    pub fn new(alloc: Global) -> Terms
        ensures { result ≡ [] }
    {
        Terms {
            table: Table::new(alloc),
            rows: Rows::new(alloc),
        }
    }

    /// The residual of a pattern by the empty text.
    pub fn start(&mut self, pattern: &Pattern) -> Result<TermSet, AllocError>
        ensures grows { Grows self.old self.new }
        ensures residual { IfOk result (λ set. (parsed : flat.Terms) → Spells pattern.now parsed
            → IsSetOf self.new set (Residual parsed [])) }

        // What is read is spelled so.
        ensures spelled { (parsed : flat.Terms) × Spells pattern.now parsed }
        ensures law { FirstResidual }

        // What a pattern holds is told by its residuals.
        ensures holds { ResidualLaw }

        // That is what the test of definitions says, and a pattern holds texts alone.
        ensures matching { MatchLaw }
        ensures numbers { IfOk result (λ set. AreNumbers self.new set) }
    {
        let numbers = self.table.add_each(pattern.terms())?;
        Ok(TermSet::new(numbers))
    }

    /// The derivatives of a term by a symbol; there are none by a byte that is no symbol. The first
    /// time that a term is asked about, its derivatives by all symbols are worked out, in time by
    /// its length, its depth and the number of pairs of a symbol and a derivative; later it takes
    /// constant time.
    pub fn derivatives(&mut self, number: Number, symbol: u8) -> Result<&[Number], AllocError>
        requires { number < length self.old }
        ensures* lends { sem 𝓛 (LendsDerivatives self.entry number symbol result) }
    {
        let place = self.rows.row(&mut self.table, number)?;
        if !is_symbol(symbol) {
            return Ok(&[]);
        }
        Ok(self.rows.list(place, usize::from(symbol - b' ')))
    }

    /// All derivatives of the terms of a set by a symbol. Takes the time to ask for them, and to
    /// sort them.
    pub fn step(&mut self, set: &TermSet, symbol: u8) -> Result<TermSet, AllocError>
        requires { AreNumbers self.old set.now }
        ensures grows { Grows self.old self.new }
        ensures exact { let stepped = Derivatives symbol (HasTerm self.old set.now) in
            IfOk result (λ next. IsSetOf self.new next stepped) }

        // So a residual becomes that by one symbol more.
        ensures residual { IfOk result (λ next. (parsed : flat.Terms) (text : List ℕ)
            → IsSetOf self.old set.now (Residual parsed text)
            → IsSetOf self.new next (Residual parsed (text ++ symbol ∷ []))) }
        ensures law { NextResidual }
        ensures numbers { IfOk result (λ next. AreNumbers self.new next) }
    {
        let mut found = Vec::new(self.table.alloc());
        for number in set.numbers() {
            found.extend_from_slice(self.derivatives(*number, symbol)?)?;
        }
        Ok(TermSet::new(found))
    }

    /// Whether a term of the set holds the empty text. Takes no memory.
    pub fn accepts(&self, set: &TermSet) -> bool
        requires { AreNumbers self.now set.now }
        ensures exact { IsTrue result
            ↔ ((term : flat.Term) × HasTerm self.now set.now term × InTerm term []) }

        // So the residual by a text accepts exactly if the pattern holds the text.
        ensures residual { (parsed : flat.Terms) (text : List ℕ)
            → IsSetOf self.now set.now (Residual parsed text)
            → IsTrue result ↔ InTerms parsed text }

        ensures law { ResidualLaw }
    {
        for number in set.numbers() {
            if self.table.holds_empty(*number) {
                return true;
            }
        }
        false
    }

    /// Whether a term holds the empty text. Takes constant time.
    pub fn holds_empty(&self, number: Number) -> bool
        requires { number < length self.now }
        ensures exact { (term : flat.Term) → Means self.now number term
            → IsTrue result ↔ InTerm term [] }

        // With derivatives it tells which texts a term holds.
        ensures law { DerivativeLaw }
    {
        self.table.holds_empty(number)
    }

    /// Whether a term is `.*`, which holds every text, and nothing after it. Takes constant time.
    pub fn is_any_text(&self, number: Number) -> bool
        requires { number < length self.now }
        ensures exact { (term : flat.Term) → Means self.now number term
            → IsTrue result ↔ (term ≡ any_text) }

        // An entry whose residual has it holds every text that goes on.
        ensures law { SureLaw }
    {
        self.table.is_any_text(number)
    }
}

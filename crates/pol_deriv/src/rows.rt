//! What was worked out of terms: for each symbol the derivatives by it.

ghost use Rattle.std.specs.Prelude.{◌≡◌, ◌==◌, ◌+◌, ◌<◌, ℕ, List, [], length, slice_get};
ghost use Rattle.std.specs.Prelude.{Some, if◌then◌else◌, IfOk, OnOk, OnErr};
ghost use Rattle.pol_deriv.specs.Rows.{Rows as Remembered, IsRow, AreRows, place_of};
ghost use Rattle.pol_deriv.specs.Nodes.{term_at};
ghost use Rattle.pol_deriv.specs.Forms.{reached, IsRowOf};
ghost use Rattle.pol_deriv.specs.Table.{IsDistinct, Grows};

use crate::linear::Monomial;
use crate::lists::Lists;
use crate::node::Number;
use crate::table::Table;
use crate::term_set::TermSet;
use std::alloc::{AllocError, Global};
use std::marker::Model;

/// For each term that was asked about, the derivatives by each symbol.
pub(crate) struct Rows {
    // for each term where its row begins among the lists
    places: Vec<Option<usize>>,
    lists: Lists,
}

// By hand, so that a proof of an owner has one call at each exit, not a drop of each field.
impl Drop for Rows {
    fn drop(self) {
        let Rows {
            places: _,
            lists: _,
        } = self;
    }
}

impl Model for Rows {
    ghost use Rattle.pol_deriv.specs.Rows.{Rows as Remembered};

    ghost Value = { Remembered };

    ghost view = { λ rows. record { places = rows.places.items; lists = rows.lists } };
}

/// The terms that the symbol leads to.
fn successors(alloc: Global, form: &[Monomial], symbol: u8) -> Result<Vec<Number>, AllocError>
    ensures { IfOk result (λ numbers. numbers.items ≡ reached symbol form.now) }
{
    let mut numbers = Vec::new(alloc);
    for monomial in form {
        if monomial.class.holds(symbol) {
            numbers.push(monomial.next)?;
        }
    }
    Ok(numbers)
}

/// Notes where the row of a term begins.
fn note(places: &mut Vec<Option<usize>>, number: Number, place: usize) -> Result<(), AllocError>
    ensures ok { OnOk result ((n : ℕ) → place_of places.new.items n
        ≡ (if n == number then Some place else place_of places.old.items n)) }
    ensures err { OnErr result
        ((n : ℕ) → place_of places.new.items n ≡ place_of places.old.items n) }
{
    let number = number as usize;
    'places: while places.len() <= number {
        places.push(None)?;
    }
    places[number] = Some(place);
    Ok(())
}

/// Adds for each symbol the terms that it leads to. Answers where the first of these lists stands.
fn push_row(alloc: Global, lists: &mut Lists, form: &[Monomial]) -> Result<usize, AllocError>
    ensures kept { (k : ℕ) (list : List ℕ) → slice_get lists.old k ≡ Some list
        → slice_get lists.new k ≡ Some list }
    ensures row { IfOk result (λ place. IsRowOf form.now lists.new place 95) }
{
    let place = lists.len();
    'symbols: for symbol in b' '..=b'~' {
        let set = TermSet::new(successors(alloc, form, symbol)?);
        lists.push(set.numbers())?;
    }
    Ok(place)
}

/// Adds for each symbol the derivatives of a term by it. Answers where the first of these lists
/// stands.
fn push_derivatives(
    lists: &mut Lists,
    table: &mut Table,
    number: Number,
) -> Result<usize, AllocError>
    requires { number < length table.old }
    ensures grows { Grows table.old table.new }
    ensures kept { (k : ℕ) (list : List ℕ) → slice_get lists.old k ≡ Some list
        → slice_get lists.new k ≡ Some list }
    ensures row { IfOk result
        (λ place. IsRow table.new lists.new place (term_at table.old number)) }
{
    let after = table.empty()?;
    let mut form = Vec::new(table.alloc());
    table.linear(number, after, &mut form)?;
    push_row(table.alloc(), lists, &form)
}

impl Rows {
    /// Nothing was worked out yet.
    pub(crate) fn new(alloc: Global) -> Rows
        ensures { result ≡ record { places = []; lists = [] } }
    {
        Rows {
            places: Vec::new(alloc),
            lists: Lists::new(alloc),
        }
    }

    /// Where the row of a term begins, if it was worked out.
    fn place(&self, number: Number) -> Option<usize>
        ensures { result ≡ place_of self.now.places number }
    {
        self.places.get(number as usize).copied().flatten()
    }

    /// Where the row of a term begins. It is worked out once.
    pub(crate) fn row(&mut self, table: &mut Table, number: Number) -> Result<usize, AllocError>
        requires number { number < length table.old }
        requires distinct { IsDistinct table.old }
        requires rows { AreRows table.old self.old }
        ensures grows { Grows table.old table.new }
        ensures rows { AreRows table.new self.new }
        ensures row { IfOk result
            (λ place. IsRow table.new self.new.lists place (term_at table.old number)) }
    {
        if let Some(place) = self.place(number) {
            return Ok(place);
        }
        let place = push_derivatives(&mut self.lists, table, number)?;
        note(&mut self.places, number, place)?;
        Ok(place)
    }

    /// The list so many places after the beginning of a row.
    pub(crate) fn list(&self, place: usize, column: usize) -> &[Number]
        requires { place + column < length self.now.lists }
        ensures { slice_get self.now.lists (place + column) ≡ Some result.now }
    {
        self.lists.get(place, column)
    }
}

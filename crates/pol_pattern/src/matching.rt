//! Whether terms hold a text.
//!
//! Each class has a mark, which says whether the text so far can end in a symbol of that class. A
//! symbol moves the marks once, so the time is at most the number of factors, times how deep they
//! stand in stars, times the text's length. Nothing is allocated.

ghost use Rattle.std.specs.Prelude.{◌≡◌, ◌≤◌, ◌++◌, length, take, drop, true};
ghost use Rattle.pol_pattern.specs.Flat.{factor_value, term_value, terms_value};
ghost use Rattle.pol_pattern.specs.Matching.{factor_positions, term_positions, terms_positions};
ghost use Rattle.pol_pattern.specs.Matching.{factor_ends, term_ends, terms_end, factor_moved};
ghost use Rattle.pol_pattern.specs.Matching.{term_moved, terms_moved, matches_terms};

use crate::flat::{Factor, Term};

/// How many marks there are at most.
const MARKS: usize = 400;

// ---- whether the text so far can end just after a part, where `before` says whether it can end
// just before it; the part's marks come first in the given ones, and the others are handed back

#[cycle(ends)]
fn factor_ends<'a>(factor: &Factor, before: bool, marks: &'a [bool]) -> (bool, &'a [bool])
    requires { factor_positions (factor_value factor.now) ≤ length marks.now }
    ensures ends { let part = factor_value factor.now in
        result.0 ≡ factor_ends part before (take (factor_positions part) marks.now) }
    ensures rest { result.1.now ≡ drop (factor_positions (factor_value factor.now)) marks.now }
{
    match factor {
        Factor::Class(_) => (marks[0], &marks[1..]),
        Factor::Group(terms) => terms_end(terms, before, marks),
        Factor::Star(terms) => {
            let (ends, rest) = terms_end(terms, false, marks);
            (before || ends, rest)
        }
    }
}

#[cycle(ends)]
fn term_ends<'a>(factors: &[Factor], before: bool, marks: &'a [bool]) -> (bool, &'a [bool])
    requires { term_positions (term_value factors.now) ≤ length marks.now }
    ensures ends { let part = term_value factors.now in
        result.0 ≡ term_ends part before (take (term_positions part) marks.now) }
    ensures rest { result.1.now ≡ drop (term_positions (term_value factors.now)) marks.now }
{
    let mut ends = before;
    let mut rest = marks;
    for factor in factors {
        (ends, rest) = factor_ends(factor, ends, rest);
    }
    (ends, rest)
}

#[cycle(ends)]
fn terms_end<'a>(terms: &[Term], before: bool, marks: &'a [bool]) -> (bool, &'a [bool])
    requires { terms_positions (terms_value terms.now) ≤ length marks.now }
    ensures ends { let part = terms_value terms.now in
        result.0 ≡ terms_end part before (take (terms_positions part) marks.now) }
    ensures rest { result.1.now ≡ drop (terms_positions (terms_value terms.now)) marks.now }
{
    let mut ends = false;
    let mut rest = marks;
    for term in terms {
        let (own, others) = term_ends(term, before, rest);
        ends |= own;
        rest = others;
    }
    (ends, rest)
}

// ---- one more symbol: moves the part's marks, which come first in the given ones; says whether
// the text before the symbol can end just after the part, and how many marks the part has

#[cycle(moved)]
fn move_factor(factor: &Factor, before: bool, symbol: u8, marks: &mut [bool]) -> (bool, usize)
    requires { factor_positions (factor_value factor.now) ≤ length marks.old }
    ensures moved { let part = factor_value factor.now in let count = factor_positions part in
        marks.new ≡ factor_moved part before symbol (take count marks.old) ++ drop count marks.old }
    ensures ends { let part = factor_value factor.now in
        result.0 ≡ factor_ends part before (take (factor_positions part) marks.old) }
    ensures count { result.1 ≡ factor_positions (factor_value factor.now) }
{
    match factor {
        Factor::Class(class) => {
            let ends = marks[0];
            marks[0] = before && class.holds(symbol);
            (ends, 1)
        }
        Factor::Group(terms) => move_terms(terms, before, symbol, marks),
        Factor::Star(terms) => {
            let ends = before || terms_end(terms, false, marks).0;
            let (_, count) = move_terms(terms, ends, symbol, marks);
            (ends, count)
        }
    }
}

#[cycle(moved)]
fn move_term(factors: &[Factor], before: bool, symbol: u8, marks: &mut [bool]) -> (bool, usize)
    requires { term_positions (term_value factors.now) ≤ length marks.old }
    ensures moved { let part = term_value factors.now in let count = term_positions part in
        marks.new ≡ term_moved part before symbol (take count marks.old) ++ drop count marks.old }
    ensures ends { let part = term_value factors.now in
        result.0 ≡ term_ends part before (take (term_positions part) marks.old) }
    ensures count { result.1 ≡ term_positions (term_value factors.now) }
{
    let mut ends = before;
    let mut place = 0;
    for factor in factors {
        let (own, count) = move_factor(factor, ends, symbol, &mut marks[place..]);
        ends = own;
        place += count;
    }
    (ends, place)
}

#[cycle(moved)]
fn move_terms(terms: &[Term], before: bool, symbol: u8, marks: &mut [bool]) -> (bool, usize)
    requires { terms_positions (terms_value terms.now) ≤ length marks.old }
    ensures moved { let part = terms_value terms.now in let count = terms_positions part in
        marks.new ≡ terms_moved part before symbol (take count marks.old) ++ drop count marks.old }
    ensures ends { let part = terms_value terms.now in
        result.0 ≡ terms_end part before (take (terms_positions part) marks.old) }
    ensures count { result.1 ≡ terms_positions (terms_value terms.now) }
{
    let mut ends = false;
    let mut place = 0;
    for term in terms {
        let (own, count) = move_term(term, before, symbol, &mut marks[place..]);
        ends |= own;
        place += count;
    }
    (ends, place)
}

// ---- a whole text

/// Whether the terms hold the text.
pub fn holds(terms: &[Term], text: &[u8]) -> bool
    requires { terms_positions (terms_value terms.now) ≤ MARKS }
    ensures { result ≡ matches_terms (terms_value terms.now) text.now }
{
    let mut marks = [false; MARKS];
    let mut before = true;
    for symbol in text {
        let (_, count) = move_terms(terms, before, *symbol, &mut marks);
        before = false;
        // with no mark set, nothing that follows is held
        if !marks[..count].contains(&true) {
            return false;
        }
    }
    terms_end(terms, before, &marks).0
}

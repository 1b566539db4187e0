//! Putting the terms of patterns into a table.

ghost use Rattle.std.specs.Prelude.{◌≡◌, ◌<◌, length, IfOk};
ghost use Rattle.pol_pattern.specs.Flat as flat;
ghost use Rattle.pol_deriv.specs.Classes.{IsWholeFactor, IsWholeTerm, AreWholeTerms};
ghost use Rattle.pol_deriv.specs.Table.{Means, IsDistinct, Grows, StandsFor};
ghost use Rattle.pol_residual.specs.Derivative.{IsAmong};
ghost use Rattle.pol_deriv.specs.Nodes.{term_at, of_kind};

use crate::node::{Kind, Number};
use crate::table::Table;
use pol_pattern::{Factor, Term};
use std::alloc::AllocError;

impl Table {
    /// The numbers of the terms, in their order.
    pub(crate) fn add_each(&mut self, terms: &[Term]) -> Result<Vec<Number>, AllocError>
        requires distinct { IsDistinct self.old }
        requires whole { AreWholeTerms (flat.terms_value terms.now) }
        ensures grows { Grows self.old self.new }
        ensures members { let set = IsAmong (flat.terms_value terms.now) in
            IfOk result (λ numbers. StandsFor self.new numbers.items set) }
    {
        let mut numbers = Vec::new(self.alloc());
        for term in terms {
            numbers.push(self.add_term(term)?)?;
        }
        Ok(numbers)
    }

    /// The number of the factors.
    #[cycle(adding)]
    pub(crate) fn add_term(&mut self, factors: &[Factor]) -> Result<Number, AllocError>
        requires { IsWholeTerm (flat.term_value factors.now) }
        ensures grows { Grows self.old self.new }
        ensures meant { IfOk result (λ n. Means self.new n (flat.term_value factors.now)) }
    {
        let mut number = self.empty()?;
        'factors: for i in (0..factors.len()).rev() {
            number = self.add_factor(&factors[i], number)?;
        }
        Ok(number)
    }

    /// The number of the factor and then the rest.
    #[cycle(adding)]
    fn add_factor(&mut self, factor: &Factor, rest: Number) -> Result<Number, AllocError>
        requires rest { rest < length self.old }
        requires whole { IsWholeFactor (flat.factor_value factor.now) }
        ensures grows { Grows self.old self.new }
        ensures meant { let first = flat.factor_value factor.now in
            IfOk result (λ n. Means self.new n (flat.put first (term_at self.old rest))) }
    {
        match factor {
            Factor::Class(class) => self.put_class(*class, rest),
            Factor::Group(terms) => self.add_terms(Kind::Group, terms, rest),
            Factor::Star(terms) => self.add_terms(Kind::Star, terms, rest),
        }
    }

    /// The number of the group or star of the terms, and then the rest.
    #[cycle(adding)]
    fn add_terms(&mut self, kind: Kind, terms: &[Term], rest: Number) -> Result<Number, AllocError>
        requires rest { rest < length self.old }
        requires whole { AreWholeTerms (flat.terms_value terms.now) }
        ensures grows { Grows self.old self.new }
        ensures meant { let factor = of_kind kind (flat.terms_value terms.now) in
            IfOk result (λ n. Means self.new n (flat.put factor (term_at self.old rest))) }
    {
        let mut number = self.put_closed(kind, rest)?;
        'terms: for i in (0..terms.len()).rev() {
            let first = self.add_term(&terms[i])?;
            number = self.put_alternative(first, number)?;
        }
        Ok(number)
    }
}

//! The linear forms of terms: what a text of the term begins with, and what follows it then
//! (V. Antimirov, "Partial derivatives of regular expressions and finite automaton constructions",
//! 1996).

ghost use Rattle.std.specs.Prelude.{◌≡◌, ◌<◌, length, true, false, IsTrue, IfOk, OnOk, MatchOption};
ghost use Rattle.pol_pattern.specs.Flat as flat;
ghost use Rattle.pol_deriv.specs.Linear as spec;
ghost use Rattle.pol_deriv.specs.Nodes.{term_at, begins_with_terms, first_factor, rest_of};
ghost use Rattle.pol_deriv.specs.Table.{Means, Grows};

use crate::node::{Kind, Node, Number};
use crate::table::Table;
use pol_pattern::Class;
use std::alloc::AllocError;

/// For each symbol of the class the next term is one derivative.
#[derive(Clone, Copy)]
pub(crate) struct Monomial {
    pub(crate) class: Class,
    pub(crate) next: Number,
}

impl Table {
    ghost use Rattle.pol_deriv.specs.Forms.{HasAdded};

    /// Adds to a form the linear form of a term, where another follows it.
    #[cycle(linear)]
    pub(crate) fn linear(
        &mut self,
        term: Number,
        after: Number,
        form: &mut Vec<Monomial>,
    ) -> Result<(), AllocError>
        requires term { term < length self.old }
        requires after { after < length self.old }
        ensures grows { Grows self.old self.new }
        ensures exact { let pairs = spec.linear (term_at self.old term) (term_at self.old after) in
            OnOk result (HasAdded self.new form.old.items form.new.items pairs) }
    {
        let mut at = term;
        'factors: loop {
            match self.node(at) {
                Node::Empty => return Ok(()),
                Node::Class { class, rest } => {
                    let next = self.join(rest, after)?;
                    form.push(Monomial { class, next })?;
                    return Ok(());
                }
                Node::Group { .. } | Node::Star { .. } | Node::Alternative { .. } => {
                    match self.linear_terms(at, after, form)? {
                        Some(rest) => at = rest,
                        None => return Ok(()),
                    }
                }
            }
        }
    }

    /// What follows each term of the group or star that a term begins with, where another follows
    /// the whole.
    fn continuation(&mut self, term: Number, after: Number) -> Result<Number, AllocError>
        requires term { term < length self.old }
        requires after { after < length self.old }
        requires begins { IsTrue (begins_with_terms (term_at self.old term)) }
        ensures grows { Grows self.old self.new }
        ensures meant { let whole = term_at self.old term in
            let rest = flat.join_term (rest_of whole) (term_at self.old after) in
            IfOk result (λ n. Means self.new n (spec.continuation (first_factor whole) rest)) }
    {
        let (kind, rest) = self.end(term);
        match kind {
            Kind::Group => self.join(rest, after),
            Kind::Star => self.join(term, after),
        }
    }

    /// Adds to a form the linear form of the group or star that a term begins with, where another
    /// follows the term. Answers the rest of the term, if the group or star holds the empty text.
    #[cycle(linear)]
    fn linear_terms(
        &mut self,
        term: Number,
        after: Number,
        form: &mut Vec<Monomial>,
    ) -> Result<Option<Number>, AllocError>
        requires term { term < length self.old }
        requires after { after < length self.old }
        requires begins { IsTrue (begins_with_terms (term_at self.old term)) }
        ensures grows { Grows self.old self.new }
        ensures exact { let whole = term_at self.old term in
            let rest = flat.join_term (rest_of whole) (term_at self.old after) in
            let pairs = spec.factor_linear (first_factor whole) rest in
            OnOk result (HasAdded self.new form.old.items form.new.items pairs) }
        ensures rest { let whole = term_at self.old term in
            let holds_empty = spec.factor_holds_empty (first_factor whole) in
            IfOk result (λ rest. MatchOption rest (holds_empty ≡ false)
            (λ n. (holds_empty ≡ true) × (n < term) × Means self.new n (rest_of whole))) }
    {
        let (kind, rest) = self.end(term);
        let next = self.continuation(term, after)?;
        let mut holds_empty = matches!(kind, Kind::Star);
        let mut at = term;
        'terms: while let Node::Alternative { first, rest, .. } = self.node(at) {
            holds_empty |= self.holds_empty(first);
            self.linear(first, next, form)?;
            at = rest;
        }
        Ok(holds_empty.then_some(rest))
    }
}

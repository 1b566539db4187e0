//! Terms one after another.

ghost use Rattle.std.specs.Prelude.{◌≡◌, ◌<◌, length, true, IsTrue, IfOk, IfNone, IfSome};
ghost use Rattle.pol_pattern.specs.Flat as flat;
ghost use Rattle.pol_deriv.specs.Table.{Means, IsDistinct, Grows};
ghost use Rattle.pol_deriv.specs.Nodes as spec;
ghost use Rattle.pol_deriv.specs.Nodes.{term_at};

use crate::node::{Kind, Node, Number};
use crate::table::Table;
use std::alloc::AllocError;

impl Table {
    /// The term without its first part, if it has one.
    fn rest(&self, number: Number) -> Option<Number>
        requires { number < length self.now }
        ensures distinct { IsDistinct self.now }
        ensures none { IfNone result (term_at self.now number ≡ flat.empty) }
        ensures rest { IfSome result
            (λ n. Means self.now n (spec.without_part (term_at self.now number))) }
        ensures below { IfSome result (λ n. n < number) }
    {
        match self.node(number) {
            Node::Empty => None,
            Node::Class { rest, .. }
            | Node::Group { rest }
            | Node::Star { rest, .. }
            | Node::Alternative { rest, .. } => Some(rest),
        }
    }

    /// The first part of a term, in front of another term.
    fn put_part_of(&mut self, number: Number, other: Number) -> Result<Number, AllocError>
        requires number { number < length self.old }
        requires other { other < length self.old }
        requires fits { IsTrue (spec.is_alternative (term_at self.old number))
            → IsTrue (spec.begins_with_terms (term_at self.old other)) }
        ensures grows { Grows self.old self.new }
        ensures meant { let term = term_at self.old in
            IfOk result (λ n. Means self.new n (spec.part_before (term number) (term other))) }
    {
        match self.node(number) {
            Node::Empty => Ok(other),
            Node::Class { class, .. } => self.put_class(class, other),
            Node::Group { .. } => self.put_closed(Kind::Group, other),
            Node::Star { .. } => self.put_closed(Kind::Star, other),
            Node::Alternative { first, .. } => self.put_alternative(first, other),
        }
    }

    /// The number of a term and then another.
    pub(crate) fn join(&mut self, front: Number, back: Number) -> Result<Number, AllocError>
        requires front { front < length self.old }
        requires back { back < length self.old }
        ensures grows { Grows self.old self.new }
        ensures meant { let term = term_at self.old in
            IfOk result (λ n. Means self.new n (flat.join_term (term front) (term back))) }
    {
        let mut passed = Vec::new(self.alloc());
        let mut at = front;
        'parts: while let Some(rest) = self.rest(at) {
            passed.push(at)?;
            at = rest;
        }
        let mut joined = back;
        'passed: while let Some(number) = passed.pop() {
            joined = self.put_part_of(number, joined)?;
        }
        Ok(joined)
    }
}

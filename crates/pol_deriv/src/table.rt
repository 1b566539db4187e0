//! Each different term once, under a number.

ghost use Rattle.std.specs.Prelude.{◌≡◌, ◌↔◌, ◌<◌, [], length, IsTrue, IfOk};
ghost use Rattle.pol_pattern.specs.Flat as flat;
ghost use Rattle.pol_pattern.specs.Spelling.{any_symbol};
ghost use Rattle.pol_residual.specs.Residuals.{any_text};
ghost use Rattle.pol_deriv.specs.Classes.{IsWhole};
ghost use Rattle.pol_deriv.specs.Linear.{term_holds_empty};

use crate::node::{Kind, Node, Number};
use indexmap::IndexSet;
use pol_pattern::Class;
use std::alloc::{AllocError, Global};
use std::marker::Model;

/// How many terms there may be: their numbers have 32 bits.
const NUMBERS: usize = 1 << 32;

/// Terms, each once. A contract sees the list of them; a term's number is its place there.
#[derive(Drop)]
pub(crate) struct Table {
    nodes: IndexSet<Node>,
    alloc: Global,
}

impl Model for Table {
    ghost use Rattle.std.specs.Prelude.{List};
    ghost use Rattle.std.specs.Coded.{coded_list};
    ghost use Rattle.pol_pattern.specs.Flat.{Term};
    ghost use Rattle.pol_deriv.specs.TermCode.{term_code};

    ghost Value = { List Term };

    ghost coded = { coded_list term_code };

    ghost use Rattle.pol_deriv.specs.Nodes.{terms_of, IsTable};

    ghost view = { λ table. terms_of table.nodes.keys };

    ghost invariant = { λ table. IsTable table.nodes.keys };
}

/// Whether the class holds every symbol.
fn holds_all(class: &Class) -> bool
    requires { IsWhole class.now }
    ensures { IsTrue result ↔ (class.now ≡ any_symbol) }
{
    'symbols: for symbol in b' '..=b'~' {
        if !class.holds(symbol) {
            return false;
        }
    }
    true
}

impl Table {
    ghost use Rattle.pol_deriv.specs.Table.{Means, IsDistinct, Grows};
    ghost use Rattle.pol_deriv.specs.Nodes.{IsRight, node_term, term_at, begins_with_terms};
    ghost use Rattle.pol_deriv.specs.Nodes.{kind_of, of_kind, rest_of, with_alternative};

    /// No terms.
    pub(crate) fn new(alloc: Global) -> Table
        ensures { result ≡ [] }
    {
        Table {
            nodes: IndexSet::new(alloc),
            alloc,
        }
    }

    /// The node of a term.
    pub(crate) fn node(&self, number: Number) -> Node
        requires { number < length self.now }
        ensures distinct { IsDistinct self.now }
        ensures right { IsRight self.now number result }
        ensures meant { Means self.now number (node_term self.now result) }
    {
        self.nodes.as_slice()[number as usize]
    }

    /// The number of the node's term, which is new where no other node represents it.
    fn add(&mut self, node: Node) -> Result<Number, AllocError>
        requires { IsRight self.old (length self.old) node }
        ensures grows { Grows self.old self.new }
        ensures meant { IfOk result (λ n. Means self.new n (node_term self.old node)) }
    {
        if self.nodes.len() >= NUMBERS {
            return Err(AllocError);
        }
        let (number, _) = self.nodes.insert_full(node)?;
        Ok(number as Number)
    }

    /// Where the memory comes from.
    pub(crate) fn alloc(&self) -> Global {
        self.alloc
    }

    /// Whether the term holds the empty text. Takes constant time.
    pub(crate) fn holds_empty(&self, number: Number) -> bool
        requires { number < length self.now }
        ensures { result ≡ term_holds_empty (term_at self.now number) }
    {
        self.node(number).holds_empty()
    }

    /// Whether the term has no factors.
    fn is_empty(&self, number: Number) -> bool
        requires { number < length self.now }
        ensures { IsTrue result ↔ (term_at self.now number ≡ flat.empty) }
    {
        matches!(self.node(number), Node::Empty)
    }

    /// Whether the term is one factor, the star of no terms.
    fn is_bare_star(&self, number: Number) -> bool
        requires { number < length self.now }
        ensures { IsTrue result
            ↔ (term_at self.now number ≡ flat.put (flat.star flat.none) flat.empty) }
    {
        match self.node(number) {
            Node::Star { rest, .. } => self.is_empty(rest),
            _ => false,
        }
    }

    /// Whether the term is `.`: one factor, the class of all symbols.
    fn is_any_symbol(&self, number: Number) -> bool
        requires { number < length self.now }
        ensures { IsTrue result
            ↔ (term_at self.now number ≡ flat.put (flat.class any_symbol) flat.empty) }
    {
        match self.node(number) {
            Node::Class { class, rest } => self.is_empty(rest) && holds_all(&class),
            _ => false,
        }
    }

    /// Whether the term is `.*`. Takes constant time.
    pub(crate) fn is_any_text(&self, number: Number) -> bool
        requires { number < length self.now }
        ensures { IsTrue result ↔ (term_at self.now number ≡ any_text) }
    {
        match self.node(number) {
            // Few terms end in a bare star, which is told without a look at each symbol.
            Node::Alternative { first, rest, .. } => {
                self.is_bare_star(rest) && self.is_any_symbol(first)
            }
            _ => false,
        }
    }

    /// Whether the term begins with a group or with a star, and what follows that.
    pub(crate) fn end(&self, number: Number) -> (Kind, Number)
        requires within { number < length self.now }
        requires begins { IsTrue (begins_with_terms (term_at self.now number)) }
        ensures kind { result.0 ≡ kind_of (term_at self.now number) }
        ensures rest { term_at self.now result.1 ≡ rest_of (term_at self.now number) }
        ensures below { result.1 < number }
    {
        let mut at = number;
        'alternatives: loop {
            match self.node(at) {
                Node::Group { rest } => return (Kind::Group, rest),
                Node::Star { rest, .. } => return (Kind::Star, rest),
                Node::Alternative { rest, .. } => at = rest,
                Node::Empty | Node::Class { .. } => unreachable!(),
            }
        }
    }

    /// The number of the term of no factors.
    pub(crate) fn empty(&mut self) -> Result<Number, AllocError>
        ensures grows { Grows self.old self.new }
        ensures meant { IfOk result (λ n. Means self.new n flat.empty) }
    {
        self.add(Node::Empty)
    }

    /// The number of the class and then the rest.
    pub(crate) fn put_class(&mut self, class: Class, rest: Number) -> Result<Number, AllocError>
        requires rest { rest < length self.old }
        requires whole { IsWhole class }
        ensures grows { Grows self.old self.new }
        ensures meant { let term = flat.put (flat.class class) (term_at self.old rest) in
            IfOk result (λ n. Means self.new n term) }
    {
        self.add(Node::Class { class, rest })
    }

    /// The number of a group or a star of no terms, and then the rest.
    pub(crate) fn put_closed(&mut self, kind: Kind, rest: Number) -> Result<Number, AllocError>
        requires { rest < length self.old }
        ensures grows { Grows self.old self.new }
        ensures meant { let term = flat.put (of_kind kind flat.none) (term_at self.old rest) in
            IfOk result (λ n. Means self.new n term) }
    {
        match kind {
            Kind::Group => self.add(Node::Group { rest }),
            Kind::Star => {
                let holds_empty = self.holds_empty(rest);
                self.add(Node::Star { rest, holds_empty })
            }
        }
    }

    /// The number of the rest with one more term, the first, in the group or the star that it
    /// begins with.
    pub(crate) fn put_alternative(
        &mut self,
        first: Number,
        rest: Number,
    ) -> Result<Number, AllocError>
        requires first { first < length self.old }
        requires rest { rest < length self.old }
        requires begins { IsTrue (begins_with_terms (term_at self.old rest)) }
        ensures grows { Grows self.old self.new }
        ensures meant { let term = term_at self.old in
            IfOk result (λ n. Means self.new n (with_alternative (term first) (term rest))) }
    {
        let (_, after) = self.end(rest);
        let holds_empty = self.holds_empty(rest)
            || self.holds_empty(first) && self.holds_empty(after);
        self.add(Node::Alternative {
            first,
            rest,
            holds_empty,
        })
    }
}

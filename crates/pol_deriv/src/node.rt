//! How a term is kept: by what it begins with, and the number of the rest.

ghost use Rattle.std.specs.Prelude.{◌≡◌, ℕ, List};
ghost use Rattle.pol_pattern.specs.Flat.{Term};
ghost use Rattle.pol_deriv.specs.Linear.{term_holds_empty};

use pol_pattern::Class;

/// A term's number.
pub type Number = u32;

/// What a list of terms stands in.
#[derive(Clone, Copy)]
pub(crate) enum Kind {
    /// One of them.
    Group,
    /// Any number of them, one after another.
    Star,
}

/// A term. Where it isn't plain, its node says whether it holds the empty text.
#[derive(Clone, Copy, PartialEq, Eq, Hash)]
pub(crate) enum Node {
    /// No factors.
    Empty,
    /// A class, and then the rest.
    Class {
        class: Class,
        rest: Number,
    },
    /// A group of no terms, and then the rest.
    Group {
        rest: Number,
    },
    /// A star of no terms, and then the rest.
    Star {
        rest: Number,
        holds_empty: bool,
    },
    /// The rest, which begins with a group or a star, with one more term, the first, in that.
    Alternative {
        first: Number,
        rest: Number,
        holds_empty: bool,
    },
}

impl Node {
    ghost use Rattle.pol_deriv.specs.Nodes.{IsRight, node_term};

    /// Whether its term holds the empty text.
    pub(crate) fn holds_empty(&self) -> bool
        ensures { (table : List Term) (number : ℕ) → IsRight table number self.now
            → result ≡ term_holds_empty (node_term table self.now) }
    {
        match self {
            Node::Empty => true,
            Node::Class { .. } | Node::Group { .. } => false,
            Node::Star { holds_empty, .. } | Node::Alternative { holds_empty, .. } => *holds_empty,
        }
    }
}

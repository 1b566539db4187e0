//! The tokens of a pattern.

use crate::flat::Class;

/// What may follow an atom.
#[derive(Clone, Copy, PartialEq, Eq)]
pub(crate) enum Repeat {
    /// `*`: any number of times.
    Star,
    /// `+`: once or more.
    Plus,
    /// `?`: once or not at all.
    Question,
    /// `{m,n}`: at least m times and at most n times.
    Counted(u32, u32),
}

/// A part of a pattern that is read at once.
#[derive(Clone, Copy)]
pub(crate) enum Token {
    /// A literal, a dot, a class, or a symbol after a `\`: one symbol of the class.
    Atom(Class),
    Repeat(Repeat),
    Bar,
    Open,
    Close,
}

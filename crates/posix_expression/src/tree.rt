//! Regular expressions as trees.

ghost use Rattle.std.specs.Prelude.{◌≡◌, IfOk};
ghost use Rattle.posix_expression.specs.Syntax.{is_blank as blank_test, is_begin as begin_test};
ghost use Rattle.posix_expression.specs.Syntax.{is_end as end_test, has_begin as begin_within};
ghost use Rattle.posix_expression.specs.Syntax.{has_end as end_within};
ghost use Rattle.posix_expression.specs.Reading.{joined};
ghost use Rattle.posix_expression.specs.Trees.{expression_of};

use std::alloc::{AllocError, Global};

/// What a class names: a symbol, or those from one to another.
#[derive(Clone, Copy)]
pub(crate) enum Item {
    One(u8),
    Range(u8, u8),
}

/// How often something stands, one after another.
#[derive(Clone, Copy)]
pub(crate) enum Repeats {
    /// `*`
    Any,
    /// `+`
    More,
    /// `?`
    Optional,
    /// `{m}` or `{m,n}`
    Between(u8, u8),
    /// `{m,}`
    AtLeast(u8),
}

/// A regular expression, or a part of one.
#[derive(Drop)]
pub(crate) enum Tree {
    /// The empty branch.
    Blank,
    Symbol(u8),
    /// `.`
    Period,
    /// A class: whether it is negated, its first item, and the others.
    Bracketed(bool, Item, Vec<Item>),
    /// `^`
    Begin,
    /// `$`
    End,
    /// In parentheses.
    Subexpression(Box<Tree>),
    Duplicated(Box<Tree>, Repeats),
    /// One after the other.
    Concatenated(Box<Tree>, Box<Tree>),
    /// One or the other.
    Alternated(Box<Tree>, Box<Tree>),
}

impl Tree {
    pub(crate) fn is_blank(&self) -> bool
        ensures { result ≡ blank_test (expression_of self.now) }
    {
        match self {
            Tree::Blank => true,
            _ => false,
        }
    }

    pub(crate) fn is_begin(&self) -> bool
        ensures { result ≡ begin_test (expression_of self.now) }
    {
        match self {
            Tree::Begin => true,
            _ => false,
        }
    }

    pub(crate) fn is_end(&self) -> bool
        ensures { result ≡ end_test (expression_of self.now) }
    {
        match self {
            Tree::End => true,
            _ => false,
        }
    }

    /// Whether something in it is anchored at the beginning.
    pub(crate) fn has_begin(&self) -> bool
        ensures { result ≡ begin_within (expression_of self.now) }
    {
        match self {
            Tree::Begin => true,
            Tree::Subexpression(inner) => inner.has_begin(),
            Tree::Duplicated(part, _) => part.has_begin(),
            Tree::Concatenated(first, second) => first.has_begin() || second.has_begin(),
            Tree::Alternated(first, second) => first.has_begin() || second.has_begin(),
            Tree::Blank | Tree::Symbol(_) | Tree::Period | Tree::Bracketed(..) | Tree::End => false,
        }
    }

    /// Whether something in it is anchored at the end.
    pub(crate) fn has_end(&self) -> bool
        ensures { result ≡ end_within (expression_of self.now) }
    {
        match self {
            Tree::End => true,
            Tree::Subexpression(inner) => inner.has_end(),
            Tree::Duplicated(part, _) => part.has_end(),
            Tree::Concatenated(first, second) => first.has_end() || second.has_end(),
            Tree::Alternated(first, second) => first.has_end() || second.has_end(),
            Tree::Blank | Tree::Symbol(_) | Tree::Period | Tree::Bracketed(..) | Tree::Begin => {
                false
            }
        }
    }

    /// A copy of it.
    pub(crate) fn copy(&self, alloc: Global) -> Result<Tree, AllocError>
        ensures { IfOk result (λ copy. expression_of copy ≡ expression_of self.now) }
    {
        match self {
            Tree::Blank => Ok(Tree::Blank),
            Tree::Symbol(byte) => Ok(Tree::Symbol(*byte)),
            Tree::Period => Ok(Tree::Period),
            Tree::Bracketed(is_negated, first, others) => {
                let others = Vec::from_slice(alloc, others)?;
                Ok(Tree::Bracketed(*is_negated, *first, others))
            }
            Tree::Begin => Ok(Tree::Begin),
            Tree::End => Ok(Tree::End),
            Tree::Subexpression(inner) => {
                let inner = inner.copy(alloc)?;
                Ok(Tree::Subexpression(Box::new(alloc, inner)?))
            }
            Tree::Duplicated(part, repeats) => {
                let part = part.copy(alloc)?;
                Ok(Tree::Duplicated(Box::new(alloc, part)?, *repeats))
            }
            Tree::Concatenated(first, second) => {
                let first = Box::new(alloc, first.copy(alloc)?)?;
                let second = Box::new(alloc, second.copy(alloc)?)?;
                Ok(Tree::Concatenated(first, second))
            }
            Tree::Alternated(first, second) => {
                let first = Box::new(alloc, first.copy(alloc)?)?;
                let second = Box::new(alloc, second.copy(alloc)?)?;
                Ok(Tree::Alternated(first, second))
            }
        }
    }
}

/// One after the other, or the one that isn't blank.
#[tactic(auto, unfolding(crate::specs::Reading::joined))]
pub(crate) fn join(alloc: Global, first: Tree, second: Tree) -> Result<Tree, AllocError>
    ensures { IfOk result
        (λ tree. expression_of tree ≡ joined (expression_of first) (expression_of second)) }
{
    if first.is_blank() {
        return Ok(second);
    }
    if second.is_blank() {
        return Ok(first);
    }
    let first = Box::new(alloc, first)?;
    let second = Box::new(alloc, second)?;
    Ok(Tree::Concatenated(first, second))
}

//! What the whole of an expression tells: where it is found anyway, and how it is anchored.

ghost use Rattle.std.specs.Prelude.{◌≡◌};
ghost use Rattle.posix_expression.specs.Writing.{are_stars as stars_test};
ghost use Rattle.posix_expression.specs.Writing.{has_repeats as repeats_test, is_star as star_test};
ghost use Rattle.posix_expression.specs.Writing.{begins as begins_test, ends as ends_test};
ghost use Rattle.posix_expression.specs.Writing.{is_everything as everything_test};
ghost use Rattle.posix_expression.specs.Writing.{allows_none as none_test};
ghost use Rattle.posix_expression.specs.Writing.{is_optional as optional_test, edges_of};
ghost use Rattle.posix_expression.specs.Writing.{if_same as same_edges, is_open as open_test};
ghost use Rattle.posix_expression.specs.Writing.{branch_edges as edges_of_branch};
ghost use Rattle.posix_expression.specs.Writing.{are_same as same_test};
ghost use Rattle.posix_expression.specs.Writing.{has_inner_begin as inner_begin_test};
ghost use Rattle.posix_expression.specs.Writing.{has_inner_end as inner_end_test};
ghost use Rattle.posix_expression.specs.Writing.{is_run as run_test, doubles as doubles_test};
ghost use Rattle.posix_expression.specs.Writing.{is_at_least as at_least_test};
ghost use Rattle.posix_expression.specs.Trees.{expression_of};

use crate::tree::{Repeats, Tree};

/// Whether it is `.*` or `.+`, beside which no `.*` is needed.
pub(crate) fn is_run(part: &Tree, repeats: Repeats) -> bool
    ensures { result ≡ run_test (expression_of part.now) repeats }
{
    match part {
        Tree::Period => match repeats {
            Repeats::Any | Repeats::More => true,
            Repeats::Optional | Repeats::Between(..) | Repeats::AtLeast(_) => false,
        },
        _ => false,
    }
}

// Whether it is `.*`.
fn is_star(part: &Tree, repeats: Repeats) -> bool
    ensures { result ≡ star_test (expression_of part.now) repeats }
{
    match part {
        Tree::Period => match repeats {
            Repeats::Any => true,
            Repeats::More | Repeats::Optional | Repeats::Between(..) | Repeats::AtLeast(_) => false,
        },
        _ => false,
    }
}

// Whether it may stand no time.
fn allows_none(repeats: Repeats) -> bool
    ensures { result ≡ none_test repeats }
{
    match repeats {
        Repeats::Any | Repeats::Optional => true,
        Repeats::More => false,
        Repeats::Between(low, _) => low == 0,
        Repeats::AtLeast(low) => low == 0,
    }
}

fn is_at_least(repeats: Repeats) -> bool
    ensures { result ≡ at_least_test repeats }
{
    match repeats {
        Repeats::AtLeast(_) => true,
        Repeats::Any | Repeats::More | Repeats::Optional | Repeats::Between(..) => false,
    }
}

/// Whether both are anchored, and alike.
pub(crate) fn are_same(first: Option<(bool, bool)>, second: Option<(bool, bool)>) -> bool
    ensures { result ≡ same_test first second }
{
    let Some(edges) = first else {
        return false;
    };
    let Some(others) = second else {
        return false;
    };
    edges.0 == others.0 && edges.1 == others.1
}

// How alternatives are anchored that are anchored alike, or none.
fn if_same(first: Option<(bool, bool)>, second: Option<(bool, bool)>) -> Option<(bool, bool)>
    ensures { result ≡ same_edges first second }
{
    if are_same(first, second) {
        return first;
    }
    None
}

impl Tree {
    // Whether a branch is `.*` and anchors alone.
    fn are_stars(&self) -> bool
        ensures { result ≡ stars_test (expression_of self.now) }
    {
        match self {
            Tree::Blank | Tree::Begin | Tree::End => true,
            Tree::Duplicated(part, repeats) => is_star(part, *repeats),
            Tree::Concatenated(first, second) => first.are_stars() && second.are_stars(),
            Tree::Symbol(_) | Tree::Period | Tree::Bracketed(..) | Tree::Subexpression(_) => false,
            Tree::Alternated(..) => false,
        }
    }

    // Whether a part of a branch is repeated.
    fn has_repeats(&self) -> bool
        ensures { result ≡ repeats_test (expression_of self.now) }
    {
        match self {
            Tree::Duplicated(..) => true,
            Tree::Concatenated(first, second) => first.has_repeats() || second.has_repeats(),
            Tree::Blank | Tree::Begin | Tree::End | Tree::Alternated(..) => false,
            Tree::Symbol(_) | Tree::Period | Tree::Bracketed(..) | Tree::Subexpression(_) => false,
        }
    }

    // Whether a branch begins with a `^`.
    fn begins(&self) -> bool
        ensures { result ≡ begins_test (expression_of self.now) }
    {
        match self {
            Tree::Begin => true,
            Tree::Concatenated(first, _) => first.begins(),
            Tree::Blank | Tree::Duplicated(..) | Tree::End | Tree::Alternated(..) => false,
            Tree::Symbol(_) | Tree::Period | Tree::Bracketed(..) | Tree::Subexpression(_) => false,
        }
    }

    // Whether a branch ends in a `$`.
    fn ends(&self) -> bool
        ensures { result ≡ ends_test (expression_of self.now) }
    {
        match self {
            Tree::End => true,
            Tree::Concatenated(_, second) => second.ends(),
            Tree::Blank | Tree::Duplicated(..) | Tree::Begin | Tree::Alternated(..) => false,
            Tree::Symbol(_) | Tree::Period | Tree::Bracketed(..) | Tree::Subexpression(_) => false,
        }
    }

    // Whether a branch is found in any text.
    fn is_open(&self) -> bool
        ensures { result ≡ open_test (expression_of self.now) }
    {
        self.are_stars() && (self.has_repeats() || !(self.begins() && self.ends()))
    }

    /// Whether it is found in any text.
    pub(crate) fn is_everything(&self) -> bool
        ensures { result ≡ everything_test (expression_of self.now) }
    {
        match self {
            Tree::Alternated(first, second) => first.is_everything() || second.is_everything(),
            Tree::Blank | Tree::Begin | Tree::End => self.is_open(),
            Tree::Symbol(_) | Tree::Period | Tree::Bracketed(..) => self.is_open(),
            Tree::Subexpression(_) | Tree::Duplicated(..) | Tree::Concatenated(..) =>
                self.is_open(),
        }
    }

    /// Whether it is found in the empty text.
    pub(crate) fn is_optional(&self) -> bool
        ensures { result ≡ optional_test (expression_of self.now) }
    {
        match self {
            Tree::Blank | Tree::Begin | Tree::End => true,
            Tree::Symbol(_) | Tree::Period | Tree::Bracketed(..) => false,
            Tree::Subexpression(inner) => inner.is_optional(),
            Tree::Duplicated(part, repeats) => part.is_optional() || allows_none(*repeats),
            Tree::Concatenated(first, second) => first.is_optional() && second.is_optional(),
            Tree::Alternated(first, second) => first.is_optional() || second.is_optional(),
        }
    }

    // Whether something in parentheses is anchored at the beginning.
    fn has_inner_begin(&self) -> bool
        ensures { result ≡ inner_begin_test (expression_of self.now) }
    {
        match self {
            Tree::Begin => false,
            Tree::Concatenated(first, second) => {
                first.has_inner_begin() || second.has_inner_begin()
            }
            Tree::Blank | Tree::Symbol(_) | Tree::Period | Tree::Bracketed(..) => self.has_begin(),
            Tree::End | Tree::Subexpression(_) | Tree::Duplicated(..) => self.has_begin(),
            Tree::Alternated(..) => self.has_begin(),
        }
    }

    // Whether something in parentheses is anchored at the end.
    fn has_inner_end(&self) -> bool
        ensures { result ≡ inner_end_test (expression_of self.now) }
    {
        match self {
            Tree::End => false,
            Tree::Concatenated(first, second) => first.has_inner_end() || second.has_inner_end(),
            Tree::Blank | Tree::Symbol(_) | Tree::Period | Tree::Bracketed(..) => self.has_end(),
            Tree::Begin | Tree::Subexpression(_) | Tree::Duplicated(..) => self.has_end(),
            Tree::Alternated(..) => self.has_end(),
        }
    }

    // How a branch is anchored, where it is at its edges alone.
    fn branch_edges(&self) -> Option<(bool, bool)>
        ensures { result ≡ edges_of_branch (expression_of self.now) }
    {
        if self.has_inner_begin() || self.has_inner_end() {
            return None;
        }
        Some((self.begins(), self.ends()))
    }

    /// How all alternatives are anchored, where they are anchored alike, and at their edges alone.
    pub(crate) fn edges(&self) -> Option<(bool, bool)>
        ensures { result ≡ edges_of (expression_of self.now) }
    {
        match self {
            Tree::Alternated(first, second) => if_same(first.edges(), second.edges()),
            Tree::Blank | Tree::Begin | Tree::End => self.branch_edges(),
            Tree::Symbol(_) | Tree::Period | Tree::Bracketed(..) => self.branch_edges(),
            Tree::Subexpression(_) | Tree::Duplicated(..) => self.branch_edges(),
            Tree::Concatenated(..) => self.branch_edges(),
        }
    }

    /// Whether more than so many `{m,}` stand in one another: each is written as twice its part.
    pub(crate) fn doubles(&self, most: u8) -> bool
        ensures { result ≡ doubles_test most (expression_of self.now) }
    {
        match self {
            Tree::Subexpression(inner) => inner.doubles(most),
            Tree::Duplicated(part, repeats) => {
                if is_at_least(*repeats) {
                    most == 0 || part.doubles(most.saturating_sub(1))
                } else {
                    part.doubles(most)
                }
            }
            Tree::Concatenated(first, second) => first.doubles(most) || second.doubles(most),
            Tree::Alternated(first, second) => first.doubles(most) || second.doubles(most),
            Tree::Blank | Tree::Begin | Tree::End => false,
            Tree::Symbol(_) | Tree::Period | Tree::Bracketed(..) => false,
        }
    }
}

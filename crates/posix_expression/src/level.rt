//! Alternatives that are being read.

ghost use Rattle.std.specs.Prelude.{◌≡◌, IfOk};
ghost use Rattle.basics.specs.Memory.{GivesUnlessMemory};
ghost use Rattle.posix_expression.specs.Memory.{is_memory};
ghost use Rattle.posix_expression.specs.Trees.{expression_of, level_of};
ghost use Rattle.posix_expression.specs.Reading.{fresh as fresh_level, added as level_added};
ghost use Rattle.posix_expression.specs.Reading.{is_closed_to as closed_test};
ghost use Rattle.posix_expression.specs.Reading.{with_part as level_with_part};
ghost use Rattle.posix_expression.specs.Reading.{with_begin as level_with_begin};
ghost use Rattle.posix_expression.specs.Reading.{with_end as level_with_end};
ghost use Rattle.posix_expression.specs.Reading.{with_repeats as level_with_repeats};
ghost use Rattle.posix_expression.specs.Reading.{with_bar as level_with_bar};
ghost use Rattle.posix_expression.specs.Reading.{finished as level_finished};
ghost use Rattle.posix_expression.specs.Reading.{has_nothing_last as nothing_test};
ghost use Rattle.posix_expression.specs.Reading.{is_anchored_last as anchored_test};

use crate::tree::{Repeats, Tree, join};
use crate::unsaid::Unsaid;
use std::alloc::{AllocError, Global};

/// The alternatives that are done, and of the present one what stands before its last part, and this.
pub(crate) struct Level {
    done: Option<Tree>,
    before: Tree,
    last: Tree,
}

// By hand, so that a proof of an owner has one call at each exit, not a drop of each field.
impl Drop for Level {
    fn drop(self) {
        let Level {
            done: _,
            before: _,
            last: _,
        } = self;
    }
}

impl Level {
    /// Before the first part.
    pub(crate) fn fresh() -> Level
        ensures { level_of result ≡ fresh_level }
    {
        Level {
            done: None,
            before: Tree::Blank,
            last: Tree::Blank,
        }
    }

    // After one more part.
    fn add(self, alloc: Global, part: Tree) -> Result<Level, AllocError>
        ensures { IfOk result (λ level. level_of level ≡ level_added (level_of self) (expression_of part)) }
    {
        let Level { done, before, last } = self;
        let before = join(alloc, before, last)?;
        Ok(Level {
            done,
            before,
            last: part,
        })
    }

    // Whether the part may not stand here: what is anchored stands at an edge.
    fn is_closed_to(&self, part: &Tree) -> bool
        ensures { result ≡ closed_test (level_of self.now) (expression_of part.now) }
    {
        if self.last.has_end() {
            return true;
        }
        part.has_begin() && !self.last.is_blank() && !self.last.is_begin()
    }

    /// After one more part, if it may stand there.
    #[tactic(auto, unfolding(crate::specs::Reading::with_part))]
    pub(crate) fn with_part(self, alloc: Global, part: Tree) -> Result<Level, Unsaid>
        ensures { GivesUnlessMemory is_memory level_of result
            (level_with_part (level_of self) (expression_of part)) }
    {
        if self.is_closed_to(&part) {
            return Err(Unsaid::InnerAnchor);
        }
        let level = self.add(alloc, part)?;
        Ok(level)
    }

    /// After a `^`: before it stands no part but another one.
    #[tactic(auto, unfolding(crate::specs::Reading::with_begin))]
    pub(crate) fn with_begin(self) -> Result<Level, Unsaid>
        ensures { GivesUnlessMemory is_memory level_of result (level_with_begin (level_of self)) }
    {
        if self.last.is_begin() {
            return Ok(self);
        }
        if !self.last.is_blank() {
            return Err(Unsaid::InnerAnchor);
        }
        let Level {
            done,
            before,
            last: _,
        } = self;
        Ok(Level {
            done,
            before,
            last: Tree::Begin,
        })
    }

    /// After a `$`.
    #[tactic(auto, unfolding(crate::specs::Reading::with_end))]
    pub(crate) fn with_end(self, alloc: Global) -> Result<Level, AllocError>
        ensures { IfOk result (λ level. level_of level ≡ level_with_end (level_of self)) }
    {
        if self.last.is_end() {
            return Ok(self);
        }
        self.add(alloc, Tree::End)
    }

    // Whether there is no part to repeat.
    fn has_nothing_last(&self) -> bool
        ensures { result ≡ nothing_test (level_of self.now) }
    {
        self.last.is_blank() || self.last.is_begin() || self.last.is_end()
    }

    // Whether the last part has anchors.
    fn is_anchored_last(&self) -> bool
        ensures { result ≡ anchored_test (level_of self.now) }
    {
        self.last.has_begin() || self.last.has_end()
    }

    /// After repeats of the last part.
    #[tactic(auto, unfolding(crate::specs::Reading::with_repeats))]
    pub(crate) fn with_repeats(self, alloc: Global, repeats: Repeats) -> Result<Level, Unsaid>
        ensures { GivesUnlessMemory is_memory level_of result
            (level_with_repeats (level_of self) repeats) }
    {
        if self.has_nothing_last() {
            return Err(Unsaid::NothingToRepeat);
        }
        if self.is_anchored_last() {
            return Err(Unsaid::InnerAnchor);
        }
        let Level { done, before, last } = self;
        let part = Box::new(alloc, last)?;
        Ok(Level {
            done,
            before,
            last: Tree::Duplicated(part, repeats),
        })
    }

    /// The alternatives, with the present one.
    #[tactic(auto, unfolding(crate::specs::Reading::finished, crate::specs::Reading::with_alternative))]
    pub(crate) fn finished(self, alloc: Global) -> Result<Tree, AllocError>
        ensures { IfOk result (λ tree. expression_of tree ≡ level_finished (level_of self)) }
    {
        let Level { done, before, last } = self;
        let branch = join(alloc, before, last)?;
        match done {
            None => Ok(branch),
            Some(done) => {
                let done = Box::new(alloc, done)?;
                let branch = Box::new(alloc, branch)?;
                Ok(Tree::Alternated(done, branch))
            }
        }
    }

    /// After a `|`.
    #[tactic(auto, unfolding(crate::specs::Reading::with_bar))]
    pub(crate) fn with_bar(self, alloc: Global) -> Result<Level, AllocError>
        ensures { IfOk result (λ level. level_of level ≡ level_with_bar (level_of self)) }
    {
        let done = self.finished(alloc)?;
        Ok(Level {
            done: Some(done),
            before: Tree::Blank,
            last: Tree::Blank,
        })
    }
}

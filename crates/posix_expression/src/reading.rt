//! Reading a regular expression, as POSIX has its extended ones.

ghost use Rattle.std.specs.Prelude.{◌≡◌, length};
ghost use Rattle.basics.specs.Memory.{GivesUnlessMemory};
ghost use Rattle.posix_expression.specs.Memory.{is_memory};
ghost use Rattle.posix_expression.specs.Trees.{expression_of, level_of, state_of};
ghost use Rattle.posix_expression.specs.Reading.{start as start_state, in_level};
ghost use Rattle.posix_expression.specs.Reading.{with_part, with_begin, with_end, with_repeats};
ghost use Rattle.posix_expression.specs.Reading.{with_bar, opened, closed, with_symbol, with_sign};
ghost use Rattle.posix_expression.specs.Reading.{step as state_step, ended as state_ended};
ghost use Rattle.posix_expression.specs.Reading.{reading};
ghost use Rattle.std.specs.Prelude.{Ok};

use crate::level::Level;
use crate::lexing::{after_first, read_bracketed, read_escaped, read_repeats};
use crate::tree::{Repeats, Tree};
use crate::unsaid::Unsaid;
use basics::is_symbol;
use std::alloc::Global;

/// How many bytes an expression may have: no pattern has more.
const MOST_BYTES: usize = 400;

/// How deep parentheses may stand in one another.
const MOST_OPEN: usize = 30;

/// An expression that is being read: the present alternatives, and what stands around their
/// parentheses.
struct Reading {
    level: Level,
    outer: Vec<Level>,
}

// By hand, so that a proof of an owner has one call at each exit, not a drop of each field.
impl Drop for Reading {
    fn drop(self) {
        let Reading { level: _, outer: _ } = self;
    }
}

impl Reading {
    fn start(alloc: Global) -> Reading
        ensures { state_of result ≡ start_state }
    {
        Reading {
            level: Level::fresh(),
            outer: Vec::new(alloc),
        }
    }

    fn part(self, alloc: Global, part: Tree) -> Result<Reading, Unsaid>
        ensures { GivesUnlessMemory is_memory state_of result
            (in_level (state_of self) (with_part (level_of self.level) (expression_of part))) }
    {
        let Reading { level, outer } = self;
        let level = level.with_part(alloc, part)?;
        Ok(Reading { level, outer })
    }

    fn begin(self) -> Result<Reading, Unsaid>
        ensures { GivesUnlessMemory is_memory state_of result
            (in_level (state_of self) (with_begin (level_of self.level))) }
    {
        let Reading { level, outer } = self;
        let level = level.with_begin()?;
        Ok(Reading { level, outer })
    }

    fn end(self, alloc: Global) -> Result<Reading, Unsaid>
        ensures { GivesUnlessMemory is_memory state_of result
            (in_level (state_of self) (Ok (with_end (level_of self.level)))) }
    {
        let Reading { level, outer } = self;
        let level = level.with_end(alloc)?;
        Ok(Reading { level, outer })
    }

    fn repeats(self, alloc: Global, repeats: Repeats) -> Result<Reading, Unsaid>
        ensures { GivesUnlessMemory is_memory state_of result
            (in_level (state_of self) (with_repeats (level_of self.level) repeats)) }
    {
        let Reading { level, outer } = self;
        let level = level.with_repeats(alloc, repeats)?;
        Ok(Reading { level, outer })
    }

    fn bar(self, alloc: Global) -> Result<Reading, Unsaid>
        ensures { GivesUnlessMemory is_memory state_of result
            (in_level (state_of self) (Ok (with_bar (level_of self.level)))) }
    {
        let Reading { level, outer } = self;
        let level = level.with_bar(alloc)?;
        Ok(Reading { level, outer })
    }

    #[tactic(auto, unfolding(crate::specs::Reading::opened))]
    fn open(self) -> Result<Reading, Unsaid>
        ensures { GivesUnlessMemory is_memory state_of result (opened (state_of self)) }
    {
        let Reading { level, mut outer } = self;
        if outer.len() >= MOST_OPEN {
            return Err(Unsaid::TooDeep);
        }
        outer.push(level)?;
        Ok(Reading {
            level: Level::fresh(),
            outer,
        })
    }

    #[tactic(auto, unfolding(crate::specs::Reading::closed))]
    fn close(self, alloc: Global) -> Result<Reading, Unsaid>
        ensures { GivesUnlessMemory is_memory state_of result (closed (state_of self)) }
    {
        let Reading { level, mut outer } = self;
        let Some(around) = outer.pop() else {
            return Err(Unsaid::Unopened);
        };
        let inner = level.finished(alloc)?;
        let inner = Box::new(alloc, inner)?;
        let level = around.with_part(alloc, Tree::Subexpression(inner))?;
        Ok(Reading { level, outer })
    }

    // A symbol that represents itself.
    #[tactic(auto, unfolding(crate::specs::Reading::with_symbol))]
    fn symbol(self, alloc: Global, byte: u8) -> Result<Reading, Unsaid>
        ensures { GivesUnlessMemory is_memory state_of result (with_symbol (state_of self) byte) }
    {
        if !is_symbol(byte) {
            return Err(Unsaid::NotSymbol);
        }
        self.part(alloc, Tree::Symbol(byte))
    }

    // A sign or a symbol by itself.
    #[tactic(auto, unfolding(crate::specs::Reading::with_sign))]
    fn sign(self, alloc: Global, byte: u8) -> Result<Reading, Unsaid>
        ensures { GivesUnlessMemory is_memory state_of result (with_sign (state_of self) byte) }
    {
        match byte {
            b'^' => self.begin(),
            b'$' => self.end(alloc),
            b'|' => self.bar(alloc),
            b'(' => self.open(),
            b')' => self.close(alloc),
            b'*' => self.repeats(alloc, Repeats::Any),
            b'+' => self.repeats(alloc, Repeats::More),
            b'?' => self.repeats(alloc, Repeats::Optional),
            b'.' => self.part(alloc, Tree::Period),
            _ => self.symbol(alloc, byte),
        }
    }

    // What begins with this byte, and what comes after it.
    #[tactic(auto, unfolding(crate::specs::Reading::step))]
    fn step<'a>(
        self,
        alloc: Global,
        byte: u8,
        later: &'a [u8],
    ) -> Result<(Reading, &'a [u8]), Unsaid>
        ensures { GivesUnlessMemory is_memory (λ next. (state_of next.0, next.1.now)) result
            (state_step (state_of self) byte later.now) }
    {
        match byte {
            b'\\' => {
                let (symbol, rest) = read_escaped(later)?;
                let next = self.symbol(alloc, symbol)?;
                Ok((next, rest))
            }
            b'[' => {
                let (part, rest) = read_bracketed(alloc, later)?;
                let next = self.part(alloc, part)?;
                Ok((next, rest))
            }
            b'{' => {
                let (repeats, rest) = read_repeats(later)?;
                let next = self.repeats(alloc, repeats)?;
                Ok((next, rest))
            }
            _ => {
                let next = self.sign(alloc, byte)?;
                Ok((next, later))
            }
        }
    }

    // The expression, if no parenthesis is open.
    #[tactic(auto, unfolding(crate::specs::Reading::ended))]
    fn finish(self, alloc: Global) -> Result<Tree, Unsaid>
        ensures { GivesUnlessMemory is_memory expression_of result (state_ended (state_of self)) }
    {
        let Reading { level, outer } = self;
        if !outer.is_empty() {
            return Err(Unsaid::Unclosed);
        }
        let tree = level.finished(alloc)?;
        Ok(tree)
    }
}

/// The expression that a text spells, or why no pattern says it.
pub(crate) fn read_tree(alloc: Global, text: &[u8]) -> Result<Tree, Unsaid>
    ensures { GivesUnlessMemory is_memory expression_of result (reading text.now) }
{
    if text.len() > MOST_BYTES {
        return Err(Unsaid::TooLong);
    }
    let mut reading = Reading::start(alloc);
    let mut rest = text;
    'steps: for _step in 0..text.len() {
        if rest.is_empty() {
            return reading.finish(alloc);
        }
        let (next, after) = reading.step(alloc, rest[0], after_first(rest))?;
        reading = next;
        rest = after;
    }
    reading.finish(alloc)
}

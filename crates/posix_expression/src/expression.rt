//! Regular expressions, as what is searched for in the arguments of a command.

ghost use Rattle.std.specs.Prelude.{◌≡◌, ◌↔◌, ◌⊎◌, ◌&&◌, not, ℕ, List, [], IfOk, IfSome, IsTrue};
ghost use Rattle.std.specs.Prelude.{option_map};
ghost use Rattle.posix_expression.specs.Trees.{expression_of};
ghost use Rattle.basics.specs.Memory.{GivesUnlessMemory};
ghost use Rattle.basics.specs.Symbol.{is_text as text_test};
ghost use Rattle.pol_pattern.specs.Spelling.{Holds};
ghost use Rattle.posix_expression.specs.Memory.{is_memory};
ghost use Rattle.posix_expression.specs.Syntax.{Spells, blank, is_said};
ghost use Rattle.posix_expression.specs.Finding.{Finds, FindsInLine};
ghost use Rattle.posix_expression.specs.Reading.{reading};
ghost use Rattle.posix_expression.specs.Writing.{is_everything as everything_test};
ghost use Rattle.posix_expression.specs.Writing.{is_optional as optional_test, pattern_for};
ghost use Rattle.posix_expression.specs.Writing.{either as either_of, may_join as join_test};
ghost use Rattle.posix_expression.specs.Writing.{doubles as doubles_test, refusal_of};

use crate::reading::read_tree;
use crate::shape::are_same;
use crate::tree::Tree;
use crate::unsaid::Unsaid;
use basics::is_text;
use pol_pattern::{Pattern, PatternFault};
use std::alloc::{AllocError, Global};

/// How many `{m,}` may stand in one another: each is written as twice its part, and a pattern of more
/// would be longer than any.
const MOST_DOUBLED: u8 = 8;

/// What is searched for in the arguments of a command. A contract sees the expression.
pub struct Search {
    tree: Tree,
    ghost said: { IsTrue (is_said (expression_of tree)) },
}

// By hand, so that a proof of an owner has one call at each exit, not a drop of each field.
impl Drop for Search {
    fn drop(self) {
        let Search { tree: _ } = self;
    }
}

// Why no policy may have a pattern.
fn refusal(fault: PatternFault) -> Unsaid
    ensures { result ≡ refusal_of fault }
{
    match fault {
        PatternFault::Memory => Unsaid::Memory,
        _ => Unsaid::TooLarge,
    }
}

impl Search {
    ghost use Rattle.posix_expression.specs.Searched.{searched};

    /// What an expression searches for, or why no pattern says that. It is read as POSIX has its
    /// extended expressions.
    pub fn read(alloc: Global, text: &[u8]) -> Result<Search, Unsaid>
        // Which texts are read, and which fault it is.
        ensures exact { GivesUnlessMemory is_memory searched result (reading text.now) }

        // What is read is spelled so.
        ensures found { IfOk result (λ search. Spells text.now (searched search)) }
    {
        let tree = read_tree(alloc, text)?;
        Ok(Search { tree })
    }

    /// What is found in any arguments. Takes no memory.
    pub fn everything() -> Search
        ensures { searched result ≡ blank }
    {
        Search { tree: Tree::Blank }
    }

    /// Whether it is found in no arguments.
    pub fn is_optional(&self) -> bool
        ensures { IsTrue result ↔ Finds (searched self.now) [] }
    {
        self.tree.is_optional()
    }

    /// Whether it is found in any arguments.
    pub fn is_everything(&self) -> bool
        ensures exact { result ≡ everything_test (searched self.now) }
        ensures found { IsTrue result
            → (arguments : List ℕ) → Finds (searched self.now) arguments }
    {
        self.tree.is_everything()
    }

    /// What is found where this or the other is, if both are anchored alike.
    pub fn or(&self, alloc: Global, other: &Search) -> Result<Option<Search>, AllocError>
        ensures exact { IfOk result (λ both. option_map searched both
            ≡ either_of (searched self.now) (searched other.now)) }
        ensures found { IfOk result (λ both. IfSome both (λ search. (arguments : List ℕ)
            → Finds (searched search) arguments ↔ (Finds (searched self.now) arguments ⊎ Finds (searched other.now) arguments))) }
    {
        if !self.may_join(other) {
            return Ok(None);
        }
        let first = self.tree.copy(alloc)?;
        let second = other.tree.copy(alloc)?;
        let first = Box::new(alloc, first)?;
        let second = Box::new(alloc, second)?;
        Ok(Some(Search {
            tree: Tree::Alternated(first, second),
        }))
    }

    // Whether one pattern may say both: they are anchored alike, and neither is found anywhere.
    fn may_join(&self, other: &Search) -> bool
        ensures { result ≡ join_test (searched self.now) (searched other.now) }
    {
        let are_open = !self.tree.is_everything() && !other.tree.is_everything();
        are_open && are_same(self.tree.edges(), other.tree.edges())
    }

    // Whether its pattern is longer than any.
    fn is_long(&self) -> bool
        ensures { result ≡ (not (everything_test (searched self.now)) && doubles_test 8 (searched self.now)) }
    {
        !self.tree.is_everything() && self.tree.doubles(MOST_DOUBLED)
    }

    /// The pattern of the command's lines in whose arguments it is found, if a policy may have it. A
    /// line without arguments is the command alone.
    pub fn pattern(&self, alloc: Global, name: &[u8]) -> Result<Pattern, Unsaid>
        // Which pattern it is, and when there is none.
        ensures exact { GivesUnlessMemory is_memory (λ pattern. pattern) result
            (pattern_for name.now (searched self.now)) }

        // It holds a line exactly if the expression finds something in it.
        ensures lines { IfOk result (λ pattern. (line : List ℕ) → IsTrue (text_test line)
            → Holds pattern line ↔ FindsInLine name.now (searched self.now) line) }
    {
        if !is_text(name) {
            return Err(Unsaid::NotSymbol);
        }
        if self.is_long() {
            return Err(Unsaid::TooLarge);
        }
        let mut source = Vec::new(alloc);
        self.tree.write_line(name, &mut source)?;
        match Pattern::read(alloc, &source) {
            Ok(pattern) => Ok(pattern),
            Err(fault) => Err(refusal(fault)),
        }
    }
}

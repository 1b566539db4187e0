//! Words in the order in which they were found.

ghost use Rattle.std.specs.Prelude.{◌≡◌, ◌<◌, [], ◌∷◌, length, IfOk, OnOk, OnErr};
ghost use Rattle.pol_scan.specs.Words.{word_at, with_longer};

use crate::machine::Column;
use std::alloc::{AllocError, Global};
use std::marker::Model;

// A word that goes on from an earlier one.
#[derive(Clone, Copy)]
struct Branch {
    parent: usize,
    column: Column,
}

/// Words, each but the empty first one an earlier one with one more column.
#[derive(Drop)]
pub(crate) struct Words {
    branches: Vec<Branch>,
}

impl Model for Words {
    ghost use Rattle.std.specs.Prelude.{List, ℕ};
    ghost use Rattle.pol_scan.specs.Branches.{words_along, AreRooted};

    ghost Value = { List (List ℕ) };

    ghost view = { λ words. words_along words.branches.items };

    ghost invariant = { λ words. AreRooted words.branches.items };
}

impl Words {
    /// The empty word alone. Takes no memory.
    pub(crate) fn new(alloc: Global) -> Words
        ensures { result ≡ [] ∷ [] }
    {
        Words {
            branches: Vec::new(alloc),
        }
    }

    /// How many words there are.
    pub(crate) fn len(&self) -> usize
        ensures { result ≡ length self.now }
    {
        self.branches.len() + 1
    }

    /// Adds the word that goes on from an earlier one. Amortised constant time.
    pub(crate) fn push(&mut self, parent: usize, column: Column) -> Result<(), AllocError>
        requires { parent < length self.old }
        ensures ok { OnOk result (self.new ≡ with_longer self.old parent column) }
        ensures err { OnErr result (self.new ≡ self.old) }
    {
        self.branches.push(Branch { parent, column })?;
        Ok(())
    }

    /// The word of a number. Linear in its length.
    pub(crate) fn word_of(&self, alloc: Global, number: usize) -> Result<Vec<Column>, AllocError>
        requires { number < length self.now }
        ensures { IfOk result (λ word. word.items ≡ word_at self.now number) }
    {
        let mut word = Vec::new(alloc);
        let mut at = number;
        while at > 0 {
            let branch = self.branches[at - 1];
            word.push(branch.column)?;
            at = branch.parent;
        }
        word.reverse();
        Ok(word)
    }
}

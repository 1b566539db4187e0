//! Deterministic machines that read words over columns.

ghost use Rattle.std.specs.Prelude.{◌≡◌, ◌↔◌, ◌<◌, List, ℕ, [], true, IsTrue, IfOk};
ghost use Rattle.pol_scan.specs.Words.{longer};
ghost use Rattle.pol_scan.specs.Congruence.{Congruence, Keeps};

use std::alloc::AllocError;
use std::hash::Hash;

/// A column: a number below the width of the words that it stands in.
pub type Column = u8;

/// A deterministic machine. It may learn of its states as it goes, so a step may change it. Where
/// memory runs out it forgets nothing.
pub trait Machine {
    /// What tells words apart: words lead to equal states exactly if they are the same.
    type State: Eq + Hash + Drop;

    // Over how many columns words are, and which are the same.
    ghost congruence: { Self → Congruence };

    // By what is known, the word leads to the state.
    ghost leads: { Self → List ℕ → Self.State → Type 0 };

    // The second is the first, and may know more.
    ghost grows: { Self → Self → Type 0 };

    /// How many columns there are.
    fn width(&self) -> Column
        ensures { result ≡ (congruence self.now).width };

    /// The state of the empty word.
    fn start(&mut self) -> Result<Self::State, AllocError>
        ensures leads { IfOk result (λ state. leads self.new [] state) }
        ensures grows { grows self.old self.new };

    /// The state to which a state and a column lead. It is only asked of states to which words
    /// lead.
    fn step(&mut self, state: &Self::State, column: Column) -> Result<Self::State, AllocError>
        requires led { (word : List ℕ) × leads self.old word state.now }
        requires column { column < (congruence self.old).width }
        ensures leads { IfOk result (λ next. (word : List ℕ) → leads self.old word state.now
            → leads self.new (longer word column) next) }
        ensures grows { grows self.old self.new };

    ghost tells: { (m : Self) (u v : List ℕ) (s t : Self.State) → leads m u s → leads m v t
        → ((Self.State.eq s t ≡ true) ↔ (congruence m).same u v) };

    ghost keeps: { (a b : Self) → grows a b
        → Keeps (congruence a) (leads a) (congruence b) (leads b) };

    ghost reflexive: { (m : Self) → grows m m };

    ghost transitive: { (a b c : Self) → grows a b → grows b c → grows a c };
}

/// A machine some of whose states accept.
pub trait Acceptor: Machine {
    // The words that lead to a state which accepts.
    ghost accepted: { Self → List ℕ → Type 0 };

    /// Whether a state accepts. It is only asked of states to which words lead.
    fn accepts(&self, state: &Self::State) -> bool
        requires { (word : List ℕ) × Self.leads self.now word state.now }
        ensures { (word : List ℕ) → Self.leads self.now word state.now
            → (IsTrue result ↔ accepted self.now word) };

    ghost respects: { (m : Self) (u v : List ℕ) → (Self.congruence m).same u v
        → accepted m u → accepted m v };

    ghost stays: { (a b : Self) → Self.grows a b → (word : List ℕ)
        → accepted a word ↔ accepted b word };
}

//! What a store is to hold, and an answer that waits for it.

ghost use Rattle.std.specs.Prelude.{◌≡◌, ◌≤◌, ℕ, List, length, Option, Some, None, Result};
ghost use Rattle.std.specs.Prelude.{IfOk, IfErr, OnOk, OnErr};
ghost use Rattle.std.specs.Io.{WritesAtMost};
ghost use Rattle.std.specs.Io.KnownBytes.{WriteAppends};
ghost use Rattle.std.specs.declared.io.Error.{Error};
ghost use Rattle.tac_keep.specs.Kept.{Holds, IsKeptOrAsBefore, IsSaid, IsWhy, Owes, Sends, Settles};

use crate::tray::Wanted;
use std::fmt;
use std::io::{self, Write};

/// What holds a text until another takes its place, or until it is emptied: the text is whole at
/// each moment, the one or the other.
pub trait Store {
    /// What it holds, where that is known: a text, or none.
    ghost held: { Self → Option (Option (List ℕ)) };

    /// It may refuse this text, or to hold none, and say this.
    ghost refuses: { Self → Option (List ℕ) → Error → Type 0 };

    /// Puts a text in the place of what it holds. The error is the system's; then it holds either.
    fn replace(&mut self, text: &[u8]) -> io::Result<()>
        ensures ok { OnOk result (Holds (held self.new) (Some text.now)) }
        ensures err { OnErr result
            (IsKeptOrAsBefore (held self.old) (held self.new) (Some text.now)) }
        ensures why { IfErr result (λ error. refuses self.old (Some text.now) error) };

    /// Empties it. The error is the system's; then it may be empty or not.
    fn remove(&mut self) -> io::Result<()>
        ensures ok { OnOk result (Holds (held self.new) None) }
        ensures err { OnErr result (IsKeptOrAsBefore (held self.old) (held self.new) None) }
        ensures why { IfErr result (λ error. refuses self.old None error) };
}

/// What answers are written to.
pub trait Answers {
    /// What was written, where that is known.
    ghost written: { Self → Option (List ℕ) };

    /// To these bytes it may say that it took so many, or why it took none.
    ghost says: { Self → List ℕ → Result ℕ Error → Type 0 };

    /// Writes an answer, or the beginning that it takes. The error is the system's; then it took
    /// nothing.
    fn answer(&mut self, answer: &[u8]) -> io::Result<usize>
        ensures says { says self.old answer.now result }
        ensures bound { WritesAtMost result answer.now }
        ensures bytes { WriteAppends (written self.old) (written self.new) result answer.now };
}

impl<W: Write> Answers for W {
    ghost written = { W.contents };

    // what a stream takes is in no contract
    ghost says = { λ _ _ _. Unit {0} };

    fn answer(&mut self, answer: &[u8]) -> io::Result<usize> {
        self.write(answer)
    }
}

/// Why a store doesn't hold what it is to hold.
#[derive(Drop)]
pub enum Unkept {
    /// The system says why.
    Failed(io::Error),
    /// There was no memory to print the policy.
    Memory,
}

impl fmt::Display for Unkept {
    fn fmt<W: fmt::Write>(&self, f: &mut fmt::Formatter<W>) -> fmt::Result {
        match self {
            Unkept::Failed(error) => write!(f, "{error}"),
            Unkept::Memory => write!(f, "memory ran out"),
        }
    }
}

/// Why an answer isn't written.
#[derive(Drop)]
pub enum Untold {
    /// The store doesn't hold what is to be held before.
    NotKept(Unkept),
    /// The stream took nothing.
    Unwritten(io::Error),
}

/// A store, and what it is to hold and may not hold yet.
#[derive(Drop)]
pub struct Keeper<S> {
    store: S,
    owed: Option<Wanted>,
}

impl<S: Store> Keeper<S> {
    /// A store that holds what it is to hold.
    pub fn new(store: S) -> Keeper<S>
        ensures store { result.store ≡ «store» }
        ensures owed { result.owed ≡ None }
    {
        Keeper { store, owed: None }
    }

    /// The store is to hold this from now on.
    pub fn owe(&mut self, wanted: Wanted)
        ensures store { self.new.store ≡ self.old.store }
        ensures owed { self.new.owed ≡ Some wanted }
    {
        self.owed = Some(wanted);
    }

    /// Sees that the store holds what it is to hold.
    pub(crate) fn settle(&mut self) -> Result<(), Unkept>
        ensures ok { OnOk result (Settles S.held self.old self.new) }
        ensures err { OnErr result (Owes S.held self.old self.new) }
        ensures why { IfErr result (IsWhy S.refuses self.old.store self.old.owed) }
    {
        match &self.owed {
            None => return Ok(()),
            Some(Wanted::Text(text)) => {
                self.store.replace(text.as_slice()).map_err(Unkept::Failed)?
            }
            Some(Wanted::Nothing) => self.store.remove().map_err(Unkept::Failed)?,
            Some(Wanted::Unprinted) => return Err(Unkept::Memory),
        }
        self.owed = None;
        Ok(())
    }
}

/// Writes an answer, or the beginning that the stream takes, once the store holds what it is to
/// hold. Where it doesn't, nothing is written, and it is tried again next time.
pub fn send_kept<S: Store, A: Answers>(
    keeper: &mut Keeper<S>,
    stream: &mut A,
    answer: &[u8],
) -> Result<usize, Untold>
    ensures sends { Sends S.held result answer.now keeper.old keeper.new
        (A.written stream.old) (A.written stream.new) }
    ensures bound { IfOk result (λ taken. taken ≤ length answer.now) }

    // It is refused only as the store or the stream refuses it, or where the policy that is owed
    // could not be printed.
    ensures said { IsSaid S.refuses (A.says stream.old answer.now) keeper.old result }
{
    keeper.settle().map_err(Untold::NotKept)?;
    stream.answer(answer).map_err(Untold::Unwritten)
}

//! What happens at a hall.

use crate::call::{Call, CallAnswer};
use std::alloc::{AllocError, Global};
use std::marker::Model;
use std::snapshot::Snapshot;
use tac_roll::{Keeper, Roll};

/// A value of which contracts alone know. It has no bytes.
#[derive(Drop)]
pub struct Told<T> {
    snapshot: Snapshot<T>,
}

impl<T> Model for Told<T> {
    ghost Value = { T };

    ghost view = { λ told. told.snapshot.value };
}

impl<T> Told<T> {
    ghost use Rattle.std.specs.Prelude.{◌≡◌};

    /// This value, as it is now.
    pub(crate) fn of(value: &T) -> Told<T>
        ensures { result ≡ value.now }
    {
        Told {
            snapshot: Snapshot::of(value),
        }
    }
}

/// What a seat did. The history has it in proofs alone: a value of it lives for one step, and holds
/// neither the call nor the answer.
pub enum Event {
    /// It made a call, which had this answer.
    Called(Told<Call>, Told<CallAnswer>),
    /// It had the next segment begin.
    Rotated,
    /// The next segment began by itself, before a call that it made.
    RotatedByItself,
}

// By hand, so that a proof of an owner has one call at each exit, not a drop of each field.
impl Drop for Event {
    fn drop(self) {
        match self {
            Event::Called(_, _) => {}
            Event::Rotated => {}
            Event::RotatedByItself => {}
        }
    }
}

/// A history in which nothing has happened. A contract sees which one it is, by which a run of a
/// server is picked.
#[derive(Drop)]
pub struct EmptyHistory {
    pub(crate) roll: Roll<Event>,
    pub(crate) keeper: Keeper<Event>,
}

impl Model for EmptyHistory {
    ghost use Rattle.std.specs.Prelude.{◌≡◌, []};
    ghost use Rattle.tac_roll.specs.Roll.{RollId};

    ghost Value = { RollId };

    ghost view = { λ history. history.roll };

    ghost invariant = { λ history.
        history.keeper ≡ record { roll = history.roll; all = []; members = 0 } };
}

impl EmptyHistory {
    /// The error means that memory ran out for its one word.
    pub fn new(alloc: Global) -> Result<EmptyHistory, AllocError> {
        let (roll, keeper) = Roll::new(alloc)?;
        Ok(EmptyHistory { roll, keeper })
    }
}

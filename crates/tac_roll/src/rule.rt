//! What those who share a roll know of it, and how that changes.

use atomic_table::{Join, Play, Split, TableRule};
use std::collections::LinkedList;
use std::marker::{Brand, PhantomData};

/// What one who shares a roll knows of it: the keeper all items, and how many members there are; a
/// member its number, and all items up to its last. No value of it is ever made.
pub struct View<E> {
    pub is_keeper: bool,
    pub all: LinkedList<(u64, E)>,
    pub members: u64,
    pub is_member: bool,
    pub number: u64,
    pub seen: LinkedList<(u64, E)>,
}

/// The rule of a roll.
pub struct Law;

impl<E> TableRule<(), View<E>, ()> for Law {
    ghost use Rattle.std.specs.Prelude.{[]};
    ghost use Rattle.tac_roll.specs.Roll.{keeper_of, IsKept};

    ghost holds = { λ _ state. IsKept state.views };

    ghost first = { λ _. keeper_of [] 0 };
}

/// What is added, which may be nothing. A view changes by functions of views alone, so an item
/// comes in as a ghost member, which the call picks.
pub(crate) trait Carries<E> {
    ghost use Rattle.std.specs.Prelude.{List};

    ghost items: { List E };
}

impl<E> Carries<E> for Brand {
    ghost use Rattle.std.specs.Prelude.{[]};

    ghost items = { [] };
}

/// Nothing is added.
pub(crate) struct Nothing;

impl<E> Carries<E> for Nothing {
    ghost use Rattle.std.specs.Prelude.{[]};

    ghost items = { [] };
}

/// A member is admitted.
pub(crate) struct Admits;

impl<E> Split<View<E>> for Admits {
    ghost use Rattle.tac_roll.specs.Roll.{with_one_more, newcomer};

    ghost left = { with_one_more };

    ghost right = { newcomer };
}

/// The keeper takes in what a member knows.
pub(crate) struct TakesIn;

impl<E> Join<View<E>> for TakesIn {
    ghost use Rattle.tac_roll.specs.Roll.{both, nobody};

    ghost both = { both };

    ghost spent = { nobody };
}

/// The keeper gives back the member that it took in.
pub(crate) struct GivesBack;

impl<E> Split<View<E>> for GivesBack {
    ghost use Rattle.tac_roll.specs.Roll.{keeper_alone, member_alone};

    ghost left = { keeper_alone };

    ghost right = { member_alone };
}

/// The keeper adds for the member that it took in, and gives it back.
pub(crate) struct Adds<C> {
    of: PhantomData<C>,
}

impl<E, C: Carries<E>> Split<View<E>> for Adds<C> {
    ghost use Rattle.tac_roll.specs.Roll.{kept_after, member_after};

    ghost left = { kept_after C.items };

    ghost right = { member_after C.items };
}

/// The keeper compares what it knows.
pub(crate) struct Looks;

impl<E> Play<(), View<E>> for Looks {
    ghost use Rattle.tac_roll.specs.Roll.{Compares};

    ghost then = { Compares };
}

//! A roll, its keeper and its members.

ghost use Rattle.std.specs.Prelude.{◌≡◌, ◌++◌, ◌∷◌, [], suc, IfOk};
ghost use Rattle.tac_roll.specs.Roll.{Knows, AreGiven};

use crate::rule::{Adds, Admits, Carries, GivesBack, Law, Looks, Nothing, TakesIn, View};
use atomic_table::{Seat, Table};
use std::alloc::{AllocError, Global};
use std::marker::{Brand, Model};

/// A list of items, each added for one of the members. No item is stored: what was added is known
/// in proofs alone, and what stays in memory is one word, which never changes. A contract sees
/// which roll it is.
#[derive(Drop)]
pub struct Roll<E> {
    table: Table<(), View<E>, (), Law, Global>,
}

impl<E> Model for Roll<E> {
    ghost use Rattle.std.specs.Prelude.{◌<◌};
    ghost use Rattle.tac_roll.specs.Roll.{RollId};

    ghost Value = { RollId };

    ghost view = { λ roll. roll.table.shared.table_id };

    ghost invariant = { λ roll. 0 < roll.table.shared.table_id.words };
}

/// Who adds: there is one of a roll. It has no bytes. A contract sees all items, and how many
/// members were admitted.
#[derive(Drop)]
pub struct Keeper<E> {
    seat: Seat<(), View<E>>,
}

impl<E> Model for Keeper<E> {
    ghost use Rattle.std.specs.Prelude.{◌≡◌, []};
    ghost use Rattle.tac_roll.specs.Roll.{Keeping, keeper_of};

    ghost Value = { Keeping E };

    ghost view = { λ keeper. record {
      roll = keeper.seat.table_id;
      all = keeper.seat.me.0.all;
      members = keeper.seat.me.0.members;
    } };

    ghost invariant = { λ keeper. keeper.seat.me
        ≡ (keeper_of keeper.seat.me.0.all keeper.seat.me.0.members, []) };
}

/// For whom is added: no two of a roll have one number. It has no bytes. A contract sees the
/// number, and all items up to the last that was added for it.
#[derive(Drop)]
pub struct Member<E> {
    seat: Seat<(), View<E>>,
}

impl<E> Model for Member<E> {
    ghost use Rattle.std.specs.Prelude.{◌≡◌, []};
    ghost use Rattle.tac_roll.specs.Roll.{Membership, member_of};

    ghost Value = { Membership E };

    ghost view = { λ member. record {
      roll = member.seat.table_id;
      number = member.seat.me.0.number;
      seen = member.seat.me.0.seen;
    } };

    ghost invariant = { λ member. member.seat.me
        ≡ (member_of member.seat.me.0.number member.seat.me.0.seen, []) };
}

impl<E> Roll<E> {
    /// An empty roll without members, and its keeper. The error means that memory ran out for its
    /// one word.
    pub fn new(alloc: Global) -> Result<(Roll<E>, Keeper<E>), AllocError>
        ensures { IfOk result (λ made. made.1 ≡ record { roll = made.0; all = []; members = 0 }) }
    {
        let (table, seat) = Table::of_words(alloc, &[0], &())?;
        Ok((Roll { table }, Keeper { seat }))
    }

    /// A new member, under the next number. Takes constant time and no memory.
    pub fn admit(&self, keeper: &mut Keeper<E>) -> Member<E>
        requires { keeper.old.roll ≡ self.now }
        ensures keeper { keeper.new ≡ record keeper.old { members = suc keeper.old.members } }
        ensures member { result ≡ record {
          roll = self.now;
          number = keeper.old.members;
          seen = keeper.old.all;
        } }
    {
        Member {
            seat: self.table.shared.split_seat::<Admits>(&mut keeper.seat),
        }
    }

    /// Adds an item for a member, which has then seen all. What it had seen was a beginning of what
    /// there was, and nothing was added for it since. Takes constant time and no memory: the item
    /// is not stored.
    pub fn add(&self, keeper: &mut Keeper<E>, member: Member<E>, item: &E) -> Member<E>
        requires { (keeper.old.roll ≡ self.now) × (member.roll ≡ self.now) }
        ensures keeper { keeper.new ≡ record keeper.old {
          all = keeper.old.all ++ (member.number, item.now) ∷ [];
        } }
        ensures member { result ≡ record member { seen = keeper.new.all } }
        ensures knows { Knows keeper.old.all member.number member.seen }
    {
        add_as::<E, Brand>(self, keeper, member, item)
    }

    /// Has a member see all, without an item of its own. What it had seen was a beginning of that,
    /// and nothing was added for it since. Takes constant time and no memory.
    pub fn catch_up(&self, keeper: &mut Keeper<E>, member: Member<E>) -> Member<E>
        requires { (keeper.old.roll ≡ self.now) × (member.roll ≡ self.now) }
        ensures keeper { keeper.new ≡ keeper.old }
        ensures member { result ≡ record member { seen = keeper.old.all } }
        ensures knows { Knows keeper.old.all member.number member.seen }
    {
        let Member { seat } = member;
        let shared = &self.table.shared;
        shared.join_seat::<TakesIn>(&mut keeper.seat, seat);
        shared.load::<Looks>(&mut keeper.seat, 0);
        Member {
            seat: shared.split_seat::<Adds<Nothing>>(&mut keeper.seat),
        }
    }

    /// Compares what a member knows with what there is: what it has seen is a beginning of that,
    /// and nothing was added for it since. Each item was added for one of the members. Takes
    /// constant time and no memory.
    pub fn compare(&self, keeper: &mut Keeper<E>, member: Member<E>) -> Member<E>
        requires { (keeper.old.roll ≡ self.now) × (member.roll ≡ self.now) }
        ensures same { (keeper.new ≡ keeper.old) × (result ≡ member) }
        ensures knows { Knows keeper.old.all member.number member.seen }
        ensures given { AreGiven keeper.old.members keeper.old.all }
    {
        let Member { seat } = member;
        let shared = &self.table.shared;
        shared.join_seat::<TakesIn>(&mut keeper.seat, seat);
        shared.load::<Looks>(&mut keeper.seat, 0);
        Member {
            seat: shared.split_seat::<GivesBack>(&mut keeper.seat),
        }
    }

    /// Tells that each item was added for one of the members, also where there are none to compare.
    /// Takes constant time and no memory.
    pub fn look(&self, keeper: &mut Keeper<E>)
        requires { keeper.old.roll ≡ self.now }
        ensures same { keeper.new ≡ keeper.old }
        ensures given { AreGiven keeper.old.members keeper.old.all }
    {
        self.table.shared.load::<Looks>(&mut keeper.seat, 0);
    }
}

// Adds an item that the call picks.
fn add_as<E, C: Carries<E>>(
    roll: &Roll<E>,
    keeper: &mut Keeper<E>,
    member: Member<E>,
    item: &E,
) -> Member<E>
    requires picked { C.items ≡ item.now ∷ [] }
    requires roll { (keeper.old.roll ≡ roll.now) × (member.roll ≡ roll.now) }
    ensures keeper { keeper.new ≡ record keeper.old {
      all = keeper.old.all ++ (member.number, item.now) ∷ [];
    } }
    ensures member { result ≡ record member { seen = keeper.new.all } }
    ensures knows { Knows keeper.old.all member.number member.seen }
{
    let Member { seat } = member;
    let shared = &roll.table.shared;
    shared.join_seat::<TakesIn>(&mut keeper.seat, seat);
    shared.load::<Looks>(&mut keeper.seat, 0);
    Member {
        seat: shared.split_seat::<Adds<C>>(&mut keeper.seat),
    }
}

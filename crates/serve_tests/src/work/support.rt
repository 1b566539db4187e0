//! What the tests share: new halls, and connections that are served there.

ghost use Rattle.std.specs.Prelude.{◌≡◌};

use crate::hall::support::closes;
use crate::work::streams::{Scribe, Sink};
use pol_text::{Policy, PolicyFault};
use std::alloc::Global;
use std::io::Read;
use std::marker::Brand;
use std::sync::Wait;
use std::test::Fail;
use tac_desk::Desk;
use tac_desks::PlainDesk;
use tac_hall::{Call, EmptyHistory, Hall, Limits, Run};
use tac_wire::{Door, Key};
use tac_worker::{CHUNK, Caller, Due, End, HallCaller, Link, Steady, Terms};

pub(crate) fn door() -> Result<Door, Fail> {
    Ok(Door::Padded(Key::read(b"k").ok_or("no key")?))
}

/// A policy under which bob may show things, and log in.
pub(crate) fn bob(alloc: Global) -> Result<Policy, PolicyFault> {
    Policy::read(alloc, b"user bob\nlogin secret\npermit show .*\n")
}

/// What a test does by a seat of a new hall.
pub(crate) trait Course: Drop {
    /// The limits of the hall, and whether another seat has stopped it.
    fn opens(&self) -> (Limits, bool);

    /// It is done, and the caller comes back.
    fn runs<C: Steady, R: Wait + AllocGlobal>(&self, rt: &R, caller: C) -> Result<C, Fail>;
}

fn runs_at<J: Run, D: Desk, K: Course, R: Wait + AllocGlobal>(
    rt: &R,
    history: EmptyHistory,
    desk: D,
    limits: Limits,
    is_stopped: bool,
    course: K,
) -> Result<(), Fail>
    requires roll { history ≡ J.roll }
    requires opening { record { meaning = D.meaning desk; limits = limits } ≡ J.opening }
{
    let hall: Hall<J, D> = Hall::new(history, desk, limits);
    let mut seats = Vec::with_capacity(rt.alloc(), 2)?;
    let mut other = hall.seat(rt)?;
    if is_stopped && hall.call(rt, &mut other, &Call::Stop).is_err() {
        return Err(Fail::from("no stop"));
    }
    let caller = course.runs(rt, HallCaller::new(rt, &hall, hall.seat(rt)?))?;
    seats.push(caller.into_seat())?;
    seats.push(other)?;
    closes(hall, seats)
}

/// The course is run at a new hall round this desk, which is closed then.
pub(crate) fn runs<D: Desk, K: Course, R: Wait + AllocGlobal>(
    rt: &R,
    desk: D,
    course: K,
) -> Result<(), Fail> {
    let history = EmptyHistory::new(rt.alloc())?;
    let (limits, is_stopped) = course.opens();
    runs_at::<Brand, D, K, R>(rt, history, desk, limits, is_stopped, course)
}

/// The same round a desk of bob's policy.
pub(crate) fn runs_for_bob<K: Course, R: Wait + AllocGlobal>(
    rt: &R,
    course: K,
) -> Result<(), Fail> {
    let policy = bob(rt.alloc())?;
    runs(rt, PlainDesk::new(rt.alloc(), policy, 9)?, course)
}

/// Serves a connection as far as it gets on: how it ended, if it did, and its witness.
pub(crate) fn serves<C: Caller, I: Read>(
    terms: &Terms<'_>,
    caller: &mut C,
    scribe: Scribe,
    reader: &mut I,
    writer: &mut Sink,
) -> (Option<End>, Scribe) {
    let mut link = Link::new(terms, scribe, caller);
    let mut chunk = [0; CHUNK];
    for _ in 0..2_000 {
        match link.due() {
            Due::Turn => link.turn(terms, caller),
            Due::Hear => link.hear(reader, &mut chunk),
            Due::Send => {
                let _ = link.send(writer);
            }
            Due::Close => {}
        }
    }
    (link.end(), link.into_witness())
}

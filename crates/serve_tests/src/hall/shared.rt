//! Conversations with a new hall, and calls of three threads at once.

ghost use Rattle.std.specs.Prelude.{◌≡◌};

use crate::hall::support::{OPS, closes, converses, desk_of, seats_of, show_version, talks};
use std::marker::Brand;
use std::sync::Wait;
use std::test::Fail;
use std::thread::{Threads, map_vec};
use tac_desk::Desk;
use tac_hall::{EmptyHistory, Hall, Limits, Run, Seat};

/// No log of these tests takes nearly so many calls, so that no segment begins by itself.
pub(crate) const NEVER: usize = 9_999;

/// A conversation, the limits of the hall at which it is, and which segment is the last then, with the
/// count of its calls. They are one value, since no run is picked at a call that is handed a text.
#[derive(Clone, Copy)]
pub(crate) struct Talk {
    pub(crate) limits: Limits,
    pub(crate) lines: &'static str,
    pub(crate) last: (u64, usize),
}

fn holds<J: Run, D: Desk, R: Wait + AllocGlobal>(
    rt: &R,
    history: EmptyHistory,
    desk: D,
    talk: Talk,
) -> Result<(), Fail>
    requires roll { history ≡ J.roll }
    requires opening { record { meaning = D.meaning desk; limits = talk.limits } ≡ J.opening }
{
    let hall: Hall<J, D> = Hall::new(history, desk, talk.limits);
    converses(rt, hall, talk.lines, talk.last)
}

/// A conversation with a new hall.
pub(crate) fn shares<D: Desk, R: Wait + AllocGlobal>(
    rt: &R,
    desk: D,
    talk: Talk,
) -> Result<(), Fail> {
    let history = EmptyHistory::new(rt.alloc())?;
    holds::<Brand, D, R>(rt, history, desk, talk)
}

// A seat that has asked so often.
fn asked<J: Run, D: Desk, R: Wait + AllocGlobal>(
    rt: &R,
    hall: &Hall<J, D>,
    mut seat: Seat<J>,
    asks: usize,
) -> Seat<J> {
    for _ in 0..asks {
        if let Ok(call) = show_version(rt.alloc()) {
            let _ = hall.call(rt, &mut seat, &call);
        }
    }
    seat
}

// Of 100,000 calls one seat makes half, and two make a quarter each, in threads of their own.
fn asks_at_once<J: Run + Send + Sync, D: Desk + Send, R: Threads + Wait + Sync + AllocGlobal>(
    rt: &R,
    history: EmptyHistory,
    desk: D,
    talk: Talk,
) -> Result<(), Fail>
    requires roll { history ≡ J.roll }
    requires opening { record { meaning = D.meaning desk; limits = talk.limits } ≡ J.opening }
{
    let hall: Hall<J, D> = Hall::new(history, desk, talk.limits);
    let seats = seats_of(rt, &hall, 3)?;
    let mut seats = map_vec(
        rt,
        seats,
        &|seat| {
            let asks = if seat.number() == 0 { 50_000 } else { 25_000 };
            asked(rt, &hall, seat, asks)
        },
    )?;
    talks(rt, &hall, seats.as_mut_slice(), talk.lines)?;
    closes(hall, seats)
}

fn asks_all<D: Desk + Send, R: Threads + Wait + Sync + AllocGlobal>(
    rt: &R,
    desk: D,
    talk: Talk,
) -> Result<(), Fail> {
    let history = EmptyHistory::new(rt.alloc())?;
    asks_at_once::<Brand, D, R>(rt, history, desk, talk)
}

// Each segment has 32,767 of the calls, whoever made them.
#[test]
fn a_history_of_100_000_calls(rt: HostRuntime) -> Result<(), Fail> {
    asks_all(
        &rt,
        desk_of(rt.alloc(), OPS)?,
        Talk {
            limits: Limits {
                calls: 65_536,
                rotate_at: 32_768,
            },
            lines: "
        2 run bob show version = 3:1699 permitted
        1 rotate = 3 of 1700
        0 stop = 4:0 stopped
        ",
            last: (4, 1),
        },
    )
}

//! Connections, their turns, and why they are left: a reply has 18 bytes.

use crate::hall::shared::NEVER;
use crate::work::packets::{LOGINS, PASSES, PERMISSIONS, QUESTIONS};
use crate::work::pipe::{Pace, Pipe, WHOLE};
use crate::work::support::{Course, door, runs_for_bob};
use std::alloc::Global;
use std::sync::Wait;
use std::test::Fail;
use tac_audit::Nobody;
use tac_hall::Limits;
use tac_wire::Door;
use tac_worker::{CHUNK, Steady, Switchboard, Terms};

// Connections that give these bytes at this pace have so many turns each, one connection after another, so
// many times. Why each is left each time, if that is asked, and the first bytes of what is written, first
// on the first.
#[derive(Clone, Copy)]
struct Turns {
    asked: &'static [&'static str],
    pace: Pace,
    turns: u32,
    times: u32,
    seen: Option<&'static str>,
    written: &'static [&'static str],
    bytes: usize,
}

// These bytes, one text after another.
fn decoded(alloc: Global, texts: &[&str]) -> Result<Vec<u8>, Fail> {
    let mut bytes = Vec::new(alloc);
    for text in texts {
        bytes.extend_from_slice(hex::decode(alloc, text.as_bytes())?.as_slice())?;
    }
    Ok(bytes)
}

// What is seen, and what is written; the caller comes back.
fn leaves<'x, C: Steady>(
    caller: C,
    alloc: Global,
    door: &'x Door,
    asked: &'x [Vec<u8>],
    course: Turns,
) -> Result<(C, String, Vec<u8>), Fail> {
    let terms = Terms { alloc, door };
    let mut board = Switchboard::new(alloc, caller);
    let (mut keys, mut seen, mut written) = (Vec::new(alloc), String::new(alloc), Vec::new(alloc));
    for bytes in asked {
        match board.add(
            &terms,
            Nobody,
            Pipe::new(alloc, bytes.as_slice(), course.pace),
        ) {
            Ok(key) => keys.push(key)?,
            Err(_) => return Err(Fail::from("not added")),
        }
    }
    let mut chunk = [0; CHUNK];
    for _ in 0..course.times {
        for key in keys.iter() {
            let stop = board.serve(*key, &terms, &mut chunk, course.turns);
            write!(seen, "{stop:?} ")?;
        }
    }
    for key in keys.iter() {
        let (_, pipe) = board.remove(*key).ok_or("no connection")?.into_parts();
        written.extend_from_slice(pipe.taken.as_slice())?;
    }
    Ok((board.into_caller(), seen, written))
}

impl Course for Turns {
    fn opens(&self) -> (Limits, bool) {
        let limits = Limits {
            calls: 99,
            rotate_at: NEVER,
        };
        (limits, false)
    }

    fn runs<C: Steady, R: Wait + AllocGlobal>(&self, rt: &R, caller: C) -> Result<C, Fail> {
        let alloc = rt.alloc();
        let mut asked = Vec::new(alloc);
        for text in self.asked {
            asked.push(hex::decode(alloc, text.as_bytes())?)?;
        }
        let door = door()?;
        let (caller, seen, written) = leaves(caller, alloc, &door, asked.as_slice(), *self)?;
        if let Some(wanted) = self.seen {
            if seen.as_str().trim_end() != wanted {
                return Err(Fail::from(seen));
            }
        }
        let wanted = decoded(alloc, self.written)?;
        if written.len() != self.bytes || !wanted.as_slice().starts_with(written.as_slice()) {
            return Err(Fail::from("other bytes"));
        }
        Ok(caller)
    }
}

// A connection with two questions is left so, after so many bytes of their answers.
fn is_left<R: Wait + AllocGlobal>(
    rt: &R,
    pace: Pace,
    turns: u32,
    times: u32,
    wanted: (&'static str, usize),
) -> Result<(), Fail> {
    let (seen, bytes) = wanted;
    let course = Turns {
        asked: &[QUESTIONS],
        pace,
        turns,
        times,
        seen: Some(seen),
        written: &[PERMISSIONS],
        bytes,
    };
    runs_for_bob(rt, course)
}

#[test]
fn until_its_end_or_until_it_would_wait(rt: HostRuntime) -> Result<(), Fail> {
    is_left(&rt, WHOLE, 16, 2, ("Ended(Finished) Ended(Finished)", 36))?;
    is_left(&rt, WHOLE, 3, 3, ("Busy Busy Ended(Finished)", 36))?;
    let open = Pace {
        ends: false,
        ..WHOLE
    };
    is_left(&rt, open, 16, 2, ("Idle Idle", 36))?;
    let pauses = Pace {
        pauses: true,
        ..WHOLE
    };
    is_left(
        &rt,
        pauses,
        16,
        5,
        ("Idle Full Full Idle Ended(Finished)", 36),
    )?;
    is_left(
        &rt,
        Pace { room: 20, ..WHOLE },
        16,
        2,
        ("Broken Broken", 20),
    )
}

// The first asks and the second logs in, a byte at a time, and every other call finds the socket
// not ready.
#[test]
fn each_has_its_own(rt: HostRuntime) -> Result<(), Fail> {
    let pace = Pace {
        piece: 1,
        pauses: true,
        ..WHOLE
    };
    let course = Turns {
        asked: &[QUESTIONS, LOGINS],
        pace,
        turns: 1,
        times: 2000,
        seen: None,
        written: &[PERMISSIONS, PASSES],
        bytes: 128,
    };
    runs_for_bob(&rt, course)
}

//! Readers and writers that fail in mid-stream, that give or take little, and that are interrupted.

use crate::hall::shared::NEVER;
use crate::work::packets::{
    FAILURE, LOGINS, PASSES, PERMISSION, PERMISSIONS, QUESTION, QUESTIONS, WRONG_LOGIN,
};
use crate::work::streams::{Manner, Scribe, Sink, Source, WHOLE};
use crate::work::support::{Course, door, runs_for_bob, serves};
use std::alloc::Global;
use std::sync::Wait;
use std::test::Fail;
use tac_hall::Limits;
use tac_worker::{Caller, End, Steady, Terms};

// How a connection comes to its end: what comes on it, how many bytes there is room for, and how these
// are given and taken.
#[derive(Clone, Copy)]
struct Way<'a> {
    asked: &'a [u8],
    given: Manner,
    room: usize,
    taken: Manner,
}

// Serves such a connection, which ends so, after its witness was told this, with these bytes
// sent.
fn ends<C: Caller, R: Wait + AllocGlobal>(
    rt: &R,
    caller: &mut C,
    way: Way<'_>,
    wanted: (Option<End>, &str, &[u8]),
) -> Result<(), Fail> {
    let alloc = rt.alloc();
    let mut source = Source::new(way.asked, way.given);
    let mut sink = Sink::new(alloc, way.room, way.taken);
    let scribe = Scribe {
        told: String::new(alloc),
        takes: 99,
    };
    let door = door()?;
    let terms = Terms { alloc, door: &door };
    let (end, scribe) = serves(&terms, caller, scribe, &mut source, &mut sink);
    if (end, scribe.told.as_str(), sink.taken.as_slice()) == wanted {
        return Ok(());
    }
    Err(Fail::from(format!(in alloc; "{end:?} at {} bytes", wanted.2.len())?))
}

const FAILING: Manner = Manner {
    piece: 9999,
    interrupted: false,
    fails: true,
};

const NARROW: Manner = Manner {
    piece: 1,
    interrupted: true,
    fails: false,
};

fn decoded(alloc: Global, digits: &str) -> Result<Vec<u8>, Fail> {
    Ok(hex::decode(alloc, digits.as_bytes())?)
}

// A writer has room for a beginning of the reply, and after it fails or takes nothing. The call is made in
// any case.
fn by_failing_writers<C: Caller, R: Wait + AllocGlobal>(
    rt: &R,
    caller: &mut C,
) -> Result<(), Fail> {
    let asked = decoded(rt.alloc(), QUESTION)?;
    let reply = decoded(rt.alloc(), PERMISSION)?;
    for taken in [FAILING, WHOLE] {
        for room in 0..reply.len() {
            let way = Way {
                asked: asked.as_slice(),
                given: WHOLE,
                room,
                taken,
            };
            let wanted = (Some(End::ByProtocol), "p", &reply.as_slice()[..room]);
            ends(rt, caller, way, wanted)?;
        }
    }
    Ok(())
}

// A reader fails after a beginning of the packet, which comes at once or byte by byte. No call is made until
// the packet is there.
fn by_failing_readers<C: Caller, R: Wait + AllocGlobal>(
    rt: &R,
    caller: &mut C,
) -> Result<(), Fail> {
    let asked = decoded(rt.alloc(), QUESTION)?;
    for piece in [9999, 1] {
        for length in 0..asked.len() {
            let way = Way {
                asked: &asked.as_slice()[..length],
                given: Manner { piece, ..FAILING },
                room: 99,
                taken: WHOLE,
            };
            ends(rt, caller, way, (Some(End::ReadFault), "", b""))?;
        }
    }
    Ok(())
}

/// What is asked, what it is answered, how the connection ends, and what its witness is told.
const CONVERSATIONS: [(&str, &str, End, &str); 4] = [
    (QUESTION, PERMISSION, End::ByProtocol, "p"),
    (QUESTIONS, PERMISSIONS, End::Finished, "pp"),
    (LOGINS, PASSES, End::Finished, "pppp"),
    (WRONG_LOGIN, FAILURE, End::Finished, "p"),
];

// Each read and write is interrupted once, and a byte is given or taken at a time.
fn byte_by_byte<C: Caller, R: Wait + AllocGlobal>(rt: &R, caller: &mut C) -> Result<(), Fail> {
    for (asked, answered, end, told) in CONVERSATIONS {
        let asked = decoded(rt.alloc(), asked)?;
        let answered = decoded(rt.alloc(), answered)?;
        let way = Way {
            asked: asked.as_slice(),
            given: NARROW,
            room: 99,
            taken: NARROW,
        };
        ends(rt, caller, way, (Some(end), told, answered.as_slice()))?;
    }
    Ok(())
}

// All of these, by one seat.
#[derive(Clone, Copy)]
struct Transports;

impl Course for Transports {
    fn opens(&self) -> (Limits, bool) {
        let limits = Limits {
            calls: 99,
            rotate_at: NEVER,
        };
        (limits, false)
    }

    fn runs<C: Steady, R: Wait + AllocGlobal>(&self, rt: &R, caller: C) -> Result<C, Fail> {
        let mut caller = caller;
        by_failing_writers(rt, &mut caller)?;
        by_failing_readers(rt, &mut caller)?;
        byte_by_byte(rt, &mut caller)?;
        Ok(caller)
    }
}

#[test]
fn that_fails_or_is_slow(rt: HostRuntime) -> Result<(), Fail> {
    runs_for_bob(&rt, Transports)
}

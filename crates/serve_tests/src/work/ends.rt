//! How a connection ends: a reply has 18 bytes.

use crate::hall::shared::NEVER;
use crate::hall::starved::Starved;
use crate::work::packets::{FIRST_QUESTION, RECORD};
use crate::work::streams::{Scribe, Scripted, Sink, WHOLE};
use crate::work::support::{Course, bob, door, runs, runs_for_bob, serves};
use std::sync::Wait;
use std::test::Fail;
use tac_hall::Limits;
use tac_worker::{Caller, Steady, Terms};

fn number(word: Option<&str>) -> Result<usize, Fail> {
    Ok(word.ok_or("no number")?.parse::<usize>()?)
}

// What a connection comes to by this caller.
fn comes_to<C: Caller, R: Wait + AllocGlobal>(
    rt: &R,
    caller: &mut C,
    asked: &str,
) -> Result<String, Fail> {
    let alloc = rt.alloc();
    let mut words = asked.split(' ');
    let scribe = Scribe {
        told: String::new(alloc),
        takes: number(words.next())?,
    };
    let (question, record) = (
        hex::decode(alloc, FIRST_QUESTION.as_bytes())?,
        hex::decode(alloc, RECORD.as_bytes())?,
    );
    let mut reader = Scripted {
        letters: words.next().unwrap_or("").as_bytes(),
        question: question.as_slice(),
        record: record.as_slice(),
    };
    let mut writer = Sink::new(alloc, number(words.next())?, WHOLE);
    let door = door()?;
    let terms = Terms { alloc, door: &door };
    let (end, scribe) = serves(&terms, caller, scribe, &mut reader, &mut writer);
    let (written, told) = (writer.taken.len(), scribe.told.as_str());
    match end {
        Some(end) => Ok(format!(in alloc; "{end:?} {written} {told}")?),
        None => Ok(format!(in alloc; "open {written} {told}")?),
    }
}

// Connections that a seat serves, one after another, a line each:
//
//     TAKES LETTERS ROOM = END BYTES NOTICES
//
// How many notices the witness takes; what comes, and for how many bytes there is room. How it ended, or
// `open` where it was given up, how many bytes of replies were sent, and what the witness was told.
#[derive(Clone, Copy)]
struct Ends {
    calls: usize,
    rotate_at: usize,
    is_stopped: bool,
    lines: &'static str,
}

impl Course for Ends {
    fn opens(&self) -> (Limits, bool) {
        let (calls, rotate_at) = (self.calls, self.rotate_at);
        (Limits { calls, rotate_at }, self.is_stopped)
    }

    fn runs<C: Steady, R: Wait + AllocGlobal>(&self, rt: &R, caller: C) -> Result<C, Fail> {
        let mut caller = caller;
        for line in self.lines.lines() {
            let line = line.trim();
            let (asked, wanted) = line.split_once(" = ").unwrap_or((line, ""));
            if asked.is_empty() {
                continue;
            }
            let came = comes_to(rt, &mut caller, asked)?;
            if came.as_str().trim_end() != wanted {
                return Err(Fail::from(came));
            }
        }
        Ok(caller)
    }
}

// By what comes, and what is sent. A reply is told before it is sent, whole or not; nothing of one is sent
// that was refused, nor is anything read after it.
const ENDS: &str = "
    9 - 99 = Finished 0
    9 pp 99 = Finished 36 pp
    9 ipiip 99 = Finished 36 pp
    9 h 99 = ByProtocol 0 h
    9 pph 99 = ByProtocol 36 pph
    9 phpp 99 = ByProtocol 18 ph
    9 x 99 = ReadFault 0
    9 ppxp 99 = ReadFault 36 pp
    9 pp 36 = Finished 36 pp
    9 pp 35 = open 35 pp
    9 pp 18 = open 18 pp
    9 pp 0 = open 0 p
    0 pp 99 = Unwitnessed 0 p
    1 ppp 99 = Unwitnessed 18 pp
    2 pph 99 = Unwitnessed 36 pph
    0 h 99 = Unwitnessed 0 h
";

// A full log ends a connection, but not where a call begins the next segment before.
#[test]
fn of_a_connection(rt: HostRuntime) -> Result<(), Fail> {
    let roomy = Ends {
        calls: 999,
        rotate_at: NEVER,
        is_stopped: false,
        lines: ENDS,
    };
    runs_for_bob(&rt, roomy)?;
    let full = Ends {
        calls: 2,
        lines: "9 pp 99 = Finished 36 pp\n9 ph 99 = LogFull 0",
        ..roomy
    };
    runs_for_bob(&rt, full)?;
    let by_itself = Ends {
        rotate_at: 3,
        lines: "9 ppph 99 = ByProtocol 54 ppph",
        ..full
    };
    runs_for_bob(&rt, by_itself)?;
    let stopped = Ends {
        is_stopped: true,
        lines: "9 pp 99 = Stopped 0",
        ..roomy
    };
    runs_for_bob(&rt, stopped)
}

#[test]
fn without_memory_for_a_record(rt: HostRuntime) -> Result<(), Fail> {
    let desk = Starved::new(rt.alloc(), bob(rt.alloc())?)?;
    let course = Ends {
        calls: 99,
        rotate_at: NEVER,
        is_stopped: false,
        lines: "
            9 r 99 = Memory 0
            9 pprp 99 = Memory 36 pp
            9 pp 99 = Finished 36 pp
            9 prp 99 = Memory 18 p
        ",
    };
    runs(&rt, desk, course)
}

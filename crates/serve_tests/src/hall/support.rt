//! What the tests share: conversations with a hall.

use basics::{Bytes, Sequence};
use pol_edit::{Edit, read_edit};
use pol_text::Policy;
use std::alloc::{AllocError, Global};
use std::sync::Wait;
use std::test::Fail;
use tac_conn::{Answer, Ask, Proof, Service, Typed};
use tac_desk::{Desk, Query};
use tac_desks::PlainDesk;
use tac_hall::{Call, CallAnswer, Hall, HallFault, Receipt, Run, Seat};
use tac_request::{AcctKind, Record};

/// A policy under which bob may show things.
pub(crate) const OPS: &str = "group ops\npermit show .*\nuser bob in ops\n";

/// A desk of this policy, without records.
pub(crate) fn desk_of(alloc: Global, policy: &str) -> Result<PlainDesk, Fail> {
    let policy = Policy::read(alloc, policy.as_bytes())?;
    Ok(PlainDesk::new(alloc, policy, 9)?)
}

/// The first word of a text, and what follows the space.
pub(crate) fn word(text: &str) -> (&str, &str) {
    text.split_once(' ').unwrap_or((text, ""))
}

// `run NAME LINE`, `pass NAME SECRET` or `record NAME TASK`.
fn ask_of(alloc: Global, verb: &str, rest: &str) -> Result<Ask, AllocError> {
    let (name, what) = word(rest);
    let user = Bytes::from_slice(alloc, name.as_bytes())?;
    let what = Bytes::from_slice(alloc, what.as_bytes())?;
    Ok(match verb {
        "run" => Ask::Authorise { user, line: what },
        "pass" => Ask::Authenticate {
            user,
            service: Service::LOGIN,
            proof: Proof::Plain(Typed::new(what)),
        },
        _ => Ask::Account(Record {
            user,
            kind: AcctKind::Update,
            task: what,
            elapsed: 0,
            line: None,
        }),
    })
}

/// Bob asks for `show version`.
pub(crate) fn show_version(alloc: Global) -> Result<Call, AllocError> {
    Ok(Call::Ask(ask_of(alloc, "run", "bob show version")?))
}

// Edits, which `; ` parts, if there are any.
fn edits(alloc: Global, words: &str) -> Result<Sequence<Edit>, Fail> {
    let mut edits = Sequence::new(alloc);
    for line in words.split("; ") {
        if !line.is_empty() {
            edits.push(read_edit(alloc, line.as_bytes())?)?;
        }
    }
    Ok(edits)
}

// The policy whose lines `; ` parts.
fn policy_of(alloc: Global, words: &str) -> Result<Policy, Fail> {
    let mut text = String::new(alloc);
    for line in words.split("; ") {
        writeln!(text, "{line}")?;
    }
    Ok(Policy::read(alloc, text.as_bytes())?)
}

// `run NAME LINE`, `pass NAME SECRET`, `record NAME TASK`, `records`, `stop`, `batch EDITS`,
// `load LINES`, or an edit.
fn call_of(alloc: Global, words: &str) -> Result<Call, Fail> {
    let (verb, rest) = word(words);
    match verb {
        "run" | "pass" | "record" => Ok(Call::Ask(ask_of(alloc, verb, rest)?)),
        "records" => Ok(Call::Query(Query::Records)),
        "stop" => Ok(Call::Stop),
        "batch" => Ok(Call::Batch(edits(alloc, rest)?)),
        "load" => Ok(Call::Load(policy_of(alloc, rest)?)),
        _ => Ok(Call::Edit(read_edit(alloc, words.as_bytes())?)),
    }
}

// What a call is answered: of edits and questions that they were taken.
fn show_answer(out: &mut String, answer: &CallAnswer) -> Result<(), AllocError> {
    match answer {
        CallAnswer::Ask(Answer::Permitted(_)) => out.push_str("permitted"),
        CallAnswer::Ask(Answer::Denied(_)) => out.push_str("denied"),
        CallAnswer::Ask(Answer::Pass) => out.push_str("pass"),
        CallAnswer::Ask(Answer::Fail) => out.push_str("fail"),
        CallAnswer::Ask(Answer::Stored) => out.push_str("stored"),
        CallAnswer::Ask(_) => out.push_str("another answer"),
        CallAnswer::Edit(Err(fault)) => write!(out, "refused {fault}"),
        CallAnswer::Batch(Err(fault)) => write!(out, "refused {fault}"),
        CallAnswer::Query(Err(fault)) => write!(out, "refused {fault}"),
        CallAnswer::Stopped => out.push_str("stopped"),
        _ => out.push_str("done"),
    }
}

// The segment and the place of a call, and its answer, or why it is refused.
fn show(out: &mut String, told: &Result<Receipt, HallFault>) -> Result<(), AllocError> {
    match told {
        Ok(receipt) => {
            write!(out, "{}:{} ", receipt.segment, receipt.place)?;
            show_answer(out, &receipt.answer)
        }
        Err(fault) => write!(out, "{fault}"),
    }
}

// Does one thing, and shows its result.
fn does<J: Run, D: Desk, R: Wait + AllocGlobal>(
    rt: &R,
    hall: &Hall<J, D>,
    seat: &mut Seat<J>,
    words: &str,
) -> Result<String, Fail> {
    let mut shown = String::new(rt.alloc());
    if words == "rotate" {
        match hall.rotate(rt, seat) {
            Ok(rotated) => write!(shown, "{} of {}", rotated.number, rotated.entries)?,
            Err(fault) => write!(shown, "{fault}")?,
        }
    } else {
        let call = call_of(rt.alloc(), words)?;
        show(&mut shown, &hall.call(rt, seat, &call))?;
    }
    Ok(shown)
}

// One line of a conversation.
fn exchanges<J: Run, D: Desk, R: Wait + AllocGlobal>(
    rt: &R,
    hall: &Hall<J, D>,
    seats: &mut [Seat<J>],
    line: &str,
) -> Result<(), Fail> {
    let (asked, wanted) = line.split_once(" = ").unwrap_or((line, ""));
    let (number, words) = word(asked);
    let seat = seats
        .get_mut(number.parse::<usize>()?)
        .ok_or("no such seat")?;
    let shown = does(rt, hall, seat, words)?;
    if shown.as_str() == wanted {
        return Ok(());
    }
    Err(Fail::from(shown))
}

/// Each line is one of these, or has a refusal for the answer:
///
///     SEAT CALL = SEGMENT:PLACE ANSWER
///     SEAT rotate = SEGMENT of CALLS
pub(crate) fn talks<J: Run, D: Desk, R: Wait + AllocGlobal>(
    rt: &R,
    hall: &Hall<J, D>,
    seats: &mut [Seat<J>],
    talk: &str,
) -> Result<(), Fail> {
    for line in talk.lines() {
        let line = line.trim();
        if !line.is_empty() {
            exchanges(rt, hall, seats, line)?;
        }
    }
    Ok(())
}

/// So many seats.
pub(crate) fn seats_of<J: Run, D: Desk, R: Wait + AllocGlobal>(
    rt: &R,
    hall: &Hall<J, D>,
    count: usize,
) -> Result<Vec<Seat<J>>, Fail> {
    let mut seats = Vec::new(rt.alloc());
    for _ in 0..count {
        seats.push(hall.seat(rt)?)?;
    }
    Ok(seats)
}

/// It is closed with these seats, and has told which segment is the last, with so many calls.
pub(crate) fn closes_at<J: Run, D: Desk>(
    hall: Hall<J, D>,
    seats: Vec<Seat<J>>,
) -> Result<(u64, usize), Fail> {
    match hall.close(seats) {
        Ok(settled) => Ok((settled.last.number, settled.last.entries)),
        Err(_) => Err(Fail::from("close refused")),
    }
}

/// It is closed with these seats.
pub(crate) fn closes<J: Run, D: Desk>(hall: Hall<J, D>, seats: Vec<Seat<J>>) -> Result<(), Fail> {
    let _ = closes_at(hall, seats)?;
    Ok(())
}

// It isn't closed without its last seat; it comes back with all of them.
fn refused_without_last<J: Run, D: Desk>(
    hall: Hall<J, D>,
    mut seats: Vec<Seat<J>>,
) -> Result<(Hall<J, D>, Vec<Seat<J>>), Fail> {
    let last = seats.pop().ok_or("no seat")?;
    match hall.close(seats) {
        Ok(_) => Err(Fail::from("closed")),
        Err((hall, mut seats)) => {
            seats.push(last)?;
            Ok((hall, seats))
        }
    }
}

/// A conversation with the first of 64 seats, after which there is no other. It isn't closed while one
/// of them is missing, before the conversation and after it, and is closed at the end, in whatever
/// order they come, in this segment and after so many calls of it.
pub(crate) fn converses<J: Run, D: Desk, R: Wait + AllocGlobal>(
    rt: &R,
    hall: Hall<J, D>,
    talk: &str,
    last: (u64, usize),
) -> Result<(), Fail> {
    let seats = seats_of(rt, &hall, 64)?;
    if !matches!(hall.seat(rt), Err(HallFault::NoSeat)) {
        return Err(Fail::from("one more seat"));
    }
    let (hall, mut seats) = refused_without_last(hall, seats)?;
    talks(rt, &hall, seats.as_mut_slice(), talk)?;
    let (hall, mut seats) = refused_without_last(hall, seats)?;
    seats.as_mut_slice().reverse();
    if closes_at(hall, seats)? == last {
        return Ok(());
    }
    Err(Fail::from("another segment is the last"))
}

//! What the tests share: conversations at the console of a hall.

ghost use Rattle.std.specs.Prelude.{◌≡◌};

use crate::console::streams::{Manner, Printer, Scribe, Typed};
use crate::hall::support::{OPS, closes, desk_of};
use basics::Bytes;
use std::alloc::{AllocError, Global};
use std::cell::RefCell;
use std::io::{Read, Write};
use std::marker::Brand;
use std::sync::Wait;
use std::test::Fail;
use tac_audit::{Typing, Typist, Witness};
use tac_desk::Desk;
use tac_hall::{Call, EmptyHistory, Hall, HallFault, Limits, Run, Seat};
use tac_hall_console::{OperatorFault, Source, Unread, no_devices, operate};
use tac_journal::Typists;

/// A source without a text and without devices, whose lines anyone types.
struct Nothing;

impl Typists for Nothing {
    ghost use Rattle.std.specs.Prelude.{◌≡◌};
    ghost use Rattle.tac_audit.specs.declared.event.Typist.TheVariants.{Anyone};

    ghost names = { λ _ typist. typist ≡ Anyone };

    fn typist(&self, _alloc: Global) -> Result<Typist, AllocError> {
        Ok(Typist::Anyone)
    }
}

impl Source for Nothing {
    fn text(&self, _alloc: Global) -> Result<Vec<u8>, Unread> {
        Err(Unread::Memory)
    }

    fn reload_devices(&self, alloc: Global) -> Result<Bytes, AllocError> {
        no_devices(alloc)
    }

    fn warn(&self, _line: &[u8]) {}
}

// What happens at a console: the limits of its desk, whether another seat has stopped that before, how
// its input comes, for how many bytes there is room, and what its witness is told.
#[derive(Clone, Copy)]
struct Course<'a> {
    limits: Limits,
    is_stopped: bool,
    manner: Manner,
    room: usize,
    // the line that the witness refuses; `-` where it isn't told any
    refuses: &'a str,
}

// How a console ended, and why a call of another seat is refused after that.
type Ended = (Result<(), OperatorFault>, Option<HallFault>);

// A console of a hall, whose other seat makes a Stop after it, and before it too if it is to
// be stopped. Its seat comes back beside that.
fn operates_at<J: Run, D: Desk, V: Witness<Typing>, I: Read, O: Write, R: Wait + AllocGlobal>(
    rt: &R,
    desk: &Hall<J, D>,
    is_stopped: bool,
    other: &mut Seat<J>,
    witness: &mut V,
    input: &mut I,
    output: &mut O,
) -> Result<(Seat<J>, Ended), Fail> {
    if is_stopped && desk.call(rt, other, &Call::Stop).is_err() {
        return Err(Fail::from("no stop"));
    }
    let seat = desk.seat(rt)?;
    let (seat, end) = operate(rt, desk, &Nothing, seat, witness, input, output);
    let after = desk.call(rt, other, &Call::Stop).err();
    Ok((seat, (end, after)))
}

// The same at a new desk of this run, which is closed with both seats.
fn operates_of<J: Run, D: Desk, V: Witness<Typing>, I: Read, O: Write, R: Wait + AllocGlobal>(
    rt: &R,
    history: EmptyHistory,
    desk: D,
    course: Course<'_>,
    witness: &mut V,
    input: &mut I,
    output: &mut O,
) -> Result<Ended, Fail>
    requires roll { history ≡ J.roll }
    requires opening { record { meaning = D.meaning desk; limits = course.limits } ≡ J.opening }
{
    let desk: Hall<J, D> = Hall::new(history, desk, course.limits);
    let mut seats = Vec::with_capacity(rt.alloc(), 2)?;
    let mut other = desk.seat(rt)?;
    let is_stopped = course.is_stopped;
    let (seat, ended) = operates_at(rt, &desk, is_stopped, &mut other, witness, input, output)?;
    seats.push(seat)?;
    seats.push(other)?;
    closes(desk, seats)?;
    Ok(ended)
}

// The same in a run of its own, at a desk at which bob may show things.
fn operates<V: Witness<Typing>, I: Read, O: Write, R: Wait + AllocGlobal>(
    rt: &R,
    course: Course<'_>,
    witness: &mut V,
    input: &mut I,
    output: &mut O,
) -> Result<Ended, Fail> {
    let desk = desk_of(rt.alloc(), OPS)?;
    operates_new(rt, desk, course, witness, input, output)
}

fn operates_new<D: Desk, V: Witness<Typing>, I: Read, O: Write, R: Wait + AllocGlobal>(
    rt: &R,
    desk: D,
    course: Course<'_>,
    witness: &mut V,
    input: &mut I,
    output: &mut O,
) -> Result<Ended, Fail> {
    let history = EmptyHistory::new(rt.alloc())?;
    operates_of::<Brand, D, V, I, O, R>(rt, history, desk, course, witness, input, output)
}

// What is told and written on these bytes, one after another, and how the console ends.
fn run<R: Wait + AllocGlobal>(
    rt: &R,
    course: Course<'_>,
    text: &[u8],
) -> Result<(Vec<u8>, Ended), Fail> {
    let notes = RefCell::new(Vec::new(rt.alloc()));
    let mut reader = Typed {
        text,
        manner: course.manner,
        ready: false,
    };
    let mut witness = Scribe {
        notes: &notes,
        is_told: course.refuses != "-",
        refuses: course.refuses.as_bytes(),
    };
    let mut writer = Printer {
        notes: &notes,
        left: course.room,
    };
    let ended = operates(rt, course, &mut witness, &mut reader, &mut writer)?;
    Ok((notes.into_inner(), ended))
}

// A line, with its end unless a `~` stands there.
fn push_line(out: &mut Vec<u8>, line: &str) -> Result<(), AllocError> {
    match line.strip_suffix('~') {
        Some(line) => out.extend_from_slice(line.as_bytes()),
        None => {
            out.extend_from_slice(line.as_bytes())?;
            Ok(out.push(b'\n')?)
        }
    }
}

// The lines after `> `, and all others: what is typed, and what is told and printed.
fn parts(alloc: Global, talk: &str) -> Result<(Vec<u8>, Vec<u8>), AllocError> {
    let (mut typed, mut printed) = (Vec::new(alloc), Vec::new(alloc));
    for line in talk.lines() {
        let line = line.trim_start();
        match line.strip_prefix("> ") {
            Some(command) => push_line(&mut typed, command)?,
            None if line.is_empty() => {}
            None => push_line(&mut printed, line)?,
        }
    }
    Ok((typed, printed))
}

// On the lines that are typed all others are told and printed, and the console ends so.
fn types<R: Wait + AllocGlobal>(
    rt: &R,
    course: Course<'_>,
    talk: &str,
    end: &str,
) -> Result<(), Fail> {
    let (typed, wanted) = parts(rt.alloc(), talk)?;
    let (notes, (ended, after)) = run(rt, course, typed.as_slice())?;
    let came = format!(in rt.alloc(); "{ended:?} {after:?}")?;
    if notes == wanted && came.as_str() == end {
        return Ok(());
    }
    let notes = String::from_utf8_lossy(rt.alloc(), notes.as_slice())?;
    Err(Fail::from(format!(in rt.alloc(); "{notes}{came}")?))
}

fn number(word: Option<&str>) -> Result<usize, Fail> {
    Ok(word.ok_or("no number")?.parse::<usize>()?)
}

// However the input comes, or as the first line says.
fn talks<R: Wait + AllocGlobal>(rt: &R, head: &str, talk: &str) -> Result<(), Fail> {
    let (head, end) = head.split_once(" = ").unwrap_or((head, ""));
    let (head, refuses) = head.split_once(": ").unwrap_or((head, ""));
    let mut words = head.split(' ');
    let calls = number(words.nth(1))?;
    let rotate_at = number(words.nth(1))?;
    let room = number(words.nth(1))?;
    let manner = words.next().unwrap_or("");
    let pieces = if manner == "half" {
        [13; 4]
    } else {
        [9999, 1, 2, 3]
    };
    for piece in pieces {
        let course = Course {
            limits: Limits { calls, rotate_at },
            is_stopped: manner == "stopped",
            manner: Manner {
                piece,
                interrupted: piece == 2,
                fails: manner == "fails",
            },
            room,
            refuses,
        };
        types(rt, course, talk, end)?;
    }
    Ok(())
}

/// Holds conversations, each at the console of a new hall at which bob may show things. A
/// paragraph is one. Its first line is
///
///     calls CALLS next CALLS room BYTES MANNER: LINE = END AFTER
///
/// for how many calls the log takes, before which one of a segment the next begins, and for how many
/// bytes there is room; how the input comes: `whole`, which is in pieces of several sizes too, `fails`,
/// the same before a read that fails, `half`, of which the first 13 bytes come first, or `stopped`, as
/// `whole` at a desk that was stopped; the line that the witness refuses, or `-` where it is told
/// none; how the console ends, and why a call of another seat is refused then, as Rust writes it.
///
/// Lines after `> ` are typed, and all others printed; `* LINE [ANSWER]` is told to the witness, and so
/// is `! LINE [ANSWER]`, which it refuses. A `~` stands where a line has no end.
pub(crate) fn converses<R: Wait + AllocGlobal>(rt: &R, text: &str) -> Result<(), Fail> {
    for paragraph in text.split("\n\n") {
        let paragraph = paragraph.trim_start();
        let (head, talk) = paragraph.split_once('\n').unwrap_or((paragraph, ""));
        talks(rt, head, talk)?;
    }
    Ok(())
}

//! What calls are answered, when they are refused, and where each stands.

use crate::hall::shared::{Talk, shares};
use crate::hall::starved::Starved;
use crate::hall::support::{OPS, desk_of};
use pol_text::Policy;
use std::sync::Wait;
use std::test::Fail;
use tac_hall::Limits;

fn number(word: Option<&str>) -> Result<usize, Fail> {
    Ok(word.ok_or("no number")?.parse::<usize>()?)
}

// `hall CALLS NEXT SEGMENT ENTRIES`: one whose log takes so many calls, before which call of a segment
// the next begins, and at the end the last segment with the count of its calls. Before it may stand
// `starved`: its desk is one without memory.
fn talks_at<R: Wait + AllocGlobal>(
    rt: &R,
    head: &'static str,
    lines: &'static str,
) -> Result<(), Fail> {
    let alloc = rt.alloc();
    let (is_starved, head) = match head.strip_prefix("starved ") {
        Some(head) => (true, head),
        None => (false, head),
    };
    let mut numbers = head.split(' ');
    let calls = number(numbers.nth(1))?;
    let rotate_at = number(numbers.next())?;
    let segment = number(numbers.next())? as u64;
    let talk = Talk {
        limits: Limits { calls, rotate_at },
        lines,
        last: (segment, number(numbers.next())?),
    };
    if is_starved {
        let desk = Starved::new(alloc, Policy::read(alloc, OPS.as_bytes())?)?;
        return shares(rt, desk, talk);
    }
    shares(rt, desk_of(alloc, OPS)?, talk)
}

// Conversations, a paragraph each, whose first line says at what.
fn all_talk<R: Wait + AllocGlobal>(rt: &R, text: &'static str) -> Result<(), Fail> {
    for paragraph in text.split("\n\n") {
        let paragraph = paragraph.trim();
        let (head, lines) = paragraph.split_once('\n').unwrap_or((paragraph, ""));
        talks_at(rt, head, lines)?;
    }
    Ok(())
}

// A call that the log has no place for stands nowhere, and does nothing; a Stop is the last.
#[test]
fn of_several_seats(rt: HostRuntime) -> Result<(), Fail> {
    all_talk(
        &rt,
        "
        hall 3 9999 0 3
        1 run bob show version = 0:0 permitted
        0 insert group ops 1 deny show .* = 0:1 done
        1 batch = 0:2 done
        1 run bob show version = 13 LogFull
        1 batch = 13 LogFull
        0 stop = 13 LogFull

        hall 5 9999 0 5
        1 run bob show version = 0:0 permitted
        0 insert group ops 1 deny show .* = 0:1 done
        1 run bob show version = 0:2 denied
        0 batch insert group ops 1 permit ping; drop group ops 2 = 0:3 done
        1 run bob show version = 0:4 permitted

        hall 6 9999 0 6
        1 run bob show version = 0:0 permitted
        1 record bob 7 = 0:1 stored
        0 load group ops; permit ping; deny .*; user eve in ops; user bob in ops = 0:2 done
        1 run bob show version = 0:3 denied
        1 run bob ping = 0:4 permitted
        0 load group ops; deny .*a..............; user bob in ops = 0:5 refused 11 TooManyStates group ops
        1 load group ops = 13 LogFull

        hall 9 9999 0 4
        1 pass bob blue-lake = 0:0 fail
        0 login bob blue-lake = 0:1 done
        1 pass bob blue-lake = 0:2 pass
        1 pass bob red-lake = 0:3 fail

        hall 9 9999 0 6
        0 remove user eve = 0:0 refused 2 NoSuch
        1 records = 0:1 done
        0 batch add group net; drop group ops 2 = 0:2 refused at edit 2: 7 BadIndex
        0 run bob show version = 0:3 permitted
        1 add group net = 0:4 done
        1 add group net = 0:5 refused 3 Exists

        hall 2 9999 0 2
        0 run bob show version = 0:0 permitted
        1 stop = 0:1 stopped
        0 run bob show version = 14 Closed
        1 stop = 14 Closed

        hall 2 9999 0 0
        ",
    )
}

// A full log takes no call, and after a rotation it does; after a Stop nothing is done. The next segment
// begins before the third call of one, by whichever seat; a rotation in between begins one as well, also
// where the segment is empty.
#[test]
fn in_segments(rt: HostRuntime) -> Result<(), Fail> {
    all_talk(
        &rt,
        "
        hall 2 9999 1 2
        1 run bob show version = 0:0 permitted
        0 insert group ops 1 deny show .* = 0:1 done
        0 remove user bob = 13 LogFull
        1 batch = 13 LogFull
        0 stop = 13 LogFull
        0 rotate = 0 of 2
        1 run bob show version = 1:0 denied
        0 stop = 1:1 stopped
        1 run bob show version = 14 Closed
        1 rotate = 14 Closed

        hall 9 3 5 1
        0 run bob show version = 0:0 permitted
        1 records = 0:1 done
        0 run bob show version = 1:0 permitted
        1 rotate = 1 of 1
        1 rotate = 2 of 0
        0 record bob t1 = 3:0 stored
        0 load group ops; user bob in ops = 3:1 done
        1 run bob show version = 4:0 denied
        0 pass bob secret = 4:1 fail
        1 stop = 5:0 stopped

        hall 9 9999 3 1
        0 run bob show version = 0:0 permitted
        0 insert group ops 1 deny show .* = 0:1 done
        0 rotate = 0 of 2
        0 run bob show version = 1:0 denied
        1 rotate = 1 of 1
        0 rotate = 2 of 0
        0 run bob show version = 3:0 denied

        hall 1 9999 1 1
        0 rotate = 0 of 0
        0 stop = 1:0 stopped
        1 rotate = 14 Closed
        ",
    )
}

// Edits and a question without memory are answered so, as others are answered. A record is refused, after
// what else refuses it, and the next call stands where it would have stood, nor has a segment begun for
// it. A rotation takes no memory.
#[test]
fn without_memory(rt: HostRuntime) -> Result<(), Fail> {
    all_talk(
        &rt,
        "
        starved hall 6 9999 0 6
        0 insert group ops 1 deny show .* = 0:0 refused 12 Memory
        1 records = 0:1 refused 12 Memory
        1 batch add group net; insert group net 1 permit ping = 0:2 refused 12 Memory
        0 load group ops; user bob in ops = 0:3 refused 12 Memory
        1 run bob show version = 0:4 permitted
        0 record bob 7 = 12 Memory
        1 run bob show version = 0:5 permitted
        0 record bob 7 = 13 LogFull

        starved hall 5 9999 1 1
        0 record bob 7 = 12 Memory
        0 run bob show version = 0:0 permitted
        0 record bob 7 = 12 Memory
        1 record bob 8 = 12 Memory
        1 insert group ops 1 deny show .* = 0:1 refused 12 Memory
        0 records = 0:2 refused 12 Memory
        1 run bob show version = 0:3 permitted
        0 rotate = 0 of 4
        0 record bob 7 = 12 Memory
        0 stop = 1:0 stopped
        1 record bob 7 = 14 Closed

        starved hall 5 2 2 1
        0 run bob show version = 0:0 permitted
        0 record bob 7 = 12 Memory
        1 rotate = 0 of 1
        1 run bob show version = 1:0 permitted
        1 record bob 7 = 12 Memory
        0 run bob show version = 2:0 permitted

        starved hall 1 9999 0 1
        1 run bob show version = 0:0 permitted
        0 record bob 7 = 13 LogFull
        ",
    )
}

//! Conversations with both desks: connections ask, an operator types, and other policies are loaded.

use crate::desk::loads::load;
use crate::desk::support::{ask, console};
use pol_names::By;
use pol_text::Policy;
use std::alloc::{AllocError, Global};
use std::fmt::Write;
use std::process::Abort;
use std::test::Fail;
use tac_conn::Answer;
use tac_console::Batch;
use tac_desk::Desk;
use tac_desks::{LiveDesk, PlainDesk};
use tac_tally::RecordLimit;

// Arguments, whose lengths these are, in quotes.
fn push_arguments(text: &mut String, lengths: &[u8], joined: &[u8]) -> Result<(), Fail> {
    let mut rest = joined;
    for length in lengths {
        let (argument, others) = rest
            .split_at_checked(usize::from(*length))
            .ok_or("no argument")?;
        let argument = str::from_utf8(argument)?;
        write!(text, " '{argument}'")?;
        rest = others;
    }
    Ok(())
}

// An answer to a connection, but for the arguments of a grant.
fn push_word(text: &mut String, answer: &Answer) -> Result<(), AllocError> {
    match answer {
        Answer::Pass => text.push_str("pass"),
        Answer::Fail => text.push_str("fail"),
        Answer::UnknownUser => text.push_str("unknown user"),
        Answer::Unprintable => text.push_str("unprintable"),
        Answer::Denied(By::Rule(owner, number)) => write!(text, "denied by {owner} rule {number}"),
        Answer::Denied(By::Default) => text.push_str("denied by default"),
        Answer::Permitted(Some(level)) => write!(text, "permitted at {level}"),
        Answer::Permitted(None) => text.push_str("permitted"),
        Answer::Unserved => text.push_str("unserved"),
        Answer::Refused(owner) => write!(text, "refused by {owner}"),
        Answer::Granted(_) => text.push_str("granted"),
        Answer::Stored => text.push_str("stored"),
        Answer::BookFull => text.push_str("full"),
    }
}

// What a connection asks, and what it is answered.
fn asks<D: Desk>(alloc: Global, desk: &mut D, words: &str, out: &mut Vec<u8>) -> Result<(), Fail> {
    let answer = desk.ask(&ask(alloc, words)?)?;
    let mut text = String::new(alloc);
    push_word(&mut text, &answer)?;
    if let Answer::Granted(arguments) = &answer {
        let (lengths, joined) = arguments.parts();
        push_arguments(&mut text, lengths, joined)?;
    }
    out.extend_from_slice(text.as_bytes())?;
    Ok(out.push(b'\n')?)
}

// A line of a conversation, with what it is answered where it is a call. Other lines say what is to be
// answered.
fn call<D: Desk>(
    alloc: Global,
    desk: &mut D,
    batch: &mut Batch,
    line: &str,
    out: &mut Vec<u8>,
) -> Result<(), Fail> {
    let (mark, words) = line.split_once(' ').unwrap_or((line, ""));
    if !matches!(mark, "?" | "<" | ">") {
        return Ok(());
    }
    out.extend_from_slice(line.as_bytes())?;
    out.push(b'\n')?;
    match mark {
        "?" => asks(alloc, desk, words, out),
        "<" => load(alloc, desk, words, out),
        _ => Ok(console(alloc, desk, batch, words.as_bytes(), out)?),
    }
}

// A desk says its part of the talk.
fn says<R: Abort + AllocGlobal, D: Desk>(rt: &R, desk: &mut D, whole: &str) -> Result<(), Fail> {
    let mut out = Vec::new(rt.alloc());
    let mut batch = Batch::closed();
    for line in whole.lines() {
        call(rt.alloc(), desk, &mut batch, line, &mut out)?;
    }
    let said = str::from_utf8(out.as_slice())?;
    assert!(rt; said == whole, "wanted\n{whole}said\n{said}");
    Ok(())
}

// So does the desk that keeps nothing.
fn says_plainly<R: Abort + AllocGlobal>(
    rt: &R,
    policy: &str,
    limit: RecordLimit,
    whole: &str,
) -> Result<(), Fail> {
    let policy = Policy::read(rt.alloc(), policy.as_bytes())?;
    let mut desk = PlainDesk::with_limit(rt.alloc(), policy, limit)?;
    says(rt, &mut desk, whole)
}

// And the one that keeps automata.
fn says_live<R: Abort + AllocGlobal>(
    rt: &R,
    policy: &str,
    limit: RecordLimit,
    whole: &str,
) -> Result<(), Fail> {
    let policy = Policy::read(rt.alloc(), policy.as_bytes())?;
    let mut desk = LiveDesk::with_limit(rt.alloc(), policy, limit)?;
    says(rt, &mut desk, whole)
}

// The lines of a paragraph, without what indents them and without comments.
fn bare(alloc: Global, paragraph: &str) -> Result<String, AllocError> {
    let mut lines = String::new(alloc);
    for line in paragraph.lines() {
        let line = line.trim_start();
        if !line.is_empty() && !line.starts_with('#') {
            writeln!(lines, "{line}")?;
        }
    }
    Ok(lines)
}

/// Holds conversations with both desks, each of this policy and of such a limit to its records.
///
/// A paragraph is a conversation: after `> ` a line of the console, after `? ` what a connection
/// asks, after `< ` a policy that is loaded, whose lines `; ` parts, and after each the lines that are
/// answered. A line that begins with `#` is a comment.
pub(crate) fn converses<R: Abort + AllocGlobal>(
    rt: &R,
    policy: &str,
    limit: RecordLimit,
    text: &str,
) -> Result<(), Fail> {
    for paragraph in text.split("\n\n") {
        let whole = bare(rt.alloc(), paragraph)?;
        says_plainly(rt, policy, limit, whole.as_str())?;
        says_live(rt, policy, limit, whole.as_str())?;
    }
    Ok(())
}

/// The policy of most conversations.
pub(crate) const OPS: &str = "group ops\npermit show .*\nuser bob in ops\nuser eve in ops\n";

// Where an eleventh record comes five go. Numbers, tallies and drift are of those that are kept.
#[test]
fn the_latest_ten_records(rt: HostRuntime) -> Result<(), Fail> {
    converses(&rt, OPS, RecordLimit::forgetting(10), KEPT)
}

// What desks are asked that keep at most ten records, the latest, and what they answer.
const KEPT: &str = "\
? record bob start 1 0
stored
? record bob stop 2 2 show run
stored
? record eve stop 3 2 show version
stored
? record bob stop 4 2 show version
stored
? record bob stop 5 2 show run
stored
? record bob start 6 0
stored
? record eve start 7 0
stored
? record bob stop 8 2 show run
stored
? record bob stop 9 2 show version
stored
? record bob update 10 0
stored
> tally user bob
tally user bob starts 2 stops 5 watchdogs 0 updates 1 open 2 elapsed 10 drift 0
> insert group ops 1 deny show run
ok
user bob now denies: show run
user eve now denies: show run
> tally user bob
tally user bob starts 2 stops 5 watchdogs 0 updates 1 open 2 elapsed 10 drift 3
> records
record 1 user bob start task 1 elapsed 0
record 2 user bob stop task 2 elapsed 2 line show%20run
record 3 user eve stop task 3 elapsed 2 line show%20version
record 4 user bob stop task 4 elapsed 2 line show%20version
record 5 user bob stop task 5 elapsed 2 line show%20run
record 6 user bob start task 6 elapsed 0
record 7 user eve start task 7 elapsed 0
record 8 user bob stop task 8 elapsed 2 line show%20run
record 9 user bob stop task 9 elapsed 2 line show%20version
record 10 user bob update task 10 elapsed 0
? record bob stop 1 3 show run
stored
> records
record 6 user bob start task 6 elapsed 0
record 7 user eve start task 7 elapsed 0
record 8 user bob stop task 8 elapsed 2 line show%20run
record 9 user bob stop task 9 elapsed 2 line show%20version
record 10 user bob update task 10 elapsed 0
record 11 user bob stop task 1 elapsed 3 line show%20run
> tally user bob
tally user bob starts 1 stops 3 watchdogs 0 updates 1 open 1 elapsed 7 drift 2
> tally user eve
tally user eve starts 1 stops 0 watchdogs 0 updates 0 open 1 elapsed 0 drift 0
> tally group ops
tally group ops starts 2 stops 3 watchdogs 0 updates 1 open 2 elapsed 7 drift 2
> insert group ops 1 deny show version
ok
user bob now denies: show version
user eve now denies: show version
> tally user bob
tally user bob starts 1 stops 3 watchdogs 0 updates 1 open 1 elapsed 7 drift 3
> drop group ops 2
ok
user bob now permits: show run
user eve now permits: show run
> tally group ops
tally group ops starts 2 stops 3 watchdogs 0 updates 1 open 2 elapsed 7 drift 1
? record bob watchdog w 0
stored
? record bob watchdog w 0
stored
? record bob watchdog w 0
stored
? record bob watchdog w 0
stored
? record bob watchdog w 0
stored
? record bob watchdog w 0
stored
? record bob watchdog w 0
stored
? record bob watchdog w 0
stored
? record bob watchdog w 0
stored
? record bob watchdog w 0
stored
? record bob watchdog w 0
stored
? record bob watchdog w 0
stored
? record bob watchdog w 0
stored
? record bob watchdog w 0
stored
? record bob watchdog w 0
stored
? record bob watchdog w 0
stored
? record bob watchdog w 0
stored
? record bob watchdog w 0
stored
? record bob watchdog w 0
stored
? record bob watchdog w 0
stored
? record bob watchdog w 0
stored
? record bob watchdog w 0
stored
? record bob watchdog w 0
stored
? record bob watchdog w 0
stored
> records
record 26 user bob watchdog task w elapsed 0
record 27 user bob watchdog task w elapsed 0
record 28 user bob watchdog task w elapsed 0
record 29 user bob watchdog task w elapsed 0
record 30 user bob watchdog task w elapsed 0
record 31 user bob watchdog task w elapsed 0
record 32 user bob watchdog task w elapsed 0
record 33 user bob watchdog task w elapsed 0
record 34 user bob watchdog task w elapsed 0
record 35 user bob watchdog task w elapsed 0
> tally user bob
tally user bob starts 0 stops 0 watchdogs 10 updates 0 open 0 elapsed 0 drift 0
? record bob stop w 1 show version
stored
> records
record 31 user bob watchdog task w elapsed 0
record 32 user bob watchdog task w elapsed 0
record 33 user bob watchdog task w elapsed 0
record 34 user bob watchdog task w elapsed 0
record 35 user bob watchdog task w elapsed 0
record 36 user bob stop task w elapsed 1 line show%20version
> tally group ops
tally group ops starts 0 stops 1 watchdogs 5 updates 0 open 0 elapsed 1 drift 1
> drop group ops 1
ok
user bob now permits: show version
user eve now permits: show version
> tally user bob
tally user bob starts 0 stops 1 watchdogs 5 updates 0 open 0 elapsed 1 drift 0
";

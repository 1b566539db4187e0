//! Policies that decide by automata: their sizes, and edits that are ready to be made.

use crate::automaton::support::{
    Judge, build, edits, judges, name, prepare, push_decision, subject,
};
use pol_automaton::Meter;
use pol_live::{Live, Prepared};
use pol_names::{Name, SubjectId};
use std::alloc::Global;
use std::fmt::Write;
use std::process::Abort;
use std::test::Fail;

/// Rules along a chain of three.
const CHAIN: &str = "group all\npermit ping\ngroup ops in all\ndeny show clock\npermit show .*\n\
                     user bob in ops\ndeny reload\nuser eve\n";

// What is decided of a line with a byte that is no symbol.
#[test]
fn a_line_of_other_bytes(rt: HostRuntime) -> Result<(), Fail> {
    let live = build(rt.alloc(), CHAIN)?;
    let decision = live.decide(&name("bob")?, b"ping\x7f");
    let mut words = String::new(rt.alloc());
    push_decision(&mut words, decision)?;
    assert!(&rt; words.as_str() == "deny by default\n");
    Ok(())
}

// ---- sizes

/// `SUBJECT has N`: so many states decide for the subject; `-` where it isn't there. Other lines are
/// edits, with `; ` between those that are made together.
#[derive(Drop)]
struct StateCounts {
    live: Live,
}

fn has_states(live: &Live, words: &str, states: &str) -> Result<bool, Fail> {
    match live.decider(&subject(words)?) {
        Some(decider) => Ok(states.parse::<u16>()? == decider.states()),
        None => Ok(states == "-"),
    }
}

// Makes the edits, if they aren't refused.
fn make(alloc: Global, live: &mut Live, line: &str) -> Result<(), Fail> {
    let edits = edits(alloc, line)?;
    let mut meter = Meter::new();
    if let Ok(prepared) = live.prepare_all(alloc, edits.as_slice(), &mut meter) {
        live.commit(prepared);
    }
    Ok(())
}

impl Judge for StateCounts {
    fn is_so(&mut self, alloc: Global, line: &str) -> Result<bool, Fail> {
        match line.split_once(" has ") {
            Some((words, states)) => has_states(&self.live, words, states),
            None => {
                make(alloc, &mut self.live, line)?;
                Ok(true)
            }
        }
    }
}

/// The automata of the policy of this text, and of what edits make of it, have these sizes.
pub(crate) fn has_sizes<R: Abort + AllocGlobal>(
    rt: &R,
    policy: &str,
    lines: &str,
) -> Result<(), Fail> {
    let live = build(rt.alloc(), policy)?;
    judges(rt, &mut StateCounts { live }, lines)
}

#[test]
fn sizes(rt: HostRuntime) -> Result<(), Fail> {
    has_sizes(
        &rt,
        "group ops\npermit show .*\nuser bob in ops\nuser eve\n",
        "
        group ops has 7
        user bob has 7
        user eve has 1
        group bob has -
        insert user bob 1 permit ping
        user bob has 11
        group ops has 7
        ",
    )
}

// Once a rule decides whatever goes on, no later rule counts. The earlier ones do.
#[test]
fn sizes_of_rules_that_search_anywhere(rt: HostRuntime) -> Result<(), Fail> {
    has_sizes(
        &rt,
        "group ops\npermit show .*\nuser bob in ops\ndeny .*x.*\nuser eve in ops\n",
        "
        user bob has 8
        insert user eve 1 deny show .*x.*
        user eve has 8
        insert user eve 2 deny sh.*
        user eve has 9
        insert user bob 1 permit .*
        user bob has 1
        ",
    )
}

// 16,384 residuals are as many as there may be.
#[test]
fn sizes_after_refusals(rt: HostRuntime) -> Result<(), Fail> {
    has_sizes(
        &rt,
        "group g\ngroup h in g\nuser u in h\n",
        "
        insert group g 1 deny .*a.............
        user u has 16384
        insert group g 1 deny .*a..............
        insert group h 1 deny .*b
        user u has 16384
        insert user u 1 permit .*
        user u has 1
        ",
    )
}

// ---- edits that are ready to be made

// What the edit would decide of the user's line, in words.
fn push_foretold(
    live: &Live,
    prepared: &Prepared,
    user: &Name,
    line: &str,
    out: &mut String,
) -> Result<(), Fail> {
    if !prepared.fits(live) {
        return Err(Fail::from("it doesn't fit"));
    }
    if let Some(decider) = prepared.decider(&SubjectId::user(*user)) {
        write!(out, "{} states ", decider.states())?;
    }
    push_decision(out, prepared.decide(user, line.as_bytes()))
}

fn is_foretold(
    alloc: Global,
    live: &Live,
    prepared: &Prepared,
    words: &str,
    expected: &str,
) -> Result<bool, Fail> {
    let (user, line) = words.split_once(' ').ok_or("no line")?;
    let mut out = String::new(alloc);
    push_foretold(live, prepared, &name(user)?, line, &mut out)?;
    Ok(out.as_str().trim_end() == expected)
}

/// `EDITS => NAME LINE => WORDS`: with the edits so many states would decide so of the user's line.
/// Nothing is made of the edits.
#[derive(Drop)]
struct Foretelling {
    live: Live,
}

impl Judge for Foretelling {
    fn is_so(&mut self, alloc: Global, line: &str) -> Result<bool, Fail> {
        let (edit, rest) = line.split_once(" => ").ok_or("no line")?;
        let (words, expected) = rest.split_once(" => ").ok_or("no words")?;
        let prepared = prepare(alloc, &self.live, edit)?;
        is_foretold(alloc, &self.live, &prepared, words, expected)
    }
}

#[test]
fn edits_that_are_ready(rt: HostRuntime) -> Result<(), Fail> {
    let live = build(rt.alloc(), CHAIN)?;
    let mut foretelling = Foretelling { live };
    judges(
        &rt,
        &mut foretelling,
        "
        insert user bob 1 permit reload => bob reload => 23 states permit by user bob rule 1
        move user eve in ops => eve show x => 17 states permit by group ops rule 2
        add user zed in all => zed ping => 6 states permit by group all rule 1
        remove user bob => bob ping => unknown user
        login bob x => bob reload => 23 states deny by user bob rule 1
        login bob x => bob ping\u{7f} => 23 states deny by default
        remove user bob; add user bob in ops => bob ping => 17 states permit by group all rule 1
        add user zed in all; drop group all 1 => zed ping => 1 states deny by default
        ",
    )
}

// Whether both fit, and the second no longer does once the first is made.
fn is_stale_after(
    alloc: Global,
    live: &mut Live,
    first: &str,
    second: &Prepared,
) -> Result<bool, Fail> {
    let edits = edits(alloc, first)?;
    let mut meter = Meter::new();
    let first = live.prepare_all(alloc, edits.as_slice(), &mut meter)?;
    let fit = first.fits(live) && second.fits(live);
    live.commit(first);
    Ok(fit && !second.fits(live))
}

fn becomes_stale(alloc: Global, live: &mut Live, first: &str, second: &str) -> Result<bool, Fail> {
    let second = prepare(alloc, live, second)?;
    is_stale_after(alloc, live, first, &second)
}

/// `stale: EDITS => EDITS` where the second no longer fit once the first are made, else `fits: ..`.
#[derive(Drop)]
struct Fitting {
    live: Live,
}

impl Judge for Fitting {
    fn is_so(&mut self, alloc: Global, line: &str) -> Result<bool, Fail> {
        let (said, edits) = line.split_once(": ").ok_or("no edits")?;
        let (first, second) = edits.split_once(" => ").ok_or("one edit")?;
        Ok(becomes_stale(alloc, &mut self.live, first, second)? == (said == "stale"))
    }
}

#[test]
fn edits_that_no_longer_fit(rt: HostRuntime) -> Result<(), Fail> {
    let live = build(rt.alloc(), CHAIN)?;
    let mut fitting = Fitting { live };
    judges(
        &rt,
        &mut fitting,
        "
        stale: login bob x => drop user bob 1
        stale: shift group ops 1 2 => login bob x
        # What leaves the policy as it is leaves the other edit ready.
        fits: clear enable bob => drop user bob 1
        fits: login bob x => remove user eve
        fits: add group net; remove group net => drop user bob 1
        ",
    )
}

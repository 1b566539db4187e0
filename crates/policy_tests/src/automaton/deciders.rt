//! Automata: their sizes, what they decide, and the least text of each entry.

use crate::automaton::lists::{entries, own, push_patterns};
use crate::automaton::support::{Judge, judges};
use pol_automaton::{Decider, DeciderFault, Meter};
use pol_pattern::Pattern;
use std::alloc::Global;
use std::process::Abort;
use std::test::Fail;

// Whether the least text that the entry decides is this.
fn reaches(
    alloc: Global,
    decider: &Decider,
    entry: usize,
    text: Option<&[u8]>,
) -> Result<bool, Fail> {
    match decider.reach(alloc, entry)? {
        Some(found) => Ok(text == Some(found.as_slice())),
        None => Ok(text.is_none()),
    }
}

// Whether what is said of the automaton is so: `=N` its number of states, `|N` its number of
// columns, `I:TEXT` that entry I decides the text, `-TEXT` that none does, `I@TEXT` that it is the
// least one of entry I, and `I!` that this decides none.
fn is_so(alloc: Global, decider: &Decider, said: &[u8]) -> Result<bool, Fail> {
    match said {
        [b'=', states @ ..] => Ok(str::from_utf8(states)?.parse::<u16>()? == decider.states()),
        [b'|', columns @ ..] => {
            Ok(str::from_utf8(columns)?.parse::<usize>()? == decider.columns())
        }
        [b'-', text @ ..] => Ok(decider.decide(text).is_none()),
        [entry @ b'0'..=b'9', b':', text @ ..] => {
            Ok(decider.decide(text) == Some(usize::from(*entry - b'0')))
        }
        [entry @ b'0'..=b'9', b'@', text @ ..] => {
            reaches(alloc, decider, usize::from(*entry - b'0'), Some(text))
        }
        [entry @ b'0'..=b'9', b'!'] => { reaches(alloc, decider, usize::from(*entry - b'0'), None) }
        _ => Ok(false),
    }
}

fn joined_are(alloc: Global, first: &Decider, rest: &Decider, said: &[u8]) -> Result<bool, Fail> {
    let mut meter = Meter::new();
    let decider = Decider::join(alloc, first, rest, 4096, &mut meter)?;
    is_so(alloc, &decider, said)
}

fn with_first(alloc: Global, first: &Decider, rest: &[Pattern], said: &[u8]) -> Result<bool, Fail> {
    let rest = own(alloc, rest)?;
    joined_are(alloc, first, &rest, said)
}

fn joins(alloc: Global, first: &[Pattern], rest: &[Pattern], said: &[u8]) -> Result<bool, Fail> {
    let first = own(alloc, first)?;
    with_first(alloc, &first, rest, said)
}

fn owns(alloc: Global, patterns: &[Pattern], said: &[u8]) -> Result<bool, Fail> {
    let decider = own(alloc, patterns)?;
    is_so(alloc, &decider, said)
}

fn collects(alloc: Global, list: &str, said: &[u8]) -> Result<bool, Fail> {
    let mut meter = Meter::new();
    let decider = Decider::of(entries(alloc, list)?, 4096, &mut meter)?;
    is_so(alloc, &decider, said)
}

// Whether it is true of the patterns' automaton, and of any first part's joined with the rest's.
fn are_so(alloc: Global, patterns: &[Pattern], list: &str, said: &[u8]) -> Result<bool, Fail> {
    if !owns(alloc, patterns, said)? || !collects(alloc, list, said)? {
        return Ok(false);
    }
    for cut in 0..=patterns.len() {
        let (first, rest) = patterns.split_at(cut);
        if !joins(alloc, first, rest, said)? {
            return Ok(false);
        }
    }
    Ok(true)
}

fn read_are_so(
    alloc: Global,
    patterns: &mut Vec<Pattern>,
    list: &str,
    said: &[u8],
) -> Result<bool, Fail> {
    push_patterns(alloc, patterns, list)?;
    are_so(alloc, patterns, list, said)
}

fn list_is_so(alloc: Global, list: &str, said: &[u8]) -> Result<bool, Fail> {
    let mut patterns = Vec::new(alloc);
    read_are_so(alloc, &mut patterns, list, said)
}

// Judges the lines: after a `/` a list of patterns, and then what is true of it. A line that
// begins with `#` is a comment.
fn judges_lists<R: Abort + AllocGlobal>(rt: &R, lines: &str) -> Result<(), Fail> {
    let mut list = "";
    for line in lines.lines() {
        let line = line.trim_start();
        match line.as_bytes() {
            [b'/', ..] => list = line.strip_prefix("/").unwrap_or(""),
            [] | [b'#', ..] => {}
            said => {
                let is_so = list_is_so(rt.alloc(), list, said)?;
                assert!(rt; is_so, "{line} of {list}");
            }
        }
    }
    Ok(())
}

// A state for each list of residuals that differs from the others, dead ones too.
#[test]
fn sizes(rt: HostRuntime) -> Result<(), Fail> {
    judges_lists(
        &rt,
        "
        /[]
        =1
        /
        =2
        /.*
        =1
        /[^ -~]
        =2
        /ping
        =6
        /show .*
        =7
        /ping;show .*
        =11
        /show .*;ping
        =11
        /show .*;show .*
        =7
        /a|b
        =3
        /(a*)*
        =3
        /.*a
        =2
        /.*a;.*b
        =3
        /.*a....
        =32
        /(.|.)*;.*a..
        =8

        # Nothing counts after a pattern that holds whatever goes on.
        /.*;.*a...
        =1
        /(.)*;[ -~]*;ping
        =1
        /ping;.*;.*a...
        =6
        /a.*;.*a...
        =18
        /[a-m].*;[n-z].*;[a-z]x
        =4
        /(a|ab).*;abc.*;.*
        =3
        # Nor do its own other terms.
        /a.*|.*b;.*c
        =5
        /x(.*|y);.*y
        =5
        # What comes before it counts.
        /x.*;.*
        =3
        /.*b;a.*;.*c
        =6
        /a.*b;a.*;ac
        =4
        # The term `.*.*` is another one, and has `.*` behind it.
        /.*.*;.*b
        =2
        /(.*);.*a
        =2
        # Patterns that search anywhere.
        /.*x.*;show .*
        =8
        /show .*x.*;show .*
        =8
        /show .*vlan.*;show .*arp.*;show .*route.*;show .*bgp.*
        =39
        /show .*(vlan|arp|route|bgp).*
        =19
        ",
    )
}

// A column for each class of symbols that no pattern tells apart.
#[test]
fn columns(rt: HostRuntime) -> Result<(), Fail> {
    judges_lists(
        &rt,
        "
        /[]
        |1
        /
        |1
        /[^ -~]
        |1
        /.*
        |1
        /show .*
        |6
        /ping;show .*
        |10
        /show .*;show .*
        |6
        /[a-m].*;[n-z].*;[a-z]x
        |4
        /[a-m]*(b|(c?d)*)
        |5
        /[0-9]+;[^0-9]*
        |2
        /(x|[ -~])y
        |3
        ",
    )
}

#[test]
fn decisions(rt: HostRuntime) -> Result<(), Fail> {
    judges_lists(
        &rt,
        "
        /[]
        -
        -a
        /show .*;ping;.*
        0:show clock
        0:show 
        1:ping
        2:show
        2:
        -ping\u{7f}
        -\t
        -caf\u{e9}
        0@show 
        1@ping
        2@

        # Each of two rules hides some of the third.
        /[a-m].*;[n-z].*;[a-z]x
        0:ax
        1:nx
        -1
        -
        0@a
        1@n
        2!
        /[a-m].*;[n-y].*;[a-z]x
        2:zx
        2@zx

        # What is empty, and what holds the empty text.
        /[^ -~];(()*)*
        1:
        - 
        0!
        1@
        /();.*;a
        0:
        1: 
        0@
        1@ 
        2!

        # A column stands for its least symbol.
        /[m-z][5-9]
        0@m5
        0:z9
        -a5
        /[^ -~a-z]*[^ -9]
        0@:
        0:~

        # The shorter text comes first, then the lower symbol.
        /zz|aaa|~
        0@~
        /b.|.a|c
        0@c
        /(b|a)(d|c)
        0@ac
        /(show|s) (run|i.*);s.*
        0@s i
        1@s
        /a*;b|aa|.*c
        0:aa
        1:b
        0@
        1@b

        # A pattern that holds whatever goes on, and those before and after it.
        /.*b;a.*;.*c
        0:ab
        0:acb
        1:ac
        2:c
        -x
        0@b
        1@a
        2@c
        /x.*;.*
        0:xy
        1:yx
        -x\u{7f}
        /.*x.*;.*y.*;.*
        0:yx
        1:y
        2:
        0@x
        /a.*|.*b;.*c;.*
        0:ac
        0:cb
        1:c
        2:b c b 
        /show;show x.*;show .*
        0:show
        1:show xy
        2:show y
        2@show 
        ",
    )
}

// ---- limits

// How many states were made, or nothing where the limit didn't let them.
fn states(made: Result<Decider, DeciderFault>) -> Result<Option<u16>, Fail> {
    match made {
        Ok(decider) => Ok(Some(decider.states())),
        Err(DeciderFault::TooManyStates) => Ok(None),
        Err(DeciderFault::Memory) => Err(Fail::from("no memory")),
    }
}

// Whether so many states were made as expected, or none, and the meter counts them.
fn is_counted(before: u128, meter: &Meter, found: Option<u16>, expected: Option<u16>) -> bool {
    let states = u128::from(expected.unwrap_or(0));
    found == expected && meter.total() == before.saturating_add(states)
}

fn makes(
    alloc: Global,
    list: &str,
    limit: u16,
    meter: &mut Meter,
    expected: Option<u16>,
) -> Result<bool, Fail> {
    let before = meter.total();
    let found = states(Decider::of(entries(alloc, list)?, limit, meter))?;
    Ok(is_counted(before, meter, found, expected))
}

/// `STATES: LIST`: as a limit so many are enough, and one less is not. `none: LIST`: 4,096 are not.
#[derive(Drop)]
struct LimitCases {
    // goes on counting
    meter: Meter,
}

impl Judge for LimitCases {
    fn is_so(&mut self, alloc: Global, line: &str) -> Result<bool, Fail> {
        let (states, list) = line.split_once(": ").ok_or("no list")?;
        if states == "none" {
            return makes(alloc, list, 4096, &mut self.meter, None);
        }
        let states = states.parse::<u16>()?;
        let less = states.saturating_sub(1);
        if !makes(alloc, list, less, &mut self.meter, None)? {
            return Ok(false);
        }
        makes(alloc, list, states, &mut self.meter, Some(states))
    }
}

#[test]
fn limits(rt: HostRuntime) -> Result<(), Fail> {
    let mut cases = LimitCases {
        meter: Meter::new(),
    };
    judges(
        &rt,
        &mut cases,
        "
        1: []
        2: 
        7: show .*
        11: ping;show .*
        2048: .*a..........
        3072: .*a..........;.*b
        4096: .*a...........
        16384: .*a.............
        1: .*;.*a.............
        113: show .*vlan.*;show .*arp.*;show .*route.*;show .*bgp.*;show .*ospf.*;show .*mac.*;\
        show .*lldp.*;show .*cdp.*
        none: .*a............
        none: .*a...........;.*b
        ",
    )
}

fn joins_within(
    alloc: Global,
    first: &Decider,
    rest: &Decider,
    limit: u16,
    meter: &mut Meter,
    expected: Option<u16>,
) -> Result<bool, Fail> {
    let before = meter.total();
    let found = states(Decider::join(alloc, first, rest, limit, meter))?;
    Ok(is_counted(before, meter, found, expected))
}

// Whether the automata have so many states when they are joined.
fn are_joined(alloc: Global, first: &Decider, rest: &Decider, states: u16) -> Result<bool, Fail> {
    let mut meter = Meter::new();
    let less = states.saturating_sub(1);
    if !joins_within(alloc, first, rest, less, &mut meter, None)? {
        return Ok(false);
    }
    joins_within(alloc, first, rest, states, &mut meter, Some(states))
}

fn joins_to(alloc: Global, first: &Decider, rest: &str, states: u16) -> Result<bool, Fail> {
    let mut meter = Meter::new();
    let rest = Decider::of(entries(alloc, rest)?, 4096, &mut meter)?;
    are_joined(alloc, first, &rest, states)
}

fn lists_join_to(alloc: Global, first: &str, rest: &str, states: u16) -> Result<bool, Fail> {
    let mut meter = Meter::new();
    let first = Decider::of(entries(alloc, first)?, 4096, &mut meter)?;
    joins_to(alloc, &first, rest, states)
}

fn joined_join_to(
    alloc: Global,
    first: &Decider,
    second: &Decider,
    rest: &str,
    states: u16,
) -> Result<bool, Fail> {
    let mut meter = Meter::new();
    let joined = Decider::join(alloc, first, second, 4096, &mut meter)?;
    joins_to(alloc, &joined, rest, states)
}

fn three_join_to(
    alloc: Global,
    first: &Decider,
    second: &str,
    rest: &str,
    states: u16,
) -> Result<bool, Fail> {
    let mut meter = Meter::new();
    let second = Decider::of(entries(alloc, second)?, 4096, &mut meter)?;
    joined_join_to(alloc, first, &second, rest, states)
}

fn all_join_to(
    alloc: Global,
    first: &str,
    second: &str,
    rest: &str,
    states: u16,
) -> Result<bool, Fail> {
    let mut meter = Meter::new();
    let first = Decider::of(entries(alloc, first)?, 4096, &mut meter)?;
    three_join_to(alloc, &first, second, rest, states)
}

/// `STATES: LIST and LIST`: as a limit so many are enough to join them, and one less is not. With
/// three lists, to join what the first two were joined to with the last.
#[derive(Drop)]
struct JoinCases;

impl Judge for JoinCases {
    fn is_so(&mut self, alloc: Global, line: &str) -> Result<bool, Fail> {
        let (states, lists) = line.split_once(": ").ok_or("no lists")?;
        let (first, rest) = lists.split_once(" and ").ok_or("one list")?;
        let states = states.parse::<u16>()?;
        match rest.split_once(" and ") {
            Some((second, rest)) => all_join_to(alloc, first, second, rest, states),
            None => lists_join_to(alloc, first, rest, states),
        }
    }
}

#[test]
fn limits_of_joined_automata(rt: HostRuntime) -> Result<(), Fail> {
    judges(
        &rt,
        &mut JoinCases,
        "
        1: [] and []
        11: ping and show .*
        4096: [] and .*a...........
        3072: .*a.......... and .*b
        6144: .*a........... and .*b
        1: .* and .*a...........
        8: .*x.* and show .*
        18: a.* and .*a...
        1: .* and ping and .*a...
        6: ping and .* and .*a...
        8: show .*x.* and show .* and .*
        12: show .*x.* and deny and show .*
        113: show .*vlan.*;show .*arp.* and show .*route.*;show .*bgp.*;show .*ospf.*;\
        show .*mac.*;show .*lldp.*;show .*cdp.*
        ",
    )
}

//! What is answered where another policy takes the place of the present one, and what stays.

use crate::desk::both::{OPS, converses};
use pol_text::Policy;
use std::alloc::{AllocError, Global};
use std::fmt::Write;
use std::test::Fail;
use tac_console::write_edit_answer;
use tac_desk::Desk;
use tac_tally::RecordLimit;

// The policy whose lines `; ` parts.
fn policy_of(alloc: Global, lines: &str) -> Result<Policy, Fail> {
    let mut text = String::new(alloc);
    for line in lines.split("; ") {
        writeln!(text, "{line}")?;
    }
    Ok(Policy::read(alloc, text.as_bytes())?)
}

fn answer<D: Desk>(
    alloc: Global,
    desk: &mut D,
    policy: &Policy,
    out: &mut Vec<u8>,
) -> Result<(), AllocError> {
    match desk.load(policy) {
        Ok(changes) => write_edit_answer(alloc, out, &Ok(changes.get())),
        Err(fault) => write_edit_answer(alloc, out, &Err(fault)),
    }
}

/// Loads the policy whose lines `; ` parts, and prints the answer as that of an edit.
pub(crate) fn load<D: Desk>(
    alloc: Global,
    desk: &mut D,
    lines: &str,
    out: &mut Vec<u8>,
) -> Result<(), Fail> {
    let policy = policy_of(alloc, lines)?;
    answer(alloc, desk, &policy, out)?;
    Ok(())
}

// The desks begin with `group ops; permit show .*; user bob in ops; user eve in ops`. Bob's lines
// are decided before each policy and after it, so that both desks have them at hand.
#[test]
fn users_gain_and_lose(rt: HostRuntime) -> Result<(), Fail> {
    converses(
        &rt,
        OPS,
        RecordLimit::refusing(9),
        "\
? record bob stop 1 2 show run
stored
? record eve stop 2 3 ping
stored
? run bob show run
permitted
? run bob ping
denied by default
> tally user bob
tally user bob starts 0 stops 1 watchdogs 0 updates 0 open 0 elapsed 2 drift 0
> tally user eve
tally user eve starts 0 stops 1 watchdogs 0 updates 0 open 0 elapsed 3 drift 1
< group ops; permit show .*; user bob in ops; user eve in ops
ok
< group ops; deny show run; permit show .*; permit ping; user bob in ops; user eve in ops
ok
user bob now permits: ping
user bob now denies: show run
user eve now permits: ping
user eve now denies: show run
? run bob show run
denied by group ops rule 1
? run bob ping
permitted
> tally user bob
tally user bob starts 0 stops 1 watchdogs 0 updates 0 open 0 elapsed 2 drift 1
> tally user eve
tally user eve starts 0 stops 1 watchdogs 0 updates 0 open 0 elapsed 3 drift 0
> tally group ops
tally group ops starts 0 stops 2 watchdogs 0 updates 0 open 0 elapsed 5 drift 1
",
    )
}

// Users of the new policy come in its order, and those who are gone after them. What a user who is
// gone has done stays, and all of it drifts.
#[test]
fn users_come_and_go_and_move(rt: HostRuntime) -> Result<(), Fail> {
    converses(
        &rt,
        OPS,
        RecordLimit::refusing(9),
        "\
? record bob stop 1 2 show run
stored
? record eve stop 2 3 show run
stored
? run eve show run
permitted
> tally group ops
tally group ops starts 0 stops 2 watchdogs 0 updates 0 open 0 elapsed 5 drift 0
< group net; permit ping; user ann in net; user bob in net
ok
user ann now permits: ping
user bob now permits: ping
user bob now denies: show\x20
user eve now denies: show\x20
? run eve show run
unknown user
? run ann ping
permitted
> tally user eve
tally user eve starts 0 stops 1 watchdogs 0 updates 0 open 0 elapsed 3 drift 1
> tally group net
tally group net starts 0 stops 1 watchdogs 0 updates 0 open 0 elapsed 2 drift 1
> tally group ops
refused 2 NoSuch
> records
record 1 user bob stop task 1 elapsed 2 line show%20run
record 2 user eve stop task 2 elapsed 3 line show%20run
> policy
policy 2
group net
permit ping
user ann in net
user bob in net
< user eve; permit show run
ok
user eve now permits: show run
user ann now denies: ping
user bob now denies: ping
> tally user eve
tally user eve starts 0 stops 1 watchdogs 0 updates 0 open 0 elapsed 3 drift 0
> policy
policy 2
user eve
permit show run
",
    )
}

// Secrets and levels are those of the new policy, and no user is told of them.
#[test]
fn secrets_levels_and_order(rt: HostRuntime) -> Result<(), Fail> {
    converses(
        &rt,
        OPS,
        RecordLimit::refusing(9),
        "\
? login bob x
fail
< user eve in ops; group ops; priv 7; permit show .*; user bob in ops; login x
ok
? login bob x
pass
> policy
policy 2
user eve in ops
group ops
priv 7
permit show .*
user bob in ops
login x
< user bob; login more
ok
user bob now denies: show\x20
user eve now denies: show\x20
? login bob x
fail
? login bob more
pass
",
    )
}

// Of a policy in which a subject is too large nothing is taken.
#[test]
fn another_policy_that_is_too_large(rt: HostRuntime) -> Result<(), Fail> {
    converses(
        &rt,
        OPS,
        RecordLimit::refusing(9),
        "\
? record bob stop 1 2 show run
stored
? run bob show run
permitted
< user ann; permit .*; user bob; deny .*a..............; login x; user eve; deny .*a..............
refused 11 TooManyStates user bob
? run bob show run
permitted
? login bob x
fail
? run ann show run
unknown user
> tally user bob
tally user bob starts 0 stops 1 watchdogs 0 updates 0 open 0 elapsed 2 drift 0
> policy
policy 2
group ops
permit show .*
user bob in ops
user eve in ops
",
    )
}

// Edits before another policy are gone with it, and edits after it are of it.
#[test]
fn edits_before_another_policy_and_after(rt: HostRuntime) -> Result<(), Fail> {
    converses(
        &rt,
        OPS,
        RecordLimit::refusing(9),
        "\
> insert group ops 1 deny show run
ok
user bob now denies: show run
user eve now denies: show run
> begin
ok
> drop group ops 1
kept 1
< group ops; permit show .*; user bob in ops; user eve in ops
ok
user bob now permits: show run
user eve now permits: show run
> commit
ok
user bob now denies: show\x20
user eve now denies: show\x20
> insert group ops 1 permit ping
ok
user bob now permits: ping
user eve now permits: ping
",
    )
}

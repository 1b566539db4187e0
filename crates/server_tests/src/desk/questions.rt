//! What questions at the console are answered.

use crate::desk::both::converses;
use std::test::Fail;
use tac_tally::RecordLimit;

#[test]
fn why(rt: HostRuntime) -> Result<(), Fail> {
    converses(
        &rt,
        "group ops\npermit show .*\nuser bob in ops\npermit ()\ndeny show run\nuser eve\n",
        RecordLimit::refusing(9),
        "
        > why bob show version
        permitted by group ops rule 1
        > why bob show run
        denied by user bob rule 2
        > why bob
        permitted by user bob rule 1
        > why bob 
        permitted by user bob rule 1
        > why bob  show version
        denied by default
        > why eve
        denied by default
        > why eve x
        denied by default
        > why ops
        unknown user
        > why joe show version
        unknown user
        # The same rule under its new number, and gone.
        > insert group ops 1 deny ping
        ok
        > why bob show version
        permitted by group ops rule 2
        > move user bob out
        ok
        user bob now denies: show 
        > why bob show version
        denied by default
        ",
    )
}

#[test]
fn tallies(rt: HostRuntime) -> Result<(), Fail> {
    converses(
        &rt,
        "group ops\npermit show .*\ngroup bare\nuser bob in ops\nuser eve in ops\n",
        RecordLimit::refusing(9),
        "
        > tally user bob
        tally user bob starts 0 stops 0 watchdogs 0 updates 0 open 0 elapsed 0 drift 0
        > tally group none
        refused 2 NoSuch
        > tally group bob
        refused 2 NoSuch
        ? record bob start 6 0
        stored
        ? record bob stop 7 12 show version
        stored
        ? record eve update 1 5
        stored
        ? record eve watchdog 1 5
        stored
        ? record zed stop 9 100 show version
        stored
        > tally user bob
        tally user bob starts 1 stops 1 watchdogs 0 updates 0 open 1 elapsed 12 drift 0
        > tally group ops
        tally group ops starts 1 stops 1 watchdogs 1 updates 1 open 1 elapsed 12 drift 0
        # A user who is in no policy may do nothing.
        > tally user zed
        tally user zed starts 0 stops 1 watchdogs 0 updates 0 open 0 elapsed 100 drift 1
        # Where the user moves, the records go too, and are judged by the policy as it is then.
        > move user bob in bare
        ok
        user bob now denies: show 
        > tally user bob
        tally user bob starts 1 stops 1 watchdogs 0 updates 0 open 1 elapsed 12 drift 1
        > tally group ops
        tally group ops starts 0 stops 0 watchdogs 1 updates 1 open 0 elapsed 0 drift 0
        > tally group bare
        tally group bare starts 1 stops 1 watchdogs 0 updates 0 open 1 elapsed 12 drift 1
        > insert group bare 1 permit show version
        ok
        user bob now permits: show version
        > tally user bob
        tally user bob starts 1 stops 1 watchdogs 0 updates 0 open 1 elapsed 12 drift 0
        > add user zed in bare
        ok
        user zed now permits: show version
        > tally group bare
        tally group bare starts 1 stops 2 watchdogs 0 updates 0 open 1 elapsed 112 drift 0
        > remove group bare
        refused 4 InUse
        ",
    )
}

#[test]
fn records(rt: HostRuntime) -> Result<(), Fail> {
    converses(
        &rt,
        "",
        RecordLimit::refusing(3),
        "
        > records
        none
        ? record bob stop 7 12 show version
        stored
        > records
        record 1 user bob stop task 7 elapsed 12 line show%20version
        ? record eve start 8 0
        stored
        ? record eve update a 4294967295
        stored
        ? record eve watchdog a 1
        full
        > records
        record 1 user bob stop task 7 elapsed 12 line show%20version
        record 2 user eve start task 8 elapsed 0
        record 3 user eve update task a elapsed 4294967295
        ",
    )
}

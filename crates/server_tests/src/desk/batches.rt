//! Edits that are made together, all or none.

use crate::desk::both::converses;
use std::test::Fail;
use tac_tally::RecordLimit;

#[test]
fn accepted_batches(rt: HostRuntime) -> Result<(), Fail> {
    converses(
        &rt,
        "group ops\npermit show .*\nuser bob in ops\nlogin x\n",
        RecordLimit::refusing(9),
        "
        # No edits at all.
        > begin
        ok
        > commit
        ok
        > policy
        policy 2
        group ops
        permit show .*
        user bob in ops
        login x

        # What the first changes is changed back by the second.
        > begin
        ok
        > insert group ops 1 deny show .*
        kept 1
        > drop group ops 1
        kept 2
        > commit
        ok

        # Each edit is made on what those before it made, and nothing counts before the commit.
        > begin
        ok
        > add group net
        kept 1
        > insert group net 1 permit ping
        kept 2
        > move user bob in net
        kept 3
        > why bob show version
        permitted by group ops rule 1
        > commit
        ok
        user bob now permits: ping
        user bob now denies: show 
        > why bob show version
        denied by default

        # What an early edit changes is told, and the later edit changes nothing for users.
        > begin
        ok
        > insert group ops 1 deny show .*
        kept 1
        > login bob y
        kept 2
        > commit
        ok
        user bob now denies: show 
        ? login bob y
        pass

        # A user who goes and comes again has no secret, and keeps the rules of the group.
        > begin
        ok
        > remove user bob
        kept 1
        > add user bob in ops
        kept 2
        > commit
        ok
        ? login bob x
        fail
        ? run bob show version
        permitted
        ",
    )
}

#[test]
fn refused_batches(rt: HostRuntime) -> Result<(), Fail> {
    converses(
        &rt,
        "group ops\npermit show .*\nuser bob in ops\nlogin x\n",
        RecordLimit::refusing(9),
        "
        # The first refusal counts, and the edits before it are not made.
        > begin
        ok
        > remove user bob
        kept 1
        > add group net
        kept 2
        > login bob y
        kept 3
        > drop group ops 2
        kept 4
        > commit
        refused at edit 3: 2 NoSuch
        > policy
        policy 2
        group ops
        permit show .*
        user bob in ops
        login x

        # Also of a batch of one the number is told, and of an edit it isn't.
        > begin
        ok
        > drop group ops 2
        kept 1
        > commit
        refused at edit 1: 7 BadIndex
        > drop group ops 2
        refused 7 BadIndex

        # Each chain is judged at its edit, although a later one would shorten it.
        > begin
        ok
        > add group g2 in ops
        kept 1
        > add group g3 in g2
        kept 2
        > add group g4 in g3
        kept 3
        > add group g5 in g4
        kept 4
        > add group g6 in g5
        kept 5
        > add group g7 in g6
        kept 6
        > add group g8 in g7
        kept 7
        > add group g9 in g8
        kept 8
        > remove group g9
        kept 9
        > commit
        refused at edit 8: 6 TooDeep
        > reach group g2
        refused 2 NoSuch
        ",
    )
}

#[test]
fn sizes_of_batches(rt: HostRuntime) -> Result<(), Fail> {
    converses(
        &rt,
        "group ops\npermit show .*\nuser bob in ops\n",
        RecordLimit::refusing(9),
        "
        # Only the policy that all edits make may not be too large.
        > begin
        ok
        > insert group ops 1 deny .*a..............
        kept 1
        > drop group ops 1
        kept 2
        > commit
        ok
        > begin
        ok
        > insert group ops 1 deny .*a..............
        kept 1
        > add group z
        kept 2
        > commit
        refused 11 TooManyStates group ops
        # An edit's own refusal comes first.
        > begin
        ok
        > insert group ops 1 deny .*a..............
        kept 1
        > add group ops
        kept 2
        > commit
        refused at edit 2: 3 Exists
        > policy
        policy 2
        group ops
        permit show .*
        user bob in ops
        ",
    )
}

#[test]
fn drift_after_batches(rt: HostRuntime) -> Result<(), Fail> {
    converses(
        &rt,
        "group ops\npermit show .*\nuser bob in ops\nuser eve in ops\n",
        RecordLimit::refusing(9),
        "
        ? record bob stop 7 12 show version
        stored
        ? record eve stop 8 3 show run
        stored
        > begin
        ok
        > insert user bob 1 deny show v.*
        kept 1
        > insert user eve 1 deny show i.*
        kept 2
        ? record bob stop 9 1 show version
        stored
        > tally group ops
        tally group ops starts 0 stops 3 watchdogs 0 updates 0 open 0 elapsed 16 drift 0
        > commit
        ok
        user bob now denies: show v
        user eve now denies: show i
        > tally user bob
        tally user bob starts 0 stops 2 watchdogs 0 updates 0 open 0 elapsed 13 drift 2
        > tally user eve
        tally user eve starts 0 stops 1 watchdogs 0 updates 0 open 0 elapsed 3 drift 0
        # Refused batches leave it.
        > begin
        ok
        > drop user bob 1
        kept 1
        > drop user bob 1
        kept 2
        > commit
        refused at edit 2: 7 BadIndex
        > tally group ops
        tally group ops starts 0 stops 3 watchdogs 0 updates 0 open 0 elapsed 16 drift 2
        > begin
        ok
        > insert group ops 1 deny show run
        kept 1
        > drop user bob 1
        kept 2
        > commit
        ok
        user bob now permits: show v
        user bob now denies: show run
        user eve now denies: show run
        > tally group ops
        tally group ops starts 0 stops 3 watchdogs 0 updates 0 open 0 elapsed 16 drift 1
        ",
    )
}

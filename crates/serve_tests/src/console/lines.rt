//! What lines are answered where the log of calls is full, or its segments begin by themselves.

use crate::console::support::converses;
use std::test::Fail;

#[test]
fn a_full_log(rt: HostRuntime) -> Result<(), Fail> {
    converses(
        &rt,
        "
        calls 2 next 9999 room 9999 whole: - = Ok(()) Some(LogFull)
        > shadow
        none
        > hello
        refused 1 BadEdit
        > begin
        ok
        > drop group ops 7
        kept 1
        > abandon
        ok
        > drop group ops 7
        refused 7 BadIndex
        > policy
        refused 13 LogFull
        > hello
        refused 1 BadEdit
        > begin
        ok
        > add group net
        kept 1
        > policy
        refused 13 LogFull
        > begin
        refused 1 BadEdit
        > commit
        refused 13 LogFull
        > commit
        refused 1 BadEdit
        > reload devices
        no devices
        > reload
        refused 12 Memory
        refused 13 LogFull

        calls 0 next 9999 room 9999 whole: - = Ok(()) Some(LogFull)
        > shadow
        refused 13 LogFull
        refused 13 LogFull

        calls 2 next 9999 room 9999 whole: - = Ok(()) Some(Closed)
        > rotate
        rotated 0 entries 0
        > shadow
        none
        > drop group ops 7
        refused 7 BadIndex
        > shadow
        refused 13 LogFull
        > begin
        ok
        > add group net
        kept 1
        > rotate
        rotated 1 entries 2
        > add group a,b
        refused 1 BadEdit
        > commit
        ok
        > rotate
        rotated 2 entries 1
        > why bob show x
        permitted by group ops rule 1
        > reach group net
        none
        > rotate
        rotated 3 entries 2
        ",
    )
}

// Where the log takes as many calls as come before the next segment, none is refused, and not the Stop
// either.
#[test]
fn segments_that_begin_by_themselves(rt: HostRuntime) -> Result<(), Fail> {
    converses(
        &rt,
        "
        calls 9 next 3 room 9999 whole: - = Ok(()) Some(Closed)
        > shadow
        none
        > drop group ops 7
        refused 7 BadIndex
        > shadow
        none
        > rotate
        rotated 1 entries 1

        calls 2 next 3 room 9999 whole: - = Ok(()) Some(Closed)
        > shadow
        none
        > shadow
        none
        > shadow
        none
        > shadow
        none

        calls 2 next 4 room 9999 whole: - = Ok(()) Some(LogFull)
        > shadow
        none
        > shadow
        none
        > shadow
        refused 13 LogFull
        refused 13 LogFull
        ",
    )
}

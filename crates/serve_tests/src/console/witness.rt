//! What the witness of a console is told, and when.

use crate::console::support::converses;
use std::test::Fail;

#[test]
fn each_line_before_its_answer(rt: HostRuntime) -> Result<(), Fail> {
    converses(
        &rt,
        "
        calls 999 next 9999 room 9999 whole: nothing of this = Ok(()) Some(Closed)
        > shadow
        * shadow [none
        ]
        none
        > hello
        * hello [refused 1 BadEdit
        ]
        refused 1 BadEdit
        > 
        *  [refused 1 BadEdit
        ]
        refused 1 BadEdit
        > insert group ops 1 deny show .*
        * insert group ops 1 deny show .* [ok
        user bob now denies: show 
        ]
        ok
        user bob now denies: show 
        > rotate
        * rotate [rotated 0 entries 2
        ]
        rotated 0 entries 2
        > reload
        * reload [refused 12 Memory
        ]
        refused 12 Memory
        > reload devices
        * reload devices [no devices
        ]
        no devices
        > why bob~
        * why bob [denied by default
        ]
        denied by default

        calls 999 next 9999 room 9999 whole: nothing of this = Ok(()) Some(Closed)
        > shadow
        * shadow [none
        ]
        none
        > quit
        * quit []
        > hello
        > quit
        ",
    )
}

// Nor is it told of the Stop: the first `refused 13 LogFull` is the answer of a line, and the second
// is the Stop's.
#[test]
fn nothing_of_the_end_nor_of_half_a_line(rt: HostRuntime) -> Result<(), Fail> {
    converses(
        &rt,
        "
        calls 999 next 9999 room 9999 whole: nothing of this = Ok(()) Some(Closed)

        calls 999 next 9999 room 9999 fails: nothing of this = Err(ReadFault) Some(Closed)
        > shadow
        * shadow [none
        ]
        none
        > quit~

        calls 0 next 9999 room 9999 whole: nothing of this = Ok(()) Some(LogFull)
        > shadow
        * shadow [refused 13 LogFull
        ]
        refused 13 LogFull
        > quit~
        * quit []
        refused 13 LogFull
        ",
    )
}

#[test]
fn a_refused_line_is_answered(rt: HostRuntime) -> Result<(), Fail> {
    converses(
        &rt,
        "
        calls 999 next 9999 room 9999 whole: shadow = Ok(()) Some(Closed)
        > shadow
        ! shadow [none
        ]
        none
        > begin
        * begin [ok
        ]
        ok
        > shadow
        ! shadow [none
        ]
        none
        > quit
        * quit []

        calls 999 next 9999 room 9999 whole: quit = Ok(()) Some(Closed)
        > quit
        ! quit []
        ",
    )
}

#[test]
fn before_a_write_that_fails(rt: HostRuntime) -> Result<(), Fail> {
    converses(
        &rt,
        "
        calls 999 next 9999 room 0 whole: nothing of this = Err(WriteFault) Some(Closed)
        > shadow
        * shadow [none
        ]
        > hello
        > quit

        calls 999 next 9999 room 7 whole: nothing of this = Err(WriteFault) Some(Closed)
        > shadow
        * shadow [none
        ]
        none
        > hello
        * hello [refused 1 BadEdit
        ]
        re~
        > quit

        calls 0 next 9999 room 3 whole: nothing of this = Err(WriteFault) Some(LogFull)
        > quit
        * quit []
        ref~
        ",
    )
}

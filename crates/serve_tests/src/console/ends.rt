//! How a console ends: the Stop is made in any case, where the log has a place for it.

use crate::console::support::converses;
use std::test::Fail;

#[test]
fn by_the_end_of_the_input(rt: HostRuntime) -> Result<(), Fail> {
    converses(
        &rt,
        "
        calls 1 next 9999 room 99 whole: - = Ok(()) Some(Closed)

        calls 0 next 9999 room 99 whole: - = Ok(()) Some(LogFull)
        refused 13 LogFull

        calls 2 next 9999 room 99 whole: - = Ok(()) Some(Closed)
        > shadow~
        none

        calls 1 next 9999 room 99 whole: - = Ok(()) Some(LogFull)
        > shadow~
        none
        refused 13 LogFull

        calls 2 next 9999 room 99 whole: - = Ok(()) Some(Closed)
        > 
        refused 1 BadEdit
        > shadow
        none

        calls 1 next 9999 room 99 whole: - = Ok(()) Some(Closed)
        > quit~

        calls 1 next 9999 room 99 whole: - = Ok(()) Some(Closed)
        > begin
        ok
        > add group net~
        kept 1

        calls 2 next 9999 room 99 whole: - = Ok(()) Some(Closed)
        > shadow
        none
        > quitshadow~
        refused 1 BadEdit

        calls 9 next 9999 room 99 stopped: - = Ok(()) Some(Closed)
        > begin
        ok
        > shadow
        refused 14 Closed
        > rotate
        refused 14 Closed
        > commit
        refused 14 Closed
        > commit
        refused 1 BadEdit
        refused 14 Closed
        ",
    )
}

#[test]
fn by_a_failed_read(rt: HostRuntime) -> Result<(), Fail> {
    converses(
        &rt,
        "
        calls 1 next 9999 room 99 fails: - = Err(ReadFault) Some(Closed)

        calls 0 next 9999 room 99 fails: - = Err(ReadFault) Some(LogFull)

        calls 1 next 9999 room 99 fails: - = Err(ReadFault) Some(Closed)
        > shadow~

        calls 3 next 9999 room 99 fails: - = Err(ReadFault) Some(Closed)
        > shadow
        none
        > shadow
        none

        calls 2 next 9999 room 99 fails: - = Err(ReadFault) Some(LogFull)
        > shadow
        none
        > shadow
        none

        calls 2 next 9999 room 99 fails: - = Err(ReadFault) Some(Closed)
        > shadow
        none
        > quit~

        calls 1 next 9999 room 99 fails: - = Err(ReadFault) Some(Closed)
        > begin
        ok
        > add group net
        kept 1
        > commit~

        calls 2 next 9999 room 99 fails: - = Ok(()) Some(Closed)
        > shadow
        none
        > quit
        ",
    )
}

#[test]
fn by_a_failed_write(rt: HostRuntime) -> Result<(), Fail> {
    converses(
        &rt,
        "
        calls 3 next 9999 room 10 whole: - = Ok(()) Some(Closed)
        > shadow
        none
        > shadow
        none

        calls 3 next 9999 room 9 whole: - = Err(WriteFault) Some(Closed)
        > shadow
        none
        > shadow
        none~

        calls 2 next 9999 room 9 whole: - = Err(WriteFault) Some(LogFull)
        > shadow
        none
        > shadow
        none~

        calls 3 next 9999 room 5 whole: - = Err(WriteFault) Some(Closed)
        > shadow
        none
        > shadow

        calls 2 next 9999 room 4 whole: - = Err(WriteFault) Some(Closed)
        > shadow
        none~
        > shadow

        calls 2 next 9999 room 0 whole: - = Err(WriteFault) Some(Closed)
        > shadow
        > shadow

        calls 1 next 9999 room 9 whole: - = Err(WriteFault) Some(Closed)
        > begin
        ok
        > add group net
        kept 1~
        > commit

        calls 1 next 9999 room 0 whole: - = Err(WriteFault) Some(Closed)
        > hello
        > shadow

        calls 2 next 9999 room 4 whole: - = Err(WriteFault) Some(Closed)
        > shadow
        none~
        > shadow~

        calls 2 next 9999 room 4 half: - = Err(WriteFault) Some(Closed)
        > shadow
        none~
        > shadow bob
        ",
    )
}

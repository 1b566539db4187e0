//! What a server answers on connections and at its console where its records are full, and where memory
//! runs out.

use crate::server::conversing::converses;
use crate::server::starved::Starved;
use pol_text::Policy;
use std::test::Fail;
use tac_desks::PlainDesk;

#[test]
fn records_up_to_the_limit(rt: HostRuntime) -> Result<(), Fail> {
    let desk = PlainDesk::new(rt.alloc(), Policy::new(rt.alloc()), 2)?;
    converses(
        &rt,
        desk,
        "
        # An update by bob, of task 7.
        > open 4294967295
        > hand 4294967295 c0030104.00000001.0000001a.0a060101010304000109'bobtty0task_id=7'
        < c0030204.00000001.00000005.0000000001
        > hand 4294967295 c0030104.00000002.0000001a.0a060101010304000109'bobtty0task_id=7'
        < c0030204.00000002.00000005.0000000001
        > open 1
        > hand 1 c0030100.00000001.0000001a.0a060101010304000109'bobtty0task_id=7'
        < c0030200.00000001.00000011.000c000002'records full'
        closed
        > tally user bob
        tally user bob starts 0 stops 0 watchdogs 0 updates 2 open 0 elapsed 0 drift 0
        ",
    )
}

#[test]
fn out_of_memory(rt: HostRuntime) -> Result<(), Fail> {
    let policy = b"group ops\npermit show .*\nuser bob in ops\n";
    let policy = Policy::read(rt.alloc(), policy.as_slice())?;
    converses(
        &rt,
        Starved::new(rt.alloc(), policy)?,
        "
        > open 1
        > open 1
        AlreadyOpen
        > open 2
        # Memory is wanted for the second of three packets: the first has its reply, and no other.
        > hand 1 c0020104.00000001.00000036.06010101030400030d080f'bobtty0service=shellcmd=showcmd-arg=version' c0030104.00000002.0000001a.0a060101010304000109'bobtty0task_id=8' c0020104.00000003.00000036.06010101030400030d080f'bobtty0service=shellcmd=showcmd-arg=version'
        < c0020204.00000001.00000006.010000000000
        Memory { accepted: false }
        # That connection is gone, and the others answer as before.
        > hand 1 c0020104.00000001.00000036.06010101030400030d080f'bobtty0service=shellcmd=showcmd-arg=version'
        NoConnection
        > hand 2 c0020104.00000001.00000036.06010101030400030d080f'bobtty0service=shellcmd=showcmd-arg=version'
        < c0020204.00000001.00000006.010000000000
        > open 1
        # After a question without memory no batch is open at the console.
        > begin
        ok
        > add group net
        kept 1
        > records
        Memory { accepted: false }
        > commit
        refused 1 BadEdit
        > why bob show version
        permitted by group ops rule 1
        # On a connection it leaves the batch open, and so do events.
        > begin
        ok
        > hand 2 c0030104.00000002.0000001a.0a060101010304000109'bobtty0task_id=7'
        Memory { accepted: false }
        > hand 2
        NoConnection
        > open 2
        > lost 2
        > insert group ops 1 deny show .*
        kept 1
        # The batch isn't made, and is gone.
        > commit
        Memory { accepted: false }
        > abandon
        refused 1 BadEdit
        > insert group ops 1 deny show .*
        Memory { accepted: false }
        > policy
        policy 2
        group ops
        permit show .*
        user bob in ops
        > hand 1 c0020104.00000001.00000036.06010101030400030d080f'bobtty0service=shellcmd=showcmd-arg=version'
        < c0020204.00000001.00000006.010000000000
        ",
    )
}

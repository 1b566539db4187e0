//! What connections ask, and what edits between the asks change.

use crate::desk::both::converses;
use std::test::Fail;
use tac_tally::RecordLimit;

#[test]
fn logins_and_lines(rt: HostRuntime) -> Result<(), Fail> {
    converses(
        &rt,
        "group ops\npermit show .*\nuser bob in ops\nlogin secret\nenable more\n",
        RecordLimit::refusing(1),
        "
        ? login bob secret
        pass
        ? login bob more
        fail
        ? enable bob more
        pass
        ? enable bob secret
        fail
        ? login eve secret
        fail
        ? login b,b secret
        fail
        ? login  
        fail
        ? run bob show version
        permitted
        ? run bob ping
        denied by default
        ? run eve show version
        unknown user
        ? run bob show\u{7f}
        unprintable
        ? run eve show\u{7f}
        unknown user
        # Edits count at once.
        > insert group ops 1 deny show .*
        ok
        user bob now denies: show 
        ? run bob show version
        denied by group ops rule 1
        > clear login bob
        ok
        ? login bob secret
        fail
        > remove user bob
        ok
        ? enable bob more
        fail
        ? run bob show version
        unknown user
        ",
    )
}

//! By how much the meter rises: only what edits leave wrong is made anew.

use crate::automaton::support::{Judge, edits, judges};
use pol_automaton::Meter;
use pol_edit::read_edit;
use pol_live::Live;
use pol_text::Policy;
use std::alloc::Global;
use std::test::Fail;

#[derive(Drop)]
struct Metered {
    live: Live,
    meter: Meter,
}

// By how much the edits together raise a meter; nothing is made of them.
fn rise(alloc: Global, live: &Live, line: &str) -> Result<u128, Fail> {
    let edits = edits(alloc, line)?;
    let mut meter = Meter::new();
    let _ = live.prepare_all(alloc, edits.as_slice(), &mut meter)?;
    Ok(meter.total())
}

impl Metered {
    // What the meter shows once the edit is made.
    fn total(&mut self, alloc: Global, line: &str) -> Result<u128, Fail> {
        let edit = read_edit(alloc, line.as_bytes())?;
        let prepared = self.live.prepare(alloc, &edit, &mut self.meter)?;
        self.live.commit(prepared);
        Ok(self.meter.total())
    }
}

// `NUMBER EDIT`: what the meter shows once the edit is made. `+NUMBER EDITS`: by how much the
// edits would raise it together.
impl Judge for Metered {
    fn is_so(&mut self, alloc: Global, line: &str) -> Result<bool, Fail> {
        let (number, words) = line.split_once(' ').unwrap_or((line, ""));
        match number.strip_prefix('+') {
            Some(number) => Ok(number.parse() == Ok(rise(alloc, &self.live, words)?)),
            None => Ok(number.parse() == Ok(self.total(alloc, words)?)),
        }
    }
}

#[test]
fn only_what_changes_is_made_anew(rt: HostRuntime) -> Result<(), Fail> {
    let alloc = rt.alloc();
    let policy = Policy::read(
        alloc,
        "group ops\npermit show .*\nuser bob in ops\n".as_bytes(),
    )?;
    let mut meter = Meter::new();
    let live = Live::build(alloc, policy, &mut meter)?;
    assert!(&rt; meter.total() == 7, "built");
    judges(
        &rt,
        &mut Metered { live, meter },
        "
        # Several edits: each automaton is made once, of the policy that all of them make.
        +0
        +6 add group net; insert group net 1 permit ping; move user bob in net
        +24 insert group ops 1 deny show .*; insert user bob 1 permit ping
        +24 insert user bob 1 permit ping; insert group ops 1 deny show .*
        +7 insert group ops 1 deny show .*; drop group ops 1
        +0 insert user bob 1 permit ping; drop user bob 1
        +17 remove user bob; add user bob in ops; insert user bob 1 permit ping
        +0 add group net; remove group net
        # Bob has no rules, and his group's automaton where he is in it.
        +1 move user bob out
        +0 move user bob out; move user bob in ops
        14 insert group ops 1 deny show .*
        14 login bob x
        31 insert user bob 1 permit ping
        +19 add group base; move group ops in base
        +8 add group base; move group ops in base; drop user bob 1
        32 add group base
        50 move group ops in base
        50 drop user bob 1
        64 drop group ops 1
        # A rule that stays in its place is counted as shifted.
        78 shift group ops 1 1
        79 move user bob out
        79 move user bob in ops
        79 remove user bob
        79 priv group ops 3
        ",
    )
}

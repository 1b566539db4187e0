//! What the tests share.

use pol_text::Policy;
use std::alloc::Global;
use std::test::Fail;
use tac_desks::PlainDesk;
use tac_wire::Key;

/// Bob may show things.
const POLICY: &[u8] = b"group ops\npermit show .*\nuser bob in ops\n";

pub(crate) fn key() -> Result<Key, Fail> {
    Ok(Key::read(b"k").ok_or("no key")?)
}

/// A desk of bob's policy.
pub(crate) fn desk_of(alloc: Global) -> Result<PlainDesk, Fail> {
    let policy = Policy::read(alloc, POLICY)?;
    Ok(PlainDesk::new(alloc, policy, 9)?)
}

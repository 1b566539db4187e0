//! Sending to writers that take little, are interrupted, or fail.

use crate::io::scripted::Scripted;
use basics::send;
use std::alloc::Global;
use std::process::Abort;
use std::test::Fail;

// Sends eight bytes. Whether so many are taken, and whether that is a success, with no letter left.
fn is_sent(alloc: Global, letters: &str, wanted: usize, succeeds: bool) -> bool {
    let bytes = b"abcdefgh";
    let mut writer = Scripted::new(alloc, letters);
    let (sent, outcome) = send(&mut writer, bytes);
    outcome.is_ok() == succeeds
        && sent == wanted
        && writer.taken.as_slice() == &bytes[..wanted.min(8)]
        && writer.letters.is_empty()
}

// Sends them by these letters, so that as many are taken as is wanted.
fn sends<R: Abort + AllocGlobal>(rt: &R, letters: &str, wanted: usize, succeeds: bool) {
    assert!(rt;
        is_sent(rt.alloc(), letters, wanted, succeeds),
        "by {letters:?}"
    );
}

#[test]
fn whole(rt: HostRuntime) {
    for letters in [
        "", "8", "9", "11111111", "3", "i", "iii", "3i1ii2i2", "i11111",
    ] {
        sends(&rt, letters, 8, true);
    }
}

// Fails by this letter, or two, after so many bytes of one letter each.
fn fails<R: Abort + AllocGlobal>(
    rt: &R,
    letters: &str,
    failure: &str,
    taken: usize,
) -> Result<(), Fail> {
    let script = format!(in rt.alloc(); "{letters}{failure}")?;
    sends(rt, script.as_str(), taken, false);
    Ok(())
}

// Fails after none of the bytes, and after each; then all are taken.
fn fails_at_each_byte<R: Abort + AllocGlobal>(rt: &R, letters: &mut String) -> Result<(), Fail> {
    for taken in 0..8 {
        for failure in ["x", "0", "ix", "i0"] {
            fails(rt, letters.as_str(), failure, taken)?;
        }
        letters.push('1')?;
    }
    sends(rt, letters.as_str(), 8, true);
    Ok(())
}

#[test]
fn failing_at_each_byte(rt: HostRuntime) -> Result<(), Fail> {
    let mut letters = String::new(rt.alloc());
    fails_at_each_byte(&rt, &mut letters)
}

// Where there is nothing to send, the writer isn't asked.
#[test]
fn nothing(rt: HostRuntime) {
    let mut writer = Scripted::new(rt.alloc(), "x");
    let (sent, outcome) = send(&mut writer, b"");
    assert_eq!(rt; sent, 0);
    assert!(rt; outcome.is_ok());
    assert_eq!(rt; writer.letters.len(), 1);
}

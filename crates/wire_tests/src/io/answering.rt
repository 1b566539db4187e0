//! The line that says that memory ran out, to writers that take little, are interrupted, or fail.

use crate::io::scripted::Scripted;
use std::alloc::Global;
use std::process::Abort;
use std::test::Fail;
use tac_io::{AnswerFault, InputFault, write_answer};

// Says that memory ran out. Whether so many bytes of the line are taken, with no letter left: what
// a writer refused isn't tried again. It is told whether the line was written.
fn is_said(alloc: Global, letters: &str, wanted: usize) -> bool {
    let line = b"fault Memory\n";
    let mut writer = Scripted::new(alloc, letters);
    let answer: Result<(Vec<u8>, u8), InputFault> = Err(InputFault::Memory);
    let told = write_answer(&mut writer, answer);
    let fault = if wanted < 13 {
        AnswerFault::Untold
    } else {
        AnswerFault::Memory
    };
    told == Err(fault)
        && writer.taken.as_slice() == &line[..wanted.min(13)]
        && writer.letters.is_empty()
}

// Says so by these letters, so that as many bytes are taken as is wanted.
fn says<R: Abort + AllocGlobal>(rt: &R, letters: &str, wanted: usize) {
    assert!(rt; is_said(rt.alloc(), letters, wanted), "by {letters:?}");
}

#[test]
fn whole(rt: HostRuntime) {
    for letters in ["", "9", "94", "1111111111111", "i", "3i1ii2i7"] {
        says(&rt, letters, 13);
    }
}

// Fails by this letter, or two, after so many bytes of one letter each.
fn fails<R: Abort + AllocGlobal>(
    rt: &R,
    letters: &str,
    failure: &str,
    taken: usize,
) -> Result<(), Fail> {
    let script = format!(in rt.alloc(); "{letters}{failure}")?;
    says(rt, script.as_str(), taken);
    Ok(())
}

// Fails after none of the bytes, and after each but the last.
fn fails_at_each_byte<R: Abort + AllocGlobal>(rt: &R, letters: &mut String) -> Result<(), Fail> {
    for taken in 0..13 {
        for failure in ["x", "0", "ix", "i0"] {
            fails(rt, letters.as_str(), failure, taken)?;
        }
        letters.push('1')?;
    }
    Ok(())
}

#[test]
fn failing_at_each_byte(rt: HostRuntime) -> Result<(), Fail> {
    let mut letters = String::new(rt.alloc());
    fails_at_each_byte(&rt, &mut letters)
}

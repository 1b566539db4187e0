//! What no text of a policy shows of patterns, and no script of refusals: bytes that are no symbols,
//! patterns by themselves, and want of memory.

use pol_edit::{BatchFault, EditFault};
use pol_pattern::{Pattern, PatternFault};
use pol_text::PolicyFault;
use std::alloc::{AllocError, Global};
use std::test::Fail;

#[test]
fn bytes_that_are_no_symbols(rt: HostRuntime) {
    for (source, fault) in [
        (b"a\x7f".as_slice(), PatternFault::Unprintable(1)),
        (b"\xc3\xa9", PatternFault::Unprintable(0)),
        (b"{2}\t", PatternFault::Unprintable(3)),
        // It comes before all else but the length.
        (b"*\x7f", PatternFault::Unprintable(1)),
        (&[0xff; 401], PatternFault::TooLong),
    ] {
        let version_2 = Pattern::read(rt.alloc(), source).err();
        let version_1 = Pattern::read_v1(rt.alloc(), source).err();
        assert_eq!(&rt; version_2, Some(fault), "{source:?}");
        assert_eq!(&rt; version_1, Some(fault), "{source:?}");
    }
}

#[test]
fn stars_take_no_time(rt: HostRuntime) -> Result<(), Fail> {
    for (source, holds) in [
        ("((((a*)*)*)*)*b", false),
        ("(((a|aa)*)+)?(a*a*a*)*", true),
        ("a*a*a*a*a*a*a*a*a*a*a*a*a*a*a*a*a*a*a*a*a*a*a*a*b", false),
    ] {
        let pattern = Pattern::read(rt.alloc(), source.as_bytes())?;
        assert!(&rt; pattern.contains(&[b'a'; 4_000]) == holds, "{source}");
        assert!(&rt; !pattern.contains(b"a\x7f"), "{source}");
    }
    Ok(())
}

// What is printed of a fault of a text, of an edit, and of edits that are made together.
fn printed_faults(alloc: Global) -> Result<String, AllocError> {
    let (text, edit) = (PolicyFault::Memory, EditFault::Memory);
    let edits = BatchFault::of_all(EditFault::Memory);
    format!(in alloc; "{text}, {edit}, {edits}")
}

#[test]
fn want_of_memory(rt: HostRuntime) -> Result<(), Fail> {
    let printed = printed_faults(rt.alloc())?;
    assert!(&rt;
        printed.as_str() == "11 Memory, 12 Memory, 12 Memory",
        "{printed}"
    );
    Ok(())
}

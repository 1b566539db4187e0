//! Lists of patterns in a line, with a `;` between two.

use pol_automaton::{Decider, DeciderFault, Entries, Meter};
use pol_pattern::Pattern;
use std::alloc::Global;
use std::test::Fail;

/// The list of none.
pub(crate) const NONE: &str = "[]";

/// Adds the patterns of a list.
pub(crate) fn push_patterns(
    alloc: Global,
    patterns: &mut Vec<Pattern>,
    list: &str,
) -> Result<(), Fail> {
    if list == NONE {
        return Ok(());
    }
    for source in list.split(';') {
        patterns.push(Pattern::read(alloc, source.as_bytes())?)?;
    }
    Ok(())
}

/// The automaton of patterns.
pub(crate) fn own(alloc: Global, patterns: &[Pattern]) -> Result<Decider, DeciderFault> {
    let mut meter = Meter::new();
    Decider::own(alloc, patterns, 4096, &mut meter)
}

/// Adds an entry, whose pattern is then let go of.
pub(crate) fn add(alloc: Global, entries: &mut Entries, source: &[u8]) -> Result<(), Fail> {
    let pattern = Pattern::read(alloc, source)?;
    entries.add(&pattern)?;
    Ok(())
}

fn add_each(alloc: Global, entries: &mut Entries, list: &str) -> Result<(), Fail> {
    if list == NONE {
        return Ok(());
    }
    for source in list.split(';') {
        add(alloc, entries, source.as_bytes())?;
    }
    Ok(())
}

/// The entries of a list.
pub(crate) fn entries(alloc: Global, list: &str) -> Result<Entries, Fail> {
    let mut entries = Entries::new(alloc);
    add_each(alloc, &mut entries, list)?;
    Ok(entries)
}

//! What is said of a log on standard error. It doesn't matter whether that can be written.

use crate::tail::Untaken;

/// Says that it takes no lines, and why.
pub(crate) fn say_that_it_fails<H: Eprint>(host: &H, name: &str, why: &Untaken) {
    let _ = eprintln!(host; "tacd: {name}: {why}; requests aren't answered until it takes lines");
}

/// Says that it takes lines again.
pub(crate) fn say_that_it_takes_lines<H: Eprint>(host: &H, name: &str) {
    let _ = eprintln!(host; "tacd: {name}: it takes lines again");
}

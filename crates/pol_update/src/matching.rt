//! Which of a subject's rules stay, which are moved, and which are new.

use pol_text::Rule;
use std::alloc::{AllocError, Global};

/// A rule that is wanted.
#[derive(Clone, Copy)]
pub(crate) struct Wanted {
    /// Which of the present rules it is, counted from 0.
    pub(crate) origin: Option<usize>,
    // the most rules that could stay, of those up to this one, which stays; 0 for a new one
    run: usize,
    /// Whether it stays where it is.
    pub(crate) stays: bool,
}

// The first present rule that is this one and isn't taken.
fn first_free(present: &[Rule], taken: &[bool], rule: &Rule) -> Option<usize> {
    present
        .iter()
        .zip(taken)
        .position(|(other, taken)| !*taken && other == rule)
}

// The longest run that ends in a rule from before this place.
fn longest_before(wanted: &[Wanted], place: usize) -> usize {
    let mut longest = 0;
    for rule in wanted {
        if rule.origin < Some(place) && rule.run > longest {
            longest = rule.run;
        }
    }
    longest
}

// Which of the present rules each is that is wanted.
fn origins(alloc: Global, present: &[Rule], rules: &[Rule]) -> Result<Vec<Wanted>, AllocError> {
    let mut taken = vec![in alloc; false; present.len()]?;
    let mut wanted = Vec::new(alloc);
    for rule in rules {
        let origin = first_free(present, &taken, rule);
        let mut run = 0;
        if let Some(at) = origin {
            if let Some(place) = taken.get_mut(at) {
                *place = true;
            }
            run = longest_before(&wanted, at).saturating_add(1);
        }
        wanted.push(Wanted {
            origin,
            run,
            stays: false,
        })?;
    }
    Ok(wanted)
}

// The longest of all runs.
fn longest(wanted: &[Wanted]) -> usize {
    wanted.iter().map(|rule| rule.run).max().unwrap_or(0)
}

/// Which of the present rules those are that are wanted, each of them once, and which of these stay
/// where they are: as many as can, where no rule stands twice. Quadratic.
pub(crate) fn matched(
    alloc: Global,
    present: &[Rule],
    rules: &[Rule],
) -> Result<Vec<Wanted>, AllocError> {
    let mut wanted = origins(alloc, present, rules)?;
    let mut left = longest(&wanted);
    let mut end = None;
    for at in (0..wanted.len()).rev() {
        let rule = &mut wanted[at];
        if left > 0 && rule.run == left && (end.is_none() || rule.origin < end) {
            rule.stays = true;
            end = rule.origin;
            left -= 1;
        }
    }
    Ok(wanted)
}

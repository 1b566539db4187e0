//! Rules: those that are dropped, moved and inserted.

use crate::matching::{Wanted, matched};
use crate::plan::Plan;
use crate::row::Row;
use basics::Bytes;
use pol_edit::Edit;
use pol_names::SubjectId;
use pol_text::{Rule, Subject};
use std::alloc::{AllocError, Global};

// The number of the rule at this place, counted from 0.
fn number(at: usize) -> u16 {
    u16::try_from(at.saturating_add(1)).unwrap_or(u16::MAX)
}

// The places of the rules that the subject has no longer, the last one first.
fn places_gone(alloc: Global, present: &[Rule], rules: &[Rule]) -> Result<Vec<usize>, AllocError> {
    let kept = matched(alloc, present, rules)?;
    (0..present.len())
        .rev()
        .filter(|at| !kept.iter().any(|rule| rule.origin == Some(*at)))
        .collect(alloc)
}

/// Drops the rules that a subject which is there has no longer.
pub(crate) fn drop_rules(
    alloc: Global,
    plan: &mut Plan,
    subject: &Subject,
) -> Result<(), AllocError> {
    let id = subject.id();
    let Some(present) = plan.made().find(&id) else {
        return Ok(());
    };
    let gone = places_gone(alloc, present.rules.as_slice(), subject.rules.as_slice())?;
    for at in &gone {
        plan.add(
            alloc,
            Edit::RemoveRule {
                subject: id,
                at: number(*at),
            },
        )?;
    }
    Ok(())
}

// Puts a rule where it goes.
fn put(
    alloc: Global,
    plan: &mut Plan,
    row: &mut Row,
    subject: SubjectId,
    rule: &Rule,
    wanted: &Wanted,
) -> Result<(), AllocError> {
    let Some(origin) = wanted.origin else {
        let at = number(row.insert()?);
        let verdict = rule.verdict;
        let pattern = Bytes::from_slice(alloc, rule.pattern.source())?;
        return plan.add(
            alloc,
            Edit::InsertRule {
                subject,
                at,
                verdict,
                pattern,
            },
        );
    };
    if wanted.stays {
        row.pass(origin);
        return Ok(());
    }
    match row.shift(origin) {
        Some((from, to)) => {
            let (from, to) = (number(from), number(to));
            plan.add(alloc, Edit::MoveRule { subject, from, to })
        }
        None => Ok(()),
    }
}

/// Moves and inserts rules until a subject that is there, and has no others, has those of this one.
pub(crate) fn arrange_rules(
    alloc: Global,
    plan: &mut Plan,
    subject: &Subject,
) -> Result<(), AllocError> {
    let id = subject.id();
    let Some(present) = plan.made().find(&id) else {
        return Ok(());
    };
    let present = present.rules.as_slice();
    let rules = subject.rules.as_slice();
    let wanted = matched(alloc, present, rules)?;
    let mut row = Row::new(alloc, present.len())?;
    for (rule, wanted) in rules.iter().zip(&wanted) {
        put(alloc, plan, &mut row, id, rule, wanted)?;
    }
    Ok(())
}

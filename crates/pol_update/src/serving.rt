//! Lines about services: those that are cleared, and those that are added.

use crate::plan::Plan;
use pol_edit::Edit;
use pol_names::{Says, ServiceLine, SubjectId};
use pol_text::Subject;
use std::alloc::{AllocError, Global};

// How many lines both have first.
fn count_same(present: &[ServiceLine], lines: &[ServiceLine]) -> usize {
    present
        .iter()
        .zip(lines)
        .position(|(one, other)| one != other)
        .unwrap_or(present.len().min(lines.len()))
}

// How many lines the subject has, if it is there, and how many of them this one has first too.
fn counts(plan: &Plan, subject: &Subject) -> Option<(usize, usize)> {
    let Some(present) = plan.made().find(&subject.id()) else {
        return None;
    };
    let present = present.services.as_slice();
    Some((
        present.len(),
        count_same(present, subject.services.as_slice()),
    ))
}

// The edit that takes out this line alone: one without an attribute is the only one of its service.
fn clearing(alloc: Global, id: &SubjectId, line: &ServiceLine) -> Result<Edit, AllocError> {
    let subject = *id;
    let service = line.service;
    let attribute = match &line.says {
        Says::Allows(Some(text)) => {
            let text = text.copy(alloc)?;
            Some(text)
        }
        Says::Allows(None) | Says::Refuses => None,
    };
    Ok(Edit::ClearService {
        subject,
        service,
        attribute,
    })
}

// Takes out the last line of a subject, if it has one.
fn clear_last(alloc: Global, plan: &mut Plan, id: &SubjectId) -> Result<(), AllocError> {
    let Some(present) = plan.made().find(id) else {
        return Ok(());
    };
    let Some(line) = present.services.as_slice().last() else {
        return Ok(());
    };
    let edit = clearing(alloc, id, line)?;
    plan.add(alloc, edit)
}

fn add_line(
    alloc: Global,
    plan: &mut Plan,
    id: &SubjectId,
    line: &ServiceLine,
) -> Result<(), AllocError> {
    let subject = *id;
    let line = line.copy(alloc)?;
    plan.add(alloc, Edit::AddService { subject, line })
}

// Adds these lines, but for so many of them.
fn add_after(
    alloc: Global,
    plan: &mut Plan,
    id: &SubjectId,
    lines: &[ServiceLine],
    kept: usize,
) -> Result<(), AllocError> {
    for line in lines.iter().skip(kept) {
        add_line(alloc, plan, id, line)?;
    }
    Ok(())
}

/// Clears and adds lines about services until a subject that is there has those of this one. The
/// lines that both have first stay.
pub(crate) fn arrange_services(
    alloc: Global,
    plan: &mut Plan,
    subject: &Subject,
) -> Result<(), AllocError> {
    let id = subject.id();
    let Some((count, kept)) = counts(plan, subject) else {
        return Ok(());
    };
    for _ in kept..count {
        clear_last(alloc, plan, &id)?;
    }
    add_after(alloc, plan, &id, subject.services.as_slice(), kept)
}

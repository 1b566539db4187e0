//! The edits between two policies.

ghost use Rattle.std.specs.Prelude.{◌≡◌, [], IfOk};
ghost use Rattle.pol_update.specs.Update.{HaveSame, Updates};

use crate::comparing::have_same;
use crate::judging::are_right;
use crate::placing::place_subjects;
use crate::plain::plain;
use crate::plan::Plan;
use crate::ruling::{arrange_rules, drop_rules};
use crate::serving::arrange_services;
use crate::setting::set;
use basics::Sequence;
use pol_edit::Edit;
use pol_text::Policy;
use std::alloc::{AllocError, Global};

// The edits that are tried.
fn found(alloc: Global, old: &Policy, new: &Policy) -> Result<Sequence<Edit>, AllocError> {
    let mut plan = Plan::new(alloc, old)?;
    for subject in new.subjects() {
        drop_rules(alloc, &mut plan, subject)?;
    }
    place_subjects(alloc, &mut plan, old, new)?;
    for subject in new.subjects() {
        set(alloc, &mut plan, subject)?;
        arrange_services(alloc, &mut plan, subject)?;
        arrange_rules(alloc, &mut plan, subject)?;
    }
    Ok(plan.into_edits())
}

/// The edits that make the new policy of the old one, but for the order of its subjects. They were
/// made on a copy of the old policy, and what that became was compared with the new one.
///
/// What is the same in both policies isn't touched: a rule that moved is one `MoveRule`, and of a
/// subject's rules as many stay as can, where none stands twice. Of its lines about services those
/// stay that both have first. Rules are dropped first, then subjects go, come and move, and then
/// secrets, levels, services and rules are set; so no limit is exceeded in between. The cost is
/// quadratic in the rules of each subject that is changed, and a look through all chains for each
/// subject that moves.
///
/// If these edits were not right, those of a plain plan would take their place, which make any
/// policy of any other. The error is out of memory.
pub fn edits_between(
    alloc: Global,
    old: &Policy,
    new: &Policy,
) -> Result<Sequence<Edit>, AllocError>
    // They make it, each of them changes something, and none is of a subject that both have alike.
    ensures found { IfOk result (λ edits. Updates old.now edits new.now) }

    // Where nothing differs there is no edit.
    ensures none { HaveSame old.now new.now → IfOk result (λ edits. edits ≡ []) }
{
    if have_same(old, new) {
        return Ok(Sequence::new(alloc));
    }
    let edits = found(alloc, old, new)?;
    if are_right(alloc, old, new, edits.as_slice())? {
        return Ok(edits);
    }
    plain(alloc, old, new)
}

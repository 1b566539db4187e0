//! Making edits of a policy that has its automata, and putting another policy in its place.

ghost use Rattle.std.specs.Prelude.{◌≡◌, IfOk, OnOk, OnErr};
ghost use Rattle.pol_edit.specs.Applying.{is_memory};
ghost use Rattle.pol_edit.specs.Batches.{ran_out};
ghost use Rattle.pol_meaning.specs.Changes.{AreChanges};
ghost use Rattle.pol_meaning.specs.Memory.{UnlessMemory};
ghost use Rattle.pol_meaning.specs.declared.Changes.{Changes as ChangesValue};
ghost use Rattle.tac_desk.specs.Meaning.{Meaning as MeaningValue, with_policy};
ghost use Rattle.tac_desk.specs.Editing as editing;

use pol_automaton::Meter;
use pol_edit::{BatchFault, Edit, EditFault};
use pol_live::{Live, Prepared};
use pol_meaning::Changes;
use pol_report::changes;
use pol_text::Policy;
use std::alloc::{AllocError, Global};
use tac_desk::Shared;

// Puts the prepared policy in place, and answers what that changes for users. All memory is taken
// before that, so that a refusal changes nothing.
fn take(alloc: Global, live: &mut Live, prepared: Prepared) -> Result<Shared<Changes>, AllocError>
    requires { prepared.before ≡ live.old }
    ensures found { IfOk result (λ changes. AreChanges live.old prepared.after changes) }
    ensures only { IfOk result (λ changes. (other : ChangesValue)
        → AreChanges live.old prepared.after other → changes ≡ other) }
    ensures taken { OnOk result (live.new ≡ prepared.after) }
    ensures err { OnErr result (live.new ≡ live.old) }
{
    let changes = changes(alloc, live, &prepared)?;
    let shared = Shared::new(alloc, changes)?;
    live.commit(prepared);
    Ok(shared)
}

/// Makes the edits, all or none, and answers what they change together for users. Refused ones
/// change nothing.
pub(crate) fn change(
    alloc: Global,
    live: &mut Live,
    edits: &[Edit],
) -> Result<Shared<Changes>, BatchFault>
    ensures found { (before : MeaningValue) → before.policy ≡ live.old →
        UnlessMemory ran_out result
        (editing.EditsAll before edits.now result (with_policy live.new before)) }
    ensures only { (before : MeaningValue) → before.policy ≡ live.old →
        UnlessMemory ran_out result
        (editing.IsOnlyAll before edits.now result (with_policy live.new before)) }
    ensures err { OnErr result (live.new ≡ live.old) }
{
    let mut meter = Meter::new();
    let prepared = live.prepare_all(alloc, edits, &mut meter)?;
    let shared = take(alloc, live, prepared)?;
    Ok(shared)
}

/// Puts another policy in the place of the present one, and answers what that changes for users.
/// One that is refused changes nothing.
pub(crate) fn load(
    alloc: Global,
    live: &mut Live,
    policy: &Policy,
) -> Result<Shared<Changes>, EditFault>
    ensures found { (before : MeaningValue) → before.policy ≡ live.old →
        UnlessMemory is_memory result
        (editing.Loads before policy.now result (with_policy live.new before)) }
    ensures only { (before : MeaningValue) → before.policy ≡ live.old →
        UnlessMemory is_memory result
        (editing.IsOnlyLoaded before policy.now result (with_policy live.new before)) }
    ensures err { OnErr result (live.new ≡ live.old) }
{
    let mut meter = Meter::new();
    let copy = policy.copy(alloc)?;
    let prepared = live.prepare_policy(alloc, copy, &mut meter)?;
    let shared = take(alloc, live, prepared)?;
    Ok(shared)
}

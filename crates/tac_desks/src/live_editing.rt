//! Making edits of a policy that has its automata, beside records that have their marks, and
//! putting another policy in its place.

ghost use Rattle.std.specs.Prelude.{◌≡◌, ◌≤◌, length, IfOk, OnOk, OnErr};
ghost use Rattle.pol_edit.specs.Applying.{is_memory};
ghost use Rattle.pol_edit.specs.Batches.{ran_out};
ghost use Rattle.pol_meaning.specs.Changes.{AreChanges};
ghost use Rattle.pol_meaning.specs.Memory.{UnlessMemory};
ghost use Rattle.pol_meaning.specs.declared.Changes.{Changes as ChangesValue};
ghost use Rattle.pol_live.specs.Rise.{IsEditRise, IsReplacingRise, Rises};
ghost use Rattle.tac_tally.specs.Recount.{settled};
ghost use Rattle.tac_desk.specs.Meaning.{with_policy};
ghost use Rattle.tac_desk.specs.Editing as editing;
ghost use Rattle.tac_desks.specs.Kept.{meaning_of, entries_by};
ghost use Rattle.tac_desks.specs.Metered.{HasMarksBy};

use crate::recounting::recount_changed;
use pol_automaton::Meter;
use pol_edit::{BatchFault, Edit, EditFault};
use pol_live::{Live, Prepared};
use pol_meaning::Changes;
use pol_report::changes;
use pol_text::Policy;
use std::alloc::{AllocError, Global};
use tac_desk::Shared;
use tac_tally::{Book, Recount};

// Puts the prepared policy in place, and the marks in that were worked out for it. Takes no memory.
fn make(live: &mut Live, book: &mut Book, prepared: Prepared, recount: Recount)
    requires before { prepared.before ≡ live.old }
    requires size { length recount ≡ length book.old.entries }
    requires marks { settled recount book.old.entries ≡ entries_by prepared.after book.old }
    ensures meaning { meaning_of live.new book.new
        ≡ with_policy prepared.after (meaning_of live.old book.old) }
    ensures policy { live.new ≡ prepared.after }
    ensures marks { HasMarksBy live.new book.new }
{
    live.commit(prepared);
    book.settle(recount);
}

// Puts the prepared policy in place, and answers what that changes for users. Beside each record
// stands then what this policy says of its line. All memory is taken before anything is put in
// place, so that a refusal changes nothing.
fn take(
    alloc: Global,
    live: &mut Live,
    book: &mut Book,
    prepared: Prepared,
) -> Result<Shared<Changes>, AllocError>
    requires before { prepared.before ≡ live.old }
    requires marks { HasMarksBy live.old book.old }
    ensures found { IfOk result (λ changes. AreChanges live.old prepared.after changes) }
    ensures only { IfOk result (λ changes. (other : ChangesValue)
        → AreChanges live.old prepared.after other → changes ≡ other) }
    ensures meaning { OnOk result (meaning_of live.new book.new
        ≡ with_policy prepared.after (meaning_of live.old book.old)) }
    ensures taken { OnOk result (live.new ≡ prepared.after) }
    ensures policy { OnErr result (live.new ≡ live.old) }
    ensures book { OnErr result (book.new ≡ book.old) }
    ensures marks { HasMarksBy live.new book.new }
{
    let changes = changes(alloc, live, &prepared)?;
    let shared = Shared::new(alloc, changes)?;
    let recount = recount_changed(alloc, &prepared, shared.get().lines.as_slice(), book)?;
    make(live, book, prepared, recount);
    Ok(shared)
}

/// Makes the edits, all or none, and answers what they change together for users. Beside each
/// record stands then what the new policy says of its line. Refused edits change nothing.
pub(crate) fn change_kept(
    alloc: Global,
    live: &mut Live,
    meter: &mut Meter,
    book: &mut Book,
    edits: &[Edit],
) -> Result<Shared<Changes>, BatchFault>
    requires { HasMarksBy live.old book.old }
    ensures found { UnlessMemory ran_out result (editing.EditsAll (meaning_of live.old book.old)
        edits.now result (meaning_of live.new book.new)) }
    ensures only { UnlessMemory ran_out result (editing.IsOnlyAll (meaning_of live.old book.old)
        edits.now result (meaning_of live.new book.new)) }
    ensures policy { OnErr result (live.new ≡ live.old) }
    ensures book { OnErr result (book.new ≡ book.old) }
    ensures marks { HasMarksBy live.new book.new }
    ensures rises { OnOk result
        (Rises (IsEditRise edits.now live.new) meter.old.total meter.new.total) }
    ensures kept { OnErr result (meter.old.total ≤ meter.new.total) }
{
    let prepared = live.prepare_all(alloc, edits, meter)?;
    let shared = take(alloc, live, book, prepared)?;
    Ok(shared)
}

/// Puts another policy in the place of the present one, and answers what that changes for users.
/// Beside each record stands then what the new policy says of its line. A policy that is refused
/// changes nothing.
pub(crate) fn load_kept(
    alloc: Global,
    live: &mut Live,
    meter: &mut Meter,
    book: &mut Book,
    policy: &Policy,
) -> Result<Shared<Changes>, EditFault>
    requires { HasMarksBy live.old book.old }
    ensures found { UnlessMemory is_memory result (editing.Loads (meaning_of live.old book.old)
        policy.now result (meaning_of live.new book.new)) }
    ensures only { UnlessMemory is_memory result (editing.IsOnlyLoaded
        (meaning_of live.old book.old) policy.now result (meaning_of live.new book.new)) }
    ensures policy { OnErr result (live.new ≡ live.old) }
    ensures book { OnErr result (book.new ≡ book.old) }
    ensures marks { HasMarksBy live.new book.new }
    ensures rises { OnOk result
        (Rises (IsReplacingRise live.old live.new) meter.old.total meter.new.total) }
    ensures kept { OnErr result (meter.old.total ≤ meter.new.total) }
{
    let copy = policy.copy(alloc)?;
    let prepared = live.prepare_policy(alloc, copy, meter)?;
    let shared = take(alloc, live, book, prepared)?;
    Ok(shared)
}

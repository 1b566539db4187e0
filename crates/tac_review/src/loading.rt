//! The edits that make one policy of another, in batches that a console takes.

ghost use Rattle.std.specs.Prelude.{◌≡◌, ◌⊎◌, ◌++◌, List, [], Ok, Err, IfOk, IfErr, OnOk};
ghost use Rattle.pol_meaning.specs.Sizes.{IsSmall};
ghost use Rattle.pol_edit.specs.Batches.{applied_all};
ghost use Rattle.pol_text.specs.declared.subject.Subject.{Subject as SubjectValue};
ghost use Rattle.pol_live.specs.Live.{PreparesAll};
ghost use Rattle.pol_update.specs.Update.{HaveSame, Updates};
ghost use Rattle.tac_review.specs.Loading as loading;

use crate::task::ReviewEnd;
use pol_automaton::Meter;
use pol_edit::{BatchFault, Edit, EditFault};
use pol_live::Live;
use pol_text::Policy;
use pol_update::{edits_between, write_edit};
use std::alloc::{AllocError, Global};
use std::io::Write;
use tac_console::Batch;

fn add_edits(text: &mut Vec<u8>, edits: &[Edit]) -> Result<(), AllocError>
    ensures text { OnOk result (text.new.items ≡ text.old.items ++ loading.edit_lines edits.now) }
    ensures spelled { OnOk result (loading.AreSpelled edits.now) }
{
    'edits: for edit in edits {
        write_edit(text, edit)?;
    }
    Ok(())
}

// Adds the lines of edits that are made together.
fn add_batch(text: &mut Vec<u8>, batch: &[Edit]) -> Result<(), AllocError>
    ensures text { OnOk result (text.new.items ≡ text.old.items ++ loading.batch_text batch.now) }
    ensures spelled { OnOk result (loading.AreSpelled batch.now) }
{
    text.extend_from_slice(b"begin\n")?;
    add_edits(text, batch)?;
    text.extend_from_slice(b"commit\n")
}

// How a batch is told that a server would refuse.
fn refused(
    alloc: Global,
    number: usize,
    fault: BatchFault,
) -> Result<(Vec<u8>, ReviewEnd), AllocError>
    ensures { IfOk result (λ output. (output.0.items ≡ loading.refused_batch number fault)
        × (output.1 ≡ ReviewEnd.Refused)) }
{
    let mut text = Vec::new(alloc);
    match writeln!(text, "batch {number}: refused {fault}") {
        Ok(()) => Ok((text, ReviewEnd::Refused)),
        Err(_) => Err(AllocError),
    }
}

// Makes the edits together, as a server does, or tells why it would refuse them.
fn make(
    alloc: Global,
    live: &mut Live,
    meter: &mut Meter,
    batch: &[Edit],
) -> Result<Result<(), BatchFault>, AllocError>
    ensures made { IfOk result (λ made. OnOk made
        ((applied_all live.old batch.now ≡ Ok live.new) × IsSmall live.new)) }
    ensures refused { IfOk result (λ made. IfErr made
        (λ fault. PreparesAll live.old batch.now (Err fault))) }
{
    match live.prepare_all(alloc, batch, meter) {
        Ok(prepared) => {
            live.commit(prepared);
            Ok(Ok(()))
        }
        Err(fault) if fault.fault == EditFault::Memory => Err(AllocError),
        Err(fault) => Ok(Err(fault)),
    }
}

fn end_of(batches: usize) -> ReviewEnd
    ensures { result ≡ loading.batches_end batches }
{
    if batches == 0 {
        return ReviewEnd::Done;
    }
    ReviewEnd::Edited(batches)
}

// What is printed of edits. Each batch is made first, as a server makes it.
fn printed(alloc: Global, old: Live, edits: &[Edit]) -> Result<(Vec<u8>, ReviewEnd), AllocError>
    ensures { (new : List SubjectValue) → Updates old edits.now new
        → (HaveSame old new → edits.now ≡ []) → IfOk result (λ output.
        loading.ArePrinted old new output.0.items output.1
        ⊎ loading.AreRefused old new output.0.items output.1) }
{
    let mut live = old;
    let mut meter = Meter::new();
    let mut text = Vec::new(alloc);
    let mut batches = 0;
    let mut rest = edits;
    'batches: while !rest.is_empty() {
        let (batch, later) = rest.split_at(rest.len().min(Batch::MOST));
        match make(alloc, &mut live, &mut meter, batch) {
            Ok(Ok(())) => {}
            Ok(Err(fault)) => return refused(alloc, batches + 1, fault),
            Err(error) => return Err(error),
        }
        add_batch(&mut text, batch)?;
        batches += 1;
        rest = later;
    }
    Ok((text, end_of(batches)))
}

/// How the edits are printed that make the new policy of the old one: in batches of as many as a
/// console keeps, each of which was made here before it is printed.
pub(crate) fn load(
    alloc: Global,
    old: Live,
    new: &Policy,
) -> Result<(Vec<u8>, ReviewEnd), AllocError>
    ensures { IfOk result (λ output. loading.Loads old new.now output.0.items output.1) }
{
    let edits = edits_between(alloc, old.policy(), new)?;
    printed(alloc, old, edits.as_slice())
}

//! Edits that are made together, all or none.

ghost use Rattle.std.specs.Prelude.{◌≡◌, ◌↔◌, Some, Err, IsTrue, IfOk, OnErr};
ghost use Rattle.basics.specs.Memory.{GivesUnlessMemory};
ghost use Rattle.pol_text.specs.Policy.{WellFormed};
ghost use Rattle.pol_edit.specs.declared.fault.EditFault.TheVariants.{Memory, NoSuch};
ghost use Rattle.pol_edit.specs.Batches as batches;
ghost use Rattle.pol_edit.specs.Batches.{of_all, applied_all, ran_out, IsFirstMissing};
ghost use Rattle.pol_edit.specs.FaultText.{batch_fault_text};

use crate::applying::{apply, is_missing};
use crate::edit::Edit;
use crate::fault::EditFault;
use pol_text::Policy;
use std::alloc::{AllocError, AllocFailed, Global};
use std::error::Error;
use std::fmt;

/// Why edits that are made together are refused.
#[derive(Clone, Copy, Debug, PartialEq, Eq)]
pub struct BatchFault {
    /// Which edit is refused, counted from 1. It is 0 where no single edit is: the policy that all
    /// of them make is too large, or memory ran out anywhere.
    pub at: usize,
    pub fault: EditFault,
}

impl BatchFault {
    /// A refusal of no single edit.
    pub fn of_all(fault: EditFault) -> BatchFault
        ensures { result ≡ of_all fault }
    {
        BatchFault { at: 0, fault }
    }

    // The refusal of the edit of this number.
    fn of_edit(at: usize, fault: EditFault) -> BatchFault
        ensures { result ≡ batches.refused_at at fault }
    {
        match fault {
            EditFault::Memory => BatchFault::of_all(EditFault::Memory),
            fault => BatchFault { at, fault },
        }
    }
}

/// `at edit K: ` before the refusal, where it is that of an edit.
impl fmt::Display for BatchFault {
    ghost output = { λ fault. Some (batch_fault_text fault) };

    fn fmt<W: fmt::Write>(&self, f: &mut fmt::Formatter<W>) -> fmt::Result {
        let fault = self.fault;
        if self.at == 0 {
            return write!(f, "{fault}");
        }
        let at = self.at;
        write!(f, "at edit {at}: {fault}")
    }
}

impl Error for BatchFault {}

impl From<AllocError> for BatchFault {
    ghost from_gives = { λ _ fault. fault ≡ of_all Memory };

    fn from(_error: AllocError) -> BatchFault {
        BatchFault::of_all(EditFault::Memory)
    }
}

impl<T: Drop> From<AllocFailed<T>> for BatchFault {
    ghost from_gives = { λ _ fault. fault ≡ of_all Memory };

    fn from(_error: AllocFailed<T>) -> BatchFault {
        BatchFault::of_all(EditFault::Memory)
    }
}

// Whether the first edit is refused as NoSuch.
fn is_first_missing(policy: &Policy, edits: &[Edit]) -> bool
    ensures missing { IsTrue result ↔ IsFirstMissing policy.now edits.now }
    ensures well_formed { IsTrue result → WellFormed policy.now }
{
    match edits.first() {
        Some(edit) => is_missing(policy, edit),
        None => false,
    }
}

/// The policy that the edits make, one after another. Each edit is judged on the policy that those
/// before it make. The first refusal ends it: no later edit is looked at. Copies the policy once,
/// if what the first edit names is there.
pub fn edited(alloc: Global, policy: &Policy, edits: &[Edit]) -> Result<Policy, BatchFault>
    ensures exact { GivesUnlessMemory ran_out (λ edited. edited) result
        (applied_all policy.now edits.now) }

    // A first edit of what isn't there is refused so, and takes no memory.
    ensures sure { IsFirstMissing policy.now edits.now → result ≡ Err (batches.of_edit 1 NoSuch) }
    ensures well_formed { IfOk result WellFormed }
    ensures before { WellFormed policy.now }
{
    if is_first_missing(policy, edits) {
        return Err(BatchFault::of_edit(1, EditFault::NoSuch));
    }
    let mut edited = policy.copy(alloc)?;
    'edits: for (done, edit) in edits.iter().enumerate() {
        if let Err(fault) = apply(alloc, &mut edited, edit) {
            return Err(BatchFault::of_edit(done + 1, fault));
        }
    }
    Ok(edited)
}

/// Applies the edits, all or none. Where one is refused the policy stays as it was, also where
/// memory ran out. Copies the policy once.
pub fn apply_all(alloc: Global, policy: &mut Policy, edits: &[Edit]) -> Result<(), BatchFault>
    // Which policy it becomes, or which edit is the first that is refused, and why.
    ensures exact { GivesUnlessMemory ran_out (λ _. policy.new) result
        (applied_all policy.old edits.now) }
    ensures sure { IsFirstMissing policy.old edits.now → result ≡ Err (batches.of_edit 1 NoSuch) }

    // A refusal changes nothing.
    ensures kept { OnErr result (policy.new ≡ policy.old) }

    // No edits make a policy that isn't well formed.
    ensures well_formed { WellFormed policy.new }
{
    *policy = edited(alloc, policy, edits)?;
    Ok(())
}

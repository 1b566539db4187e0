//! Edits, and the policy that they make.

ghost use Rattle.std.specs.Prelude.{◌≡◌, ◌++◌, ◌∷◌, List, [], Ok, IfOk, OnOk};
ghost use Rattle.pol_text.specs.Policy.{WellFormed};
ghost use Rattle.pol_text.specs.declared.subject.Subject.{Subject as SubjectValue};
ghost use Rattle.pol_edit.specs.Applying.{applied};
ghost use Rattle.pol_update.specs.Update.{IsAlike, subject_of};

use crate::judging::take;
use basics::Sequence;
use pol_edit::Edit;
use pol_text::Policy;
use std::alloc::{AllocError, Global};

/// The edits so far, and what they make of the policy that they begin with.
#[derive(Drop)]
pub(crate) struct Plan {
    pub(crate) made: Policy,
    pub(crate) edits: Sequence<Edit>,
}

impl Plan {
    /// No edits of this policy.
    pub(crate) fn new(alloc: Global, policy: &Policy) -> Result<Plan, AllocError>
        ensures { IfOk result (λ plan. (plan.made ≡ policy.now) × (plan.edits ≡ [])) }
    {
        let made = policy.copy(alloc)?;
        Ok(Plan {
            made,
            edits: Sequence::new(alloc),
        })
    }

    /// The policy that the edits make.
    pub(crate) fn made(&self) -> &Policy
        ensures { result.now ≡ self.now.made }
    {
        &self.made
    }

    /// The edits.
    pub(crate) fn into_edits(self) -> Sequence<Edit>
        ensures { result ≡ self.edits }
    {
        self.edits
    }

    /// Adds an edit, unless it is refused or changes nothing.
    pub(crate) fn add(&mut self, alloc: Global, edit: Edit) -> Result<(), AllocError>
        ensures added { (next : List SubjectValue) → applied self.old.made edit ≡ Ok next
            → ¬ IsAlike next self.old.made (subject_of edit) → OnOk result
            ((self.new.made ≡ next) × (self.new.edits ≡ self.old.edits ++ edit ∷ [])) }
        ensures well_formed { WellFormed self.old.made }
    {
        if take(alloc, &mut self.made, &edit)? {
            self.edits.push(edit)?;
        }
        Ok(())
    }
}

//! The policy: its subjects in order, to be found by kind and name.

ghost use Rattle.std.specs.Prelude.{◌≡◌, ◌↔◌, [], length, Contains, IsTrue, IfSome, IfOk};
ghost use Rattle.std.specs.Option.{option_copied};
ghost use Rattle.pol_text.specs.Policy.{WellFormed, is_right_subject, find_subject, chain_ids};
ghost use Rattle.pol_text.specs.Policy.{decide};
ghost use Rattle.pol_text.specs.Policy.{FollowsParent, InheritsEntries};
ghost use Rattle.pol_text.specs.Policy.{parent_of as parent_among, decision as decision_of};
ghost use Rattle.pol_text.specs.declared.subject.Subject.{Subject as SubjectValue};

use crate::chains;
use crate::subject::Subject;
use basics::{Sequence, StructuralEq};
use indexmap::IndexSet;
use pol_names::{By, Decision, Name, SubjectId, Verdict};
use std::alloc::{AllocError, Global};
use std::marker::Model;

/// A policy, well formed at all times. A contract sees the list of its subjects.
pub struct Policy {
    pub(crate) subjects: Sequence<Subject>,
    // the subjects' kinds and names, in the same order
    pub(crate) places: IndexSet<SubjectId>,
}

// By hand, so that a proof of an owner has one call at each exit, not a drop of each field.
impl Drop for Policy {
    fn drop(self) {
        let Policy {
            subjects: _,
            places: _,
        } = self;
    }
}

impl Model for Policy {
    ghost use Rattle.std.specs.Prelude.{◌≡◌, List, map};
    ghost use Rattle.pol_text.specs.Policy.{WellFormed, id_of};
    ghost use Rattle.pol_text.specs.declared.subject.Subject.{Subject as SubjectValue};

    ghost Value = { List SubjectValue };

    ghost view = { λ policy. policy.subjects };

    ghost invariant = { λ policy. WellFormed policy.subjects
        × (policy.places.keys ≡ map id_of policy.subjects) };
}

impl PartialEq for Policy {
    ghost use Rattle.std.specs.Cmp.{decided, partial_equiv_from_equiv};
    ghost use Rattle.pol_text.specs.Same.{same_policy, same_policy-Decides};

    ghost eq = { same_policy };

    ghost laws = { partial_equiv_from_equiv (decided same_policy same_policy-Decides) };

    fn eq(&self, other: &Policy) -> bool {
        self.subjects == other.subjects
    }
}

impl Eq for Policy {
    ghost use Rattle.std.specs.Cmp.{decided};
    ghost use Rattle.pol_text.specs.Same.{same_policy, same_policy-Decides};

    ghost laws = { decided same_policy same_policy-Decides };
}

impl StructuralEq for Policy {
    ghost use Rattle.pol_text.specs.Same.{same_policy-identical};

    ghost identical = { same_policy-identical };
}

impl Policy {
    /// The most subjects that a policy has.
    pub const MAX_SUBJECTS: usize = 1024;

    /// The most rules that a subject has.
    pub const MAX_RULES: usize = 256;

    /// The most lines about services that a subject has.
    pub const MAX_SERVICES: usize = 64;

    /// The most subjects that a chain has.
    pub const MAX_CHAIN: usize = 8;

    // The decision where no rule matches.
    const UNMATCHED: Decision = Decision {
        verdict: Verdict::Deny,
        by: By::Default,
    };

    /// No subjects. Takes no memory.
    pub fn new(alloc: Global) -> Policy
        ensures { result ≡ [] }
    {
        Policy {
            subjects: Sequence::new(alloc),
            places: IndexSet::new(alloc),
        }
    }

    /// The subjects in order.
    pub fn subjects(&self) -> &[Subject]
        ensures subjects { result.now ≡ self.now }
        ensures well_formed { WellFormed self.now }
    {
        self.subjects.as_slice()
    }

    /// How many subjects there are.
    pub fn len(&self) -> usize
        ensures { result ≡ length self.now }
    {
        self.subjects.len()
    }

    /// Whether there are no subjects.
    pub fn is_empty(&self) -> bool
        ensures { IsTrue result ↔ (self.now ≡ []) }
    {
        self.subjects.is_empty()
    }

    /// The subject of this kind and name. A hash look-up.
    pub fn find(&self, id: &SubjectId) -> Option<&Subject>
        ensures found { option_copied result ≡ find_subject id.now self.now }
        ensures well_formed { WellFormed self.now }
    {
        chains::find_in(&self.subjects, &self.places, id)
    }

    /// The group that the subject belongs to: the next of its chain. A hash look-up.
    pub fn parent_of(&self, subject: &Subject) -> Option<&Subject>
        ensures found { option_copied result ≡ parent_among self.now subject.now }
        ensures there { IfSome result (λ parent. Contains self.now parent.now) }

        // The entries of a subject are its own rules, and then the entries of its parent.
        ensures entries { Contains self.now subject.now → InheritsEntries self.now subject.now }
        ensures right { IfSome result (λ parent. IsTrue (is_right_subject parent.now)) }
    {
        chains::parent_in(&self.subjects, &self.places, subject)
    }

    /// The kinds and names along the chain of the subject, none for a subject that isn't there.
    pub fn chain(&self, alloc: Global, id: &SubjectId) -> Result<Sequence<SubjectId>, AllocError>
        ensures ids { IfOk result (λ ids. ids ≡ chain_ids self.now id.now) }

        // A chain is the subject, and then the chain of its parent.
        ensures follows { (subject : SubjectValue) → Contains self.now subject →
            FollowsParent self.now subject }
    {
        let (subjects, places) = (&self.subjects, &self.places);
        match chains::find_in(subjects, places, id) {
            Some(subject) => chains::ids_within(
                alloc,
                subjects,
                places,
                Policy::MAX_CHAIN,
                subject,
            ),
            None => Ok(Sequence::new(alloc)),
        }
    }

    // The first rule along the chain of the subject whose pattern holds the line decides.
    fn decision(&self, subject: &Subject, line: &[u8]) -> Decision
        requires { IsTrue (is_right_subject subject.now) }
        ensures { result ≡ decision_of self.now subject.now line.now }
    {
        let mut present = subject;
        'chain: for _ in 0..Policy::MAX_CHAIN {
            if let Some(decision) = present.first_match(line) {
                return decision;
            }
            match self.parent_of(present) {
                Some(parent) => present = parent,
                None => return Policy::UNMATCHED,
            }
        }
        Policy::UNMATCHED
    }

    /// What the policy says of a user's line, by a search along the user's chain that keeps
    /// nothing for the next one. Nothing where there is no such user. It takes no memory, so it
    /// never answers the error.
    pub fn plain_decide(&self, user: &Name, line: &[u8]) -> Result<Option<Decision>, AllocError>
        ensures { result ≡ Ok (decide self.now user.now line.now) }
    {
        match chains::find_in(&self.subjects, &self.places, &SubjectId::user(*user)) {
            Some(subject) => Ok(Some(self.decision(subject, line))),
            None => Ok(None),
        }
    }

    /// A copy of the policy, which shares its patterns. The error means that memory ran out.
    pub fn copy(&self, alloc: Global) -> Result<Policy, AllocError>
        ensures same { IfOk result (λ copy. copy ≡ self.now) }
        ensures well_formed { WellFormed self.now }
    {
        let subjects = copy_subjects(alloc, &self.subjects)?;
        let places = self.places.clone()?;
        Ok(Policy { subjects, places })
    }
}

fn copy_subjects(
    alloc: Global,
    subjects: &Sequence<Subject>,
) -> Result<Sequence<Subject>, AllocError>
    ensures { IfOk result (λ copy. copy ≡ subjects.now) }
{
    let mut copies = Sequence::new(alloc);
    for subject in subjects.as_slice() {
        let copy = subject.copy(alloc)?;
        copies.push(copy)?;
    }
    Ok(copies)
}

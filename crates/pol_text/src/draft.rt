//! A policy while it is read.

ghost use Rattle.std.specs.Prelude.{◌≡◌, [], length};
ghost use Rattle.std.specs.List.{list_any};
ghost use Rattle.pol_names.specs.SubjectId.{same_id};
ghost use Rattle.pol_text.specs.Draft.{LineMakes, RightDraft, place_given};
ghost use Rattle.pol_text.specs.Setting.{changed_by};
ghost use Rattle.pol_text.specs.Text.{IsUnlessMemory, with_subject, with_present, with_service};
ghost use Rattle.pol_text.specs.Text.{with_right_chains};

use crate::change::push_subject;
use crate::checking::check_chains;
use crate::fault::{LineFault, PolicyFault, PolicyRefusal};
use crate::policy::Policy;
use crate::setting::{Setting, add_line};
use crate::subject::Subject;
use basics::Sequence;
use indexmap::IndexSet;
use pol_names::{Kind, Name, ServiceLine, SubjectId};
use std::alloc::Global;
use std::marker::Model;

/// The subjects read so far in order, each with the line that it begins at. A subject may name a
/// parent that is still to come, so chains are judged at the end.
pub(crate) struct Draft {
    pub(crate) lines: Vec<usize>,
    // in the same order
    pub(crate) subjects: Sequence<Subject>,
    // the subjects' kinds and names, in the same order
    pub(crate) places: IndexSet<SubjectId>,
}

// By hand, so that a proof of an owner has one call at each exit, not a drop of each field.
impl Drop for Draft {
    fn drop(self) {
        let Draft {
            lines: _,
            subjects: _,
            places: _,
        } = self;
    }
}

impl Model for Draft {
    ghost use Rattle.std.specs.Prelude.{◌≡◌, ℕ, List, length, map};
    ghost use Rattle.std.specs.List.{zip};
    ghost use Rattle.pol_text.specs.Policy.{id_of};
    ghost use Rattle.pol_text.specs.declared.subject.Subject.{Subject as SubjectValue};

    ghost Value = { List (ℕ × SubjectValue) };

    ghost view = { λ draft. zip draft.lines.items draft.subjects };

    ghost invariant = { λ draft. (length draft.lines.items ≡ length draft.subjects)
        × (draft.places.keys ≡ map id_of draft.subjects) };
}

// Refuses one more subject of this kind and name.
fn check_place(places: &IndexSet<SubjectId>, id: &SubjectId) -> Result<(), PolicyRefusal>
    ensures { result
        ≡ place_given (list_any (same_id id.now) places.now.keys) (length places.now.keys) }
{
    if places.contains(id) {
        return Err(PolicyRefusal::Repeated);
    }
    if places.len() >= Policy::MAX_SUBJECTS {
        return Err(PolicyRefusal::Limit);
    }
    Ok(())
}

impl Draft {
    /// No subjects. Takes no memory.
    pub(crate) fn new(alloc: Global) -> Draft
        ensures { result ≡ [] }
    {
        Draft {
            lines: Vec::new(alloc),
            subjects: Sequence::new(alloc),
            places: IndexSet::new(alloc),
        }
    }

    /// Adds a subject that begins at the line. Expected constant time, amortised.
    pub(crate) fn add_subject(
        &mut self,
        alloc: Global,
        line: usize,
        kind: Kind,
        name: Name,
        parent: Option<Name>,
    ) -> Result<(), LineFault>
        ensures { LineMakes result self.new (with_subject line kind name parent self.old) }
    {
        check_place(&self.places, &SubjectId { kind, name })?;
        self.lines.reserve(1)?;
        let subject = Subject::new(alloc, kind, name, parent);
        push_subject(&mut self.subjects, &mut self.places, subject)?;
        // there is room, so it is added
        self.lines.push(line)?;
        Ok(())
    }

    /// Changes the present subject, which is the last. No names are looked up.
    pub(crate) fn change_present(
        &mut self,
        alloc: Global,
        setting: Setting<'_>,
    ) -> Result<(), LineFault>
        ensures { LineMakes result self.new (with_present (changed_by setting.entry) self.old) }
    {
        let last = self.subjects.len().saturating_sub(1);
        let Some(subject) = self.subjects.get_mut(last) else {
            return Err(LineFault::Refused(PolicyRefusal::NoSubject));
        };
        setting.make(alloc, subject)
    }

    /// Adds a line about a service to the present subject. No names are looked up.
    pub(crate) fn say(&mut self, line: ServiceLine) -> Result<(), LineFault>
        ensures { LineMakes result self.new (with_present (with_service line) self.old) }
    {
        let last = self.subjects.len().saturating_sub(1);
        let Some(subject) = self.subjects.get_mut(last) else {
            return Err(LineFault::Refused(PolicyRefusal::NoSubject));
        };
        add_line(subject, line)
    }

    /// The policy that the draft is.
    pub(crate) fn finish(self) -> Result<Policy, PolicyFault>
        requires { RightDraft self }
        ensures { IsUnlessMemory (λ policy. policy) result (with_right_chains self) }
    {
        let Draft {
            lines,
            subjects,
            places,
        } = self;
        check_chains(&lines, &subjects, &places)?;
        Ok(Policy { subjects, places })
    }
}

//! Changes of a policy, each of which keeps it well formed.

ghost use Rattle.std.specs.Prelude.{◌≡◌, List, ◌<◌, ◌≤◌, ◌∷◌, ◌++◌, ◌&&◌, [], length, map};
ghost use Rattle.std.specs.Prelude.{position, slice_get, nat_lt, nat_le, not, false, is_some};
ghost use Rattle.std.specs.Prelude.{IsTrue, Ok, Err, None, OnOk, OnErr};
ghost use Rattle.std.specs.List.{list_all, list_any};
ghost use Rattle.std.specs.Option.{option_map_or};
ghost use Rattle.std.specs.Result.{result_err};
ghost use Rattle.pol_names.specs.SubjectId.{same_id, group_id};
ghost use Rattle.pol_text.specs.Policy.{id_of, find_subject, ends_within as ends_test, all_of};
ghost use Rattle.pol_names.specs.Service.{is_right_line, any_clash};
ghost use Rattle.pol_text.specs.Policy.{WellFormed, TellsEndless, max_rules, max_services};
ghost use Rattle.pol_text.specs.Policy.{max_subjects};
ghost use Rattle.pol_text.specs.Change.{with_changed, without, is_parent, has_room_below};
ghost use Rattle.pol_text.specs.Change.{chain_fault, with_parent, with_secret, with_priv};
ghost use Rattle.pol_text.specs.Change.{with_rule_at, without_rule_at, with_rule_moved};
ghost use Rattle.pol_text.specs.Change.{with_line_last, without_service};
ghost use Rattle.pol_text.specs.Places.{changed_at};
ghost use Rattle.pol_text.specs.Text.{new_subject};
ghost use Rattle.pol_names.specs.declared.subject_id.Kind.TheVariants.{Group, User};
ghost use Rattle.pol_text.specs.declared.subject.Subject.{Subject as SubjectValue};

use crate::chains::{ends_within, find_mut};
use crate::fault::ChainFault;
use crate::policy::Policy;
use crate::subject::{Rule, Subject};
use basics::{Bytes, Sequence};
use indexmap::IndexSet;
use pol_names::{Credential, Kind, Name, Secret, ServiceId, ServiceLine, SubjectId};
use std::alloc::{AllocError, Global};

// Where the subject stands among all subjects, counted from 0.
fn place_of(places: &IndexSet<SubjectId>, id: &SubjectId) -> Option<usize>
    ensures { result ≡ position (same_id id.now) places.now.keys }
{
    places.get_index_of(id)
}

/// Adds a subject, and its kind and name, or leaves both as they are.
pub(crate) fn push_subject(
    subjects: &mut Sequence<Subject>,
    places: &mut IndexSet<SubjectId>,
    subject: Subject,
) -> Result<(), AllocError>
    requires { list_any (same_id (id_of subject)) places.old.keys ≡ false }
    ensures subjects { OnOk result (subjects.new ≡ subjects.old ++ subject ∷ []) }
    ensures places { OnOk result (places.new.keys ≡ places.old.keys ++ id_of subject ∷ []) }
    ensures err { OnErr result
        ((subjects.new ≡ subjects.old) × (places.new.keys ≡ places.old.keys)) }
{
    let id = subject.id();
    places.reserve(1)?;
    subjects.push(subject)?;
    // there is room, so it is added
    places.insert(id)?;
    Ok(())
}

// Puts the subject at the place below another group, and returns the one that it was below.
fn put_parent(subjects: &mut Sequence<Subject>, place: usize, parent: Option<Name>) -> Option<Name>
    requires { place < length subjects.old }
    ensures changed { subjects.new ≡ changed_at place (with_parent parent) subjects.old }
    ensures former { result
        ≡ option_map_or (λ subject. subject.parent) (slice_get subjects.old place) None }
{
    let subject = subjects.get_mut(place)?;
    let former = subject.parent;
    subject.parent = parent;
    former
}

// Whether each chain has at most so many subjects.
fn all_end_within(subjects: &Sequence<Subject>, places: &IndexSet<SubjectId>, most: usize) -> bool
    requires { places.now.keys ≡ map id_of subjects.now }
    ensures { result ≡ list_all (ends_test most subjects.now) subjects.now }
{
    subjects
        .as_slice()
        .iter()
        .all(|subject| ends_within(subjects, places, most, subject))
}

// What is wrong with the chains. The walk along a chain that doesn't end stops after as many steps
// as there are subjects, and the first such chain is the last that is looked at.
fn chain_fault_of(subjects: &Sequence<Subject>, places: &IndexSet<SubjectId>) -> Option<ChainFault>
    requires { places.now.keys ≡ map id_of subjects.now }
    ensures { result ≡ chain_fault subjects.now }
{
    if !all_end_within(subjects, places, subjects.len()) {
        return Some(ChainFault::Cycle);
    }
    if !all_end_within(subjects, places, Policy::MAX_CHAIN) {
        return Some(ChainFault::TooDeep);
    }
    None
}

impl Policy {
    /// Adds a subject without secrets and rules at the end. Amortised constant time.
    pub fn add(
        &mut self,
        alloc: Global,
        kind: Kind,
        name: Name,
        parent: Option<Name>,
    ) -> Result<(), AllocError>
        requires absent { find_subject (record { kind = kind; name = name }) self.old ≡ None }
        requires room { length self.old < max_subjects }
        requires below { IsTrue (all_of (λ group. has_room_below group self.old) parent) }
        ensures ok { OnOk result (self.new ≡ self.old ++ new_subject kind name parent ∷ []) }
        ensures err { OnErr result (self.new ≡ self.old) }
        ensures well_formed { WellFormed self.new }
    {
        let subject = Subject::new(alloc, kind, name, parent);
        push_subject(&mut self.subjects, &mut self.places, subject)
    }

    /// Takes a user out, or a group that is no parent. Linear.
    pub fn remove(&mut self, id: &SubjectId)
        requires there { IsTrue (is_some (find_subject id.now self.old)) }
        requires unused { id.now.kind ≡ Group → is_parent id.now.name self.old ≡ false }
        ensures removed { self.new ≡ without id.now self.old }
        ensures well_formed { WellFormed self.new }
    {
        let Some(place) = place_of(&self.places, id) else {
            return;
        };
        let _ = self.subjects.remove(place);
        let _ = self.places.shift_remove_index(place);
    }

    /// Puts a subject below another group, or below none. Where a chain then doesn't end, or has
    /// more than 8 subjects, nothing changes.
    pub fn set_parent(&mut self, id: &SubjectId, parent: Option<Name>) -> Result<(), ChainFault>
        requires there { IsTrue (is_some (find_subject id.now self.old)) }
        requires group { IsTrue
            (all_of (λ name. is_some (find_subject (group_id name) self.old)) parent) }
        ensures fault { result_err result
            ≡ chain_fault (with_changed id.now (with_parent parent) self.old) }
        ensures ok { OnOk result (self.new ≡ with_changed id.now (with_parent parent) self.old) }
        ensures err { OnErr result (self.new ≡ self.old) }
        ensures well_formed { WellFormed self.new }

        // What is refused as a cycle is exactly a chain that doesn't end.
        ensures endless { (policy : List SubjectValue) → TellsEndless policy }
    {
        let Some(place) = place_of(&self.places, id) else {
            return Ok(());
        };
        let former = put_parent(&mut self.subjects, place, parent);
        if let Some(fault) = chain_fault_of(&self.subjects, &self.places) {
            put_parent(&mut self.subjects, place, former);
            return Err(fault);
        }
        Ok(())
    }

    /// Gives a user another secret, or none.
    pub fn set_secret(&mut self, id: &SubjectId, credential: Credential, secret: Option<Secret>)
        requires there { IsTrue (is_some (find_subject id.now self.old)) }
        requires user { id.now.kind ≡ User }
        ensures changed { self.new ≡ with_changed id.now (with_secret credential secret) self.old }
        ensures well_formed { WellFormed self.new }
    {
        let Some(subject) = find_mut(&mut self.subjects, &self.places, id) else {
            return;
        };
        subject.set_secret(credential, secret);
    }

    /// Gives a subject another privilege level, or none.
    pub fn set_priv(&mut self, id: &SubjectId, level: Option<u8>)
        requires there { IsTrue (is_some (find_subject id.now self.old)) }
        requires small { IsTrue (all_of (λ n. nat_le n 15) level) }
        ensures changed { self.new ≡ with_changed id.now (with_priv level) self.old }
        ensures well_formed { WellFormed self.new }
    {
        let Some(subject) = find_mut(&mut self.subjects, &self.places, id) else {
            return;
        };
        subject.priv_lvl = level;
    }

    /// Adds a line about a service, last among those of a subject. Constant time, amortised.
    pub fn add_service(&mut self, id: &SubjectId, line: ServiceLine) -> Result<(), AllocError>
        requires right { IsTrue (is_right_line line) }
        requires room { IsTrue (option_map_or
            (λ subject. not (any_clash subject.services line)
            && nat_lt (length subject.services) max_services)
            (find_subject id.now self.old) false) }
        ensures ok { OnOk result (self.new ≡ with_changed id.now (with_line_last line) self.old) }
        ensures err { OnErr result (self.new ≡ self.old) }
        ensures well_formed { WellFormed self.new }
    {
        let Some(subject) = find_mut(&mut self.subjects, &self.places, id) else {
            return Ok(());
        };
        subject.push_service(line)?;
        Ok(())
    }

    /// Takes the lines about a service out of a subject's, or the one that gives this attribute.
    /// Takes no memory. Linear.
    pub fn clear_service(
        &mut self,
        alloc: Global,
        id: &SubjectId,
        service: &ServiceId,
        attribute: &Option<Bytes>,
    )
        requires there { IsTrue (is_some (find_subject id.now self.old)) }
        ensures changed { self.new
            ≡ with_changed id.now (without_service service.now attribute.now) self.old }
        ensures well_formed { WellFormed self.new }
    {
        let Some(subject) = find_mut(&mut self.subjects, &self.places, id) else {
            return;
        };
        subject.clear_service(alloc, service, attribute);
    }

    /// Puts a rule at a place among a subject's rules, counted from 0; those from there on move up.
    pub fn insert_rule(&mut self, id: &SubjectId, at: usize, rule: Rule) -> Result<(), AllocError>
        requires { IsTrue (option_map_or
            (λ subject. nat_le at (length subject.rules) && nat_lt (length subject.rules) max_rules)
            (find_subject id.now self.old) false) }
        ensures ok { OnOk result
            (self.new ≡ with_changed id.now (with_rule_at at rule) self.old) }
        ensures err { OnErr result (self.new ≡ self.old) }
        ensures well_formed { WellFormed self.new }
    {
        let Some(subject) = find_mut(&mut self.subjects, &self.places, id) else {
            return Ok(());
        };
        subject.insert_rule(at, rule)?;
        Ok(())
    }

    /// Takes the rule at a place, counted from 0, out of a subject's rules.
    pub fn remove_rule(&mut self, id: &SubjectId, at: usize)
        requires { IsTrue (option_map_or (λ subject. nat_lt at (length subject.rules))
            (find_subject id.now self.old) false) }
        ensures changed { self.new ≡ with_changed id.now (without_rule_at at) self.old }
        ensures well_formed { WellFormed self.new }
    {
        let Some(subject) = find_mut(&mut self.subjects, &self.places, id) else {
            return;
        };
        let _ = subject.rules.remove(at);
    }

    /// Takes the rule at a place, counted from 0, out of a subject's rules, and puts it so that it
    /// stands at another.
    pub fn move_rule(&mut self, id: &SubjectId, from: usize, to: usize)
        requires { IsTrue (option_map_or
            (λ subject. nat_lt from (length subject.rules) && nat_lt to (length subject.rules))
            (find_subject id.now self.old) false) }
        ensures changed { self.new ≡ with_changed id.now (with_rule_moved from to) self.old }
        ensures well_formed { WellFormed self.new }
    {
        let Some(subject) = find_mut(&mut self.subjects, &self.places, id) else {
            return;
        };
        subject.rules.move_item(from, to);
    }
}

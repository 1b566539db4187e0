//! Edits of one subject, each of which is added only if it changes the subject.

ghost use Rattle.std.specs.Prelude.{◌≡◌, ◌<◌, ◌≤◌, ◌&&◌, ◌∷◌, ◌++◌, List, [], Some, None, length};
ghost use Rattle.std.specs.Prelude.{nat_le};
ghost use Rattle.std.specs.Prelude.{false, is_some, IsTrue, IfOk, OnOk};
ghost use Rattle.std.specs.Option.{option_map};
ghost use Rattle.pol_names.specs.Kept.{is_right_secret};
ghost use Rattle.pol_names.specs.SubjectId.{same_kind, user_id};
ghost use Rattle.pol_names.specs.declared.subject_id.Kind.TheVariants.{Group};
ghost use Rattle.pol_text.specs.Policy.{WellFormed, all_of, find_subject, id_of, is_right_subject};
ghost use Rattle.pol_text.specs.Policy.{are_right_lines, max_rules, max_subjects};
ghost use Rattle.pol_text.specs.Change.{with_changed, is_parent, with_parent, with_secret};
ghost use Rattle.pol_text.specs.Change.{with_priv, with_line_last, with_rule_at};
ghost use Rattle.pol_text.specs.Change.{without_rule_at};
ghost use Rattle.pol_text.specs.Setting.{secret_for};
ghost use Rattle.pol_text.specs.Text.{new_subject};
ghost use Rattle.pol_text.specs.declared.subject.Subject.{Subject as SubjectValue};
ghost use Rattle.pol_edit.specs.Applying.{has_group};
ghost use Rattle.pol_update.specs.Planning as planning;
ghost use Rattle.pol_update.specs.Planning.{IsTurned, IsWithin, with_rules};

use crate::plan::Plan;
use basics::Bytes;
use pol_edit::Edit;
use pol_names::{Credential, Kind, Name, ServiceLine, SubjectId};
use pol_text::{Rule, Secret, Subject};
use std::alloc::{AllocError, Global};

// The secret of this kind.
fn secret_of(subject: &Subject, credential: Credential) -> &Option<Secret>
    ensures { result.now ≡ secret_for credential subject.now }
{
    match credential {
        Credential::Login => &subject.login,
        Credential::Enable => &subject.enable,
    }
}

fn is_group(kind: Kind) -> bool
    ensures { result ≡ same_kind kind Group }
{
    match kind {
        Kind::Group => true,
        Kind::User => false,
    }
}

// The same level, as edits have it.
fn wide(level: Option<u8>) -> Option<u16>
    ensures { result ≡ level }
{
    match level {
        Some(level) => Some(u16::from(level)),
        None => None,
    }
}

// The edit that sets a secret in the clear, or clears it.
fn clear_edit(credential: Credential, user: Name, secret: Option<Bytes>) -> Edit
    ensures { result ≡ planning.clear_edit credential user secret }
{
    match credential {
        Credential::Login => Edit::SetLogin { user, secret },
        Credential::Enable => Edit::SetEnable { user, secret },
    }
}

/// The edit that gives a user this secret, or none.
pub(crate) fn secret_edit(
    alloc: Global,
    credential: Credential,
    user: Name,
    secret: &Option<Secret>,
) -> Result<Edit, AllocError>
    ensures { IfOk result (λ edit. edit ≡ planning.secret_edit credential user secret.now) }
{
    match secret {
        Some(Secret::Clear(secret)) => {
            let text = Bytes::from_slice(alloc, secret.as_slice())?;
            Ok(clear_edit(credential, user, Some(text)))
        }
        Some(Secret::Hashed(hash)) => {
            let spelled = hash.text();
            let hash = Bytes::from_slice(alloc, spelled.as_slice())?;
            Ok(Edit::SetHash {
                user,
                credential,
                hash,
            })
        }
        None => Ok(clear_edit(credential, user, None)),
    }
}

// The edit that adds a subject to no group.
fn bare_edit(kind: Kind, name: Name) -> Edit
    ensures { result ≡ planning.bare_edit kind name }
{
    match kind {
        Kind::Group => Edit::AddGroup { name, parent: None },
        Kind::User => Edit::AddUser { name, parent: None },
    }
}

impl Plan {
    /// Puts a subject below another group, or below none.
    pub(crate) fn put_below(
        &mut self,
        alloc: Global,
        id: &SubjectId,
        parent: Option<Name>,
    ) -> Result<(), AllocError>
        requires group { IsTrue (has_group parent self.old.made) }
        requires within { IsWithin (with_changed id.now (with_parent parent) self.old.made) }
        ensures { OnOk result (IsTurned id.now
            (option_map (with_parent parent) (find_subject id.now self.old.made))
            self.old self.new) }
    {
        let Some(present) = self.made.find(id) else {
            return Ok(());
        };
        if present.parent == parent {
            return Ok(());
        }
        let subject = *id;
        self.add(alloc, Edit::SetParent { subject, parent })
    }

    /// Removes a subject.
    pub(crate) fn remove(&mut self, alloc: Global, id: &SubjectId) -> Result<(), AllocError>
        requires unused { WellFormed self.old.made
            → (same_kind id.now.kind Group && is_parent id.now.name self.old.made) ≡ false }
        ensures { OnOk result (IsTurned id.now None self.old self.new) }
    {
        if self.made.find(id).is_none() {
            return Ok(());
        }
        self.add(alloc, Edit::Remove { subject: *id })
    }

    /// Adds a subject to no group.
    pub(crate) fn add_bare(
        &mut self,
        alloc: Global,
        kind: Kind,
        name: Name,
    ) -> Result<(), AllocError>
        requires absent { find_subject (record { kind = kind; name = name }) self.old.made ≡ None }
        requires room { length self.old.made < max_subjects }
        ensures { OnOk result (IsTurned (record { kind = kind; name = name })
            (Some (new_subject kind name None)) self.old self.new) }
    {
        self.add(alloc, bare_edit(kind, name))
    }

    // Gives a user another secret, or none.
    fn put_secret(
        &mut self,
        alloc: Global,
        user: &Name,
        credential: Credential,
        secret: &Option<Secret>,
    ) -> Result<(), AllocError>
        requires { IsTrue (all_of is_right_secret secret.now) }
        ensures { OnOk result (IsTurned (user_id user.now)
            (option_map (with_secret credential secret.now)
            (find_subject (user_id user.now) self.old.made)) self.old self.new) }
    {
        let Some(present) = self.made.find(&SubjectId::user(*user)) else {
            return Ok(());
        };
        if secret_of(present, credential) == secret {
            return Ok(());
        }
        let edit = secret_edit(alloc, credential, *user, secret)?;
        self.add(alloc, edit)
    }

    // Gives a subject another level, or none.
    fn put_level(
        &mut self,
        alloc: Global,
        id: &SubjectId,
        level: Option<u8>,
    ) -> Result<(), AllocError>
        requires { IsTrue (all_of (λ n. nat_le n 15) level) }
        ensures { OnOk result (IsTurned id.now
            (option_map (with_priv level) (find_subject id.now self.old.made))
            self.old self.new) }
    {
        let Some(present) = self.made.find(id) else {
            return Ok(());
        };
        if present.priv_lvl == level {
            return Ok(());
        }
        let subject = *id;
        let level = wide(level);
        self.add(alloc, Edit::SetPriv { subject, level })
    }

    // Clears the service of the first line about one of a subject, if it has one.
    fn clear_first(&mut self, alloc: Global, id: &SubjectId) -> Result<(), AllocError>
        ensures { OnOk result (IsTurned id.now
            (option_map planning.with_others (find_subject id.now self.old.made))
            self.old self.new) }
    {
        let Some(present) = self.made.find(id) else {
            return Ok(());
        };
        let Some(line) = present.services.as_slice().first() else {
            return Ok(());
        };
        let subject = *id;
        let service = line.service;
        let attribute = None;
        self.add(
            alloc,
            Edit::ClearService {
                subject,
                service,
                attribute,
            },
        )
    }

    // How many lines about services a subject has; none if it isn't there.
    fn count_services(&self, id: &SubjectId) -> usize
        ensures { (subject : SubjectValue) → find_subject id.now self.now.made ≡ Some subject
            → result ≡ length subject.services }
    {
        match self.made.find(id) {
            Some(present) => present.services.len(),
            None => 0,
        }
    }

    // Clears all services of a subject.
    fn clear_services(&mut self, alloc: Global, id: &SubjectId) -> Result<(), AllocError>
        ensures { OnOk result (IsTurned id.now
            (option_map (planning.with_services []) (find_subject id.now self.old.made))
            self.old self.new) }
    {
        let count = self.count_services(id);
        'lines: for _ in 0..count {
            self.clear_first(alloc, id)?;
        }
        Ok(())
    }

    // Adds a line about a service to those of a subject.
    fn add_line(
        &mut self,
        alloc: Global,
        id: &SubjectId,
        line: &ServiceLine,
    ) -> Result<(), AllocError>
        requires fits { (subject : SubjectValue) → find_subject id.now self.old.made ≡ Some subject
            → IsTrue (are_right_lines (subject.services ++ line.now ∷ [])) }
        ensures { OnOk result (IsTurned id.now
            (option_map (with_line_last line.now) (find_subject id.now self.old.made))
            self.old self.new) }
    {
        if self.made.find(id).is_none() {
            return Ok(());
        }
        let subject = *id;
        let line = line.copy(alloc)?;
        self.add(alloc, Edit::AddService { subject, line })
    }

    // Adds lines about services to a subject that has none.
    fn add_lines(
        &mut self,
        alloc: Global,
        id: &SubjectId,
        lines: &[ServiceLine],
    ) -> Result<(), AllocError>
        requires fresh { (subject : SubjectValue) → find_subject id.now self.old.made ≡ Some subject
            → subject.services ≡ [] }
        requires right { IsTrue (are_right_lines lines.now) }
        ensures { OnOk result (IsTurned id.now
            (option_map (planning.with_services lines.now) (find_subject id.now self.old.made))
            self.old self.new) }
    {
        'lines: for line in lines {
            self.add_line(alloc, id, line)?;
        }
        Ok(())
    }

    // Drops the first rule of a subject, if it has one.
    fn drop_rule(&mut self, alloc: Global, id: &SubjectId) -> Result<(), AllocError>
        ensures { OnOk result (IsTurned id.now
            (option_map (without_rule_at 0) (find_subject id.now self.old.made))
            self.old self.new) }
    {
        let Some(present) = self.made.find(id) else {
            return Ok(());
        };
        if present.rules.is_empty() {
            return Ok(());
        }
        self.add(
            alloc,
            Edit::RemoveRule {
                subject: *id,
                at: 1,
            },
        )
    }

    // How many rules a subject has; none if it isn't there.
    fn count_rules(&self, id: &SubjectId) -> usize
        ensures { (subject : SubjectValue) → find_subject id.now self.now.made ≡ Some subject
            → result ≡ length subject.rules }
    {
        match self.made.find(id) {
            Some(present) => present.rules.len(),
            None => 0,
        }
    }

    // Drops all rules of a subject.
    fn drop_rules(&mut self, alloc: Global, id: &SubjectId) -> Result<(), AllocError>
        ensures { OnOk result (IsTurned id.now
            (option_map (with_rules []) (find_subject id.now self.old.made))
            self.old self.new) }
    {
        let count = self.count_rules(id);
        'rules: for _ in 0..count {
            self.drop_rule(alloc, id)?;
        }
        Ok(())
    }

    // Adds a rule after so many others of a subject.
    fn add_rule(
        &mut self,
        alloc: Global,
        id: &SubjectId,
        place: usize,
        rule: &Rule,
    ) -> Result<(), AllocError>
        requires last { (subject : SubjectValue) → find_subject id.now self.old.made ≡ Some subject
            → length subject.rules ≡ place }
        requires room { place < max_rules }
        ensures { OnOk result (IsTurned id.now
            (option_map (with_rule_at place rule.now) (find_subject id.now self.old.made))
            self.old self.new) }
    {
        if self.made.find(id).is_none() {
            return Ok(());
        }
        let subject = *id;
        let at = place as u16 + 1;
        let verdict = rule.verdict;
        let pattern = Bytes::from_slice(alloc, rule.pattern.source())?;
        self.add(
            alloc,
            Edit::InsertRule {
                subject,
                at,
                verdict,
                pattern,
            },
        )
    }

    // Adds rules to a subject that has none.
    fn add_rules(&mut self, alloc: Global, id: &SubjectId, rules: &[Rule]) -> Result<(), AllocError>
        requires fresh { (subject : SubjectValue) → find_subject id.now self.old.made ≡ Some subject
            → subject.rules ≡ [] }
        requires few { length rules.now ≤ max_rules }
        ensures { OnOk result (IsTurned id.now
            (option_map (with_rules rules.now) (find_subject id.now self.old.made))
            self.old self.new) }
    {
        'rules: for (place, rule) in rules.iter().enumerate() {
            self.add_rule(alloc, id, place, rule)?;
        }
        Ok(())
    }

    // Gives a subject the secrets of this one. A group has none.
    fn put_secrets(&mut self, alloc: Global, subject: &Subject) -> Result<(), AllocError>
        requires { IsTrue (is_right_subject subject.now) }
        ensures { OnOk result (IsTurned (id_of subject.now)
            (option_map (planning.with_secrets subject.now)
            (find_subject (id_of subject.now) self.old.made)) self.old self.new) }
    {
        let Some(present) = self.made.find(&subject.id()) else {
            return Ok(());
        };
        if is_group(present.kind) {
            return Ok(());
        }
        self.put_secret(alloc, &subject.name, Credential::Login, &subject.login)?;
        self.put_secret(alloc, &subject.name, Credential::Enable, &subject.enable)
    }

    /// Gives a subject that is there all that this one has.
    pub(crate) fn settle(&mut self, alloc: Global, subject: &Subject) -> Result<(), AllocError>
        requires there { IsTrue (is_some (find_subject (id_of subject.now) self.old.made)) }
        requires right { IsTrue (is_right_subject subject.now) }
        requires group { IsTrue (has_group subject.now.parent self.old.made) }
        requires within { IsWithin
            (with_changed (id_of subject.now) (with_parent subject.now.parent) self.old.made) }
        ensures { OnOk result
            (IsTurned (id_of subject.now) (Some subject.now) self.old self.new) }
    {
        let id = subject.id();
        self.put_below(alloc, &id, subject.parent)?;
        self.put_secrets(alloc, subject)?;
        self.put_level(alloc, &id, subject.priv_lvl)?;
        self.clear_services(alloc, &id)?;
        self.add_lines(alloc, &id, subject.services.as_slice())?;
        self.drop_rules(alloc, &id)?;
        self.add_rules(alloc, &id, subject.rules.as_slice())
    }
}

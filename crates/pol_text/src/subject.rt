//! Groups and users, and what decides.

ghost use Rattle.std.specs.Prelude.{◌≡◌, ◌≤◌, length, filter, not, is_some, IsTrue, IfOk};
ghost use Rattle.std.specs.Prelude.{OnOk, OnErr};
ghost use Rattle.pol_names.specs.Kept.{is_right_secret};
ghost use Rattle.pol_names.specs.Service.{any_clash, is_cleared};
ghost use Rattle.pol_names.specs.SubjectId.{kind_word};
ghost use Rattle.pol_names.specs.SubjectId.{group_id, user_id};
ghost use Rattle.pol_text.specs.Policy.{id_of, all_of, is_right_rule, is_right_subject, max_rules};
ghost use Rattle.pol_text.specs.Policy.{first_match as first_of};
ghost use Rattle.pol_text.specs.Change.{with_secret, with_line_last, without_service};
ghost use Rattle.pol_text.specs.Change.{with_rule_at};
ghost use Rattle.pol_text.specs.Setting.{secret_for};
ghost use Rattle.pol_text.specs.Text.{new_subject};

use basics::{Bytes, Sequence, StructuralEq};
use pol_names::{
    By, Credential, Decision, Kind, Name, Secret, ServiceId, ServiceLine, SubjectId, Verdict,
};
use pol_pattern::Pattern;
use std::alloc::{AllocError, Global};
use std::mem;

/// A rule: what it says of the command lines that its pattern holds.
#[derive(Drop)]
pub struct Rule {
    pub verdict: Verdict,
    pub pattern: Pattern,
}

impl PartialEq for Rule {
    ghost use Rattle.std.specs.Cmp.{decided, partial_equiv_from_equiv};
    ghost use Rattle.pol_text.specs.Same.{same_rule, same_rule-Decides};

    ghost eq = { same_rule };

    ghost laws = { partial_equiv_from_equiv (decided same_rule same_rule-Decides) };

    fn eq(&self, other: &Rule) -> bool {
        self.verdict == other.verdict && self.pattern == other.pattern
    }
}

impl Eq for Rule {
    ghost use Rattle.std.specs.Cmp.{decided};
    ghost use Rattle.pol_text.specs.Same.{same_rule, same_rule-Decides};

    ghost laws = { decided same_rule same_rule-Decides };
}

impl StructuralEq for Rule {
    ghost use Rattle.pol_text.specs.Same.{same_rule-identical};

    ghost identical = { same_rule-identical };
}

impl Rule {
    /// A copy of the rule.
    pub fn copy(&self, alloc: Global) -> Result<Rule, AllocError>
        ensures { IfOk result (λ copy. copy ≡ self.now) }
    {
        let pattern = self.pattern.copy(alloc)?;
        Ok(Rule {
            verdict: self.verdict,
            pattern,
        })
    }
}

/// A group or a user. The parent is the name of a group.
pub struct Subject {
    pub kind: Kind,
    pub name: Name,
    pub parent: Option<Name>,
    /// What a user logs in with; a group has none.
    pub login: Option<Secret>,
    /// What a user enables with; a group has none.
    pub enable: Option<Secret>,
    /// The privilege level of a shell, 0 to 15 (RFC 8907, section 9).
    pub priv_lvl: Option<u8>,
    /// What is said of services: at most 64 lines, of which no two clash.
    pub services: Sequence<ServiceLine>,
    /// At most 256.
    pub rules: Sequence<Rule>,
}

// By hand, so that a proof of an owner has one call at each exit, not a drop of each field.
impl Drop for Subject {
    fn drop(self) {
        let Subject {
            kind: _,
            name: _,
            parent: _,
            login: _,
            enable: _,
            priv_lvl: _,
            services: _,
            rules: _,
        } = self;
    }
}

impl PartialEq for Subject {
    ghost use Rattle.std.specs.Cmp.{decided, partial_equiv_from_equiv};
    ghost use Rattle.pol_text.specs.Same.{same_subject, same_subject-Decides};

    ghost eq = { same_subject };

    ghost laws = { partial_equiv_from_equiv (decided same_subject same_subject-Decides) };

    fn eq(&self, other: &Subject) -> bool {
        self.kind == other.kind
            && self.name == other.name
            && self.parent == other.parent
            && self.login == other.login
            && self.enable == other.enable
            && self.priv_lvl == other.priv_lvl
            && self.services == other.services
            && self.rules == other.rules
    }
}

impl Eq for Subject {
    ghost use Rattle.std.specs.Cmp.{decided};
    ghost use Rattle.pol_text.specs.Same.{same_subject, same_subject-Decides};

    ghost laws = { decided same_subject same_subject-Decides };
}

impl StructuralEq for Subject {
    ghost use Rattle.pol_text.specs.Same.{same_subject-identical};

    ghost identical = { same_subject-identical };
}

impl Subject {
    /// A subject without secrets, level, services and rules, valid by the types of its names.
    /// Takes no memory.
    pub(crate) fn new(alloc: Global, kind: Kind, name: Name, parent: Option<Name>) -> Subject
        ensures subject { result ≡ new_subject kind name parent }
        ensures right { IsTrue (is_right_subject result) }
    {
        Subject {
            kind,
            name,
            parent,
            login: None,
            enable: None,
            priv_lvl: None,
            services: Sequence::new(alloc),
            rules: Sequence::new(alloc),
        }
    }

    /// The subject's kind and name.
    pub fn id(&self) -> SubjectId
        ensures { result ≡ id_of self.now }
    {
        SubjectId {
            kind: self.kind,
            name: self.name,
        }
    }

    /// Whether the subject has this secret.
    pub(crate) fn has_secret(&self, credential: Credential) -> bool
        ensures { result ≡ is_some (secret_for credential self.now) }
    {
        match credential {
            Credential::Login => self.login.is_some(),
            Credential::Enable => self.enable.is_some(),
        }
    }

    /// Gives the user another secret, or none. Its type says that a secret is valid.
    pub(crate) fn set_secret(&mut self, credential: Credential, secret: Option<Secret>)
        ensures changed { self.new ≡ with_secret credential secret self.old }
        ensures right { IsTrue (all_of is_right_secret secret) }
    {
        match credential {
            Credential::Login => self.login = secret,
            Credential::Enable => self.enable = secret,
        }
    }

    /// Whether one of the subject's lines about services clashes with this one.
    pub fn has_clash(&self, line: &ServiceLine) -> bool
        ensures { result ≡ any_clash self.now.services line.now }
    {
        self.services
            .as_slice()
            .iter()
            .any(|present| present.clashes(line))
    }

    /// Adds a line about a service, last.
    pub(crate) fn push_service(&mut self, line: ServiceLine) -> Result<(), AllocError>
        ensures ok { OnOk result (self.new ≡ with_line_last line self.old) }
        ensures err { OnErr result (self.new ≡ self.old) }
    {
        self.services.push(line)?;
        Ok(())
    }

    /// Takes out the lines about a service, or the one that gives this attribute. Takes no memory.
    pub(crate) fn clear_service(
        &mut self,
        alloc: Global,
        service: &ServiceId,
        attribute: &Option<Bytes>,
    )
        ensures { self.new ≡ without_service service.now attribute.now self.old }
    {
        let mut lines = mem::replace(&mut self.services, Sequence::new(alloc)).into_vec();
        keep_others(&mut lines, service, attribute);
        self.services = Sequence::from(lines);
    }

    /// Puts a rule at a place, counted from 0; those from there on move up. Its type says that a
    /// rule's pattern is valid.
    #[tactic(auto, unfolding(pol_pattern::specs::Reading::pattern_of))]
    pub(crate) fn insert_rule(&mut self, at: usize, rule: Rule) -> Result<(), AllocError>
        requires { at ≤ length self.old.rules }
        ensures ok { OnOk result (self.new ≡ with_rule_at at rule self.old) }
        ensures err { OnErr result (self.new ≡ self.old) }
        ensures right { IsTrue (is_right_rule rule) }
    {
        self.rules.insert(at, rule)?;
        Ok(())
    }

    /// What the first of the subject's own rules whose pattern holds the line decides.
    pub(crate) fn first_match(&self, line: &[u8]) -> Option<Decision>
        requires { length self.now.rules ≤ max_rules }
        ensures { result ≡ first_of (id_of self.now) 1 self.now.rules line.now }
    {
        let owner = self.id();
        for (i, rule) in self.rules.as_slice().iter().enumerate() {
            if rule.pattern.contains(line) {
                return Some(Decision {
                    verdict: rule.verdict,
                    by: By::Rule(owner, i as u16 + 1),
                });
            }
        }
        None
    }

    /// A copy of the subject.
    pub fn copy(&self, alloc: Global) -> Result<Subject, AllocError>
        ensures { IfOk result (λ copy. copy ≡ self.now) }
    {
        let login = copy_secret(alloc, &self.login)?;
        let enable = copy_secret(alloc, &self.enable)?;
        let services = copy_services(alloc, &self.services)?;
        let rules = copy_rules(alloc, &self.rules)?;
        Ok(Subject {
            kind: self.kind,
            name: self.name,
            parent: self.parent,
            login,
            enable,
            priv_lvl: self.priv_lvl,
            services,
            rules,
        })
    }
}

// Takes out the lines that are cleared.
fn keep_others(lines: &mut Vec<ServiceLine>, service: &ServiceId, attribute: &Option<Bytes>)
    ensures { lines.new.items
        ≡ filter (λ line. not (is_cleared service.now attribute.now line)) lines.old.items }
{
    lines.retain(|line| !line.is_cleared(service, attribute));
}

fn copy_services(
    alloc: Global,
    services: &Sequence<ServiceLine>,
) -> Result<Sequence<ServiceLine>, AllocError>
    ensures { IfOk result (λ copy. copy ≡ services.now) }
{
    let mut copies = Sequence::new(alloc);
    for line in services.as_slice() {
        let copy = line.copy(alloc)?;
        copies.push(copy)?;
    }
    Ok(copies)
}

fn copy_secret(alloc: Global, secret: &Option<Secret>) -> Result<Option<Secret>, AllocError>
    ensures { IfOk result (λ copy. copy ≡ secret.now) }
{
    match secret {
        Some(secret) => {
            let copy = secret.copy(alloc)?;
            Ok(Some(copy))
        }
        None => Ok(None),
    }
}

fn copy_rules(alloc: Global, rules: &Sequence<Rule>) -> Result<Sequence<Rule>, AllocError>
    ensures { IfOk result (λ copy. copy ≡ rules.now) }
{
    let mut copies = Sequence::new(alloc);
    for rule in rules.as_slice() {
        let copy = rule.copy(alloc)?;
        copies.push(copy)?;
    }
    Ok(copies)
}

//! The rules along the chain of a subject.

ghost use Rattle.std.specs.Prelude.{◌≡◌, ◌≤◌, ◌++◌, ℕ, List, length, map, slice_get, IfOk, IfSome, Some};
ghost use Rattle.std.specs.Prelude.{OnOk};
ghost use Rattle.std.specs.Option.{option_map, option_copied};
ghost use Rattle.pol_automaton.specs.Entries.{AreEntries};
ghost use Rattle.pol_text.specs.Policy.{parent_of, own_entries, entries, max_rules};
ghost use Rattle.pol_text.specs.declared.subject.Subject.{Subject as SubjectValue};
ghost use Rattle.pol_live.specs.ChainRules.{chain_rule as rule_of, decision_by};
ghost use Rattle.pol_meaning.specs.Along.{entries_of, patterns_along};
ghost use Rattle.pol_live.specs.Kept.{AreParents};

use crate::filling::subject_at;
use crate::parents::{Parents, parent_at};
use pol_automaton::Entries;
use pol_names::{By, Decision, SubjectId, Verdict};
use pol_text::{Policy, Subject};
use std::alloc::{AllocError, Global};

/// A rule along the chain of a subject.
#[derive(Clone, Copy, PartialEq, Eq)]
pub struct ChainRule {
    pub owner: SubjectId,
    /// The rule's number in its owner, from 1.
    pub number: u16,
    pub verdict: Verdict,
}

impl ChainRule {
    /// What the rule decides.
    pub fn decision(self) -> Decision
        ensures { result ≡ decision_by self }
    {
        Decision {
            verdict: self.verdict,
            by: By::Rule(self.owner, self.number),
        }
    }
}

/// The group that the subject belongs to.
pub(crate) fn parent<'a>(policy: &'a Policy, subject: &Subject) -> Option<&'a Subject>
    ensures found { option_copied result ≡ parent_of policy.now subject.now }
    ensures few { IfSome result (λ group. length group.now.rules ≤ max_rules) }
{
    policy.parent_of(subject)
}

/// Adds the patterns of a subject's own rules.
pub(crate) fn add_patterns(entries: &mut Entries, subject: &Subject) -> Result<(), AllocError>
    ensures { OnOk result ((known : List (List ℕ)) → AreEntries entries.old known
        → AreEntries entries.new (known ++ map (λ rule. rule.pattern) subject.now.rules)) }
{
    for rule in subject.rules.as_slice() {
        entries.add(&rule.pattern)?;
    }
    Ok(())
}

/// The patterns of the rules along the chain of a subject, the subject's own first.
pub(crate) fn patterns_from(
    alloc: Global,
    policy: &Policy,
    subject: &Subject,
) -> Result<Entries, AllocError>
    ensures { IfOk result (λ found. AreEntries found (patterns_along policy.now subject.now)) }
{
    let mut found = Entries::new(alloc);
    let mut present = subject;
    'chain: for _ in 0..Policy::MAX_CHAIN {
        add_patterns(&mut found, present)?;
        match parent(policy, present) {
            Some(group) => present = group,
            None => return Ok(found),
        }
    }
    Ok(found)
}

// Adds the subject's own rules.
fn add_rules(rules: &mut Vec<ChainRule>, subject: &Subject) -> Result<(), AllocError>
    requires { length subject.now.rules ≤ max_rules }
    ensures { OnOk result (rules.new.items
        ≡ rules.old.items ++ map rule_of (own_entries subject.now)) }
{
    for (i, rule) in subject.rules.as_slice().iter().enumerate() {
        rules.push(ChainRule {
            owner: subject.id(),
            number: i as u16 + 1,
            verdict: rule.verdict,
        })?;
    }
    Ok(())
}

// The rules along the chain of a subject that is there.
fn rules_from(
    alloc: Global,
    policy: &Policy,
    subject: &Subject,
) -> Result<Vec<ChainRule>, AllocError>
    requires { length subject.now.rules ≤ max_rules }
    ensures { IfOk result (λ rules. rules.items ≡ map rule_of (entries policy.now subject.now)) }
{
    let mut rules = Vec::new(alloc);
    let mut present = subject;
    'chain: for _ in 0..Policy::MAX_CHAIN {
        add_rules(&mut rules, present)?;
        match parent(policy, present) {
            Some(group) => present = group,
            None => return Ok(rules),
        }
    }
    Ok(rules)
}

/// The rules along the chain of the subject of this kind and name, the subject's own first; none
/// where there is no such subject.
pub fn rules_along(
    alloc: Global,
    policy: &Policy,
    id: &SubjectId,
) -> Result<Vec<ChainRule>, AllocError>
    ensures { IfOk result (λ rules. rules.items ≡ map rule_of (entries_of policy.now id.now)) }
{
    match policy.find(id) {
        Some(subject) => rules_from(alloc, policy, subject),
        None => Ok(Vec::new(alloc)),
    }
}

/// The rule at this place of those along the chain of the subject that stands at a place of the
/// policy, both counted from 0. Takes no memory, and a step for each subject up to the rule's.
pub(crate) fn chain_rule(
    policy: &Policy,
    parents: &Parents,
    subject: usize,
    place: usize,
) -> Option<ChainRule>
    requires { AreParents policy.now parents.now }
    ensures { (its : SubjectValue) → slice_get policy.now subject ≡ Some its
        → result ≡ option_map rule_of (slice_get (entries policy.now its) place) }
{
    let mut at = subject;
    let mut left = place;
    'chain: for _ in 0..Policy::MAX_CHAIN {
        let Some(present) = subject_at(policy, at) else {
            return None;
        };
        if let Some(rule) = present.rules.as_slice().get(left) {
            return Some(ChainRule {
                owner: present.id(),
                number: left as u16 + 1,
                verdict: rule.verdict,
            });
        }
        left -= present.rules.len();
        match parent_at(parents, at) {
            Some(group) => at = group,
            None => return None,
        }
    }
    None
}

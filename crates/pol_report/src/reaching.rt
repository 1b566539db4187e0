//! By which lines rules are reached.

ghost use Rattle.std.specs.Prelude.{◌≡◌, ◌++◌, List, length, map, IfOk, IfSome, IfNone, OnOk};
ghost use Rattle.pol_pattern.specs.Matching.{MatchLaw};
ghost use Rattle.pol_automaton.specs.Automaton.{IsDecider};
ghost use Rattle.pol_text.specs.declared.subject.Subject.{Subject as SubjectValue};
ghost use Rattle.pol_meaning.specs.Along.{patterns_of, entries_of};
ghost use Rattle.pol_meaning.specs.Reach.{AreReached, shadowed_row, unreached};
ghost use Rattle.pol_meaning.specs.declared.Reached.{Reached as ReachedValue};

use crate::line::line_of;
use crate::{Reached, Shadowed};
use basics::Sequence;
use pol_automaton::Decider;
use pol_live::{ChainRule, Live, rules_along};
use pol_names::SubjectId;
use pol_text::Policy;
use std::alloc::{AllocError, Global};

// The rules along a chain, each with the least line that it decides.
fn reach_along(
    alloc: Global,
    policy: &Policy,
    id: &SubjectId,
    decider: &Decider,
) -> Result<Sequence<Reached>, AllocError>
    requires law { MatchLaw }
    requires right { IsDecider decider.now (patterns_of (entries_of policy.now id.now)) }
    ensures { IfOk result (λ rows. AreReached (entries_of policy.now id.now) rows) }
{
    let rules = rules_along(alloc, policy, id)?;
    let mut rows = Sequence::new(alloc);
    for (place, rule) in rules.iter().enumerate() {
        let text = decider.reach(alloc, place)?;
        rows.push(Reached {
            owner: rule.owner,
            number: rule.number,
            text: line_of(text),
        })?;
    }
    Ok(rows)
}

/// The rules along the chain of a subject, the subject's own first, each with the least line that
/// it decides; none where there is no such subject. Linear in the number of rules and the length of
/// the lines, once the policy is live.
pub fn reach(
    alloc: Global,
    live: &Live,
    subject: &SubjectId,
) -> Result<Sequence<Reached>, AllocError>
    ensures found { IfOk result (λ rows. AreReached (entries_of live.now subject.now) rows) }

    // There is one such report.
    ensures only { IfOk result (λ rows. (other : List ReachedValue)
        → AreReached (entries_of live.now subject.now) other → rows ≡ other) }
{
    match live.decider(subject) {
        Some(decider) => reach_along(alloc, live.policy(), subject, decider),
        None => Ok(Sequence::new(alloc)),
    }
}

/// Adds those that no line reaches.
pub(crate) fn add_unreached(
    shadows: &mut Sequence<Shadowed>,
    subject: &SubjectId,
    rows: &Sequence<Reached>,
) -> Result<(), AllocError>
    ensures { OnOk result (shadows.new ≡ shadows.old ++ unreached subject.now rows.now) }
{
    for row in rows.as_slice() {
        if row.text.is_none() {
            shadows.push(Shadowed {
                subject: *subject,
                owner: row.owner,
                number: row.number,
            })?;
        }
    }
    Ok(())
}

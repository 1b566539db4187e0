//! What an automaton decides.

ghost use Rattle.std.specs.Prelude.{◌≡◌, slice_get, Some};
ghost use Rattle.pol_automaton.specs.Automaton.{IsDecider};
ghost use Rattle.pol_text.specs.declared.subject.Subject.{Subject as SubjectValue};
ghost use Rattle.pol_text.specs.Policy.{decision};
ghost use Rattle.pol_meaning.specs.Along.{patterns_along as patterns};
ghost use Rattle.pol_live.specs.Kept.{AreParents};

use crate::along::chain_rule;
use crate::parents::Parents;
use pol_automaton::Decider;
use pol_names::{By, Decision, Verdict};
use pol_text::Policy;

// The decision where no rule matches.
const UNMATCHED: Decision = Decision {
    verdict: Verdict::Deny,
    by: By::Default,
};

/// What the first rule that matches decides, of those along the chain of the subject at a place of
/// the policy. Takes no memory.
pub(crate) fn decided(
    policy: &Policy,
    parents: &Parents,
    subject: usize,
    decider: &Decider,
    line: &[u8],
) -> Decision
    requires { AreParents policy.now parents.now }
    ensures { (its : SubjectValue) → slice_get policy.now subject ≡ Some its
        → IsDecider decider.now (patterns policy.now its)
        → result ≡ decision policy.now its line.now }
{
    let Some(place) = decider.decide(line) else {
        return UNMATCHED;
    };
    match chain_rule(policy, parents, subject, place) {
        Some(rule) => rule.decision(),
        None => UNMATCHED,
    }
}

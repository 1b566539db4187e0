//! What the first match of a text says of it.

ghost use Rattle.std.specs.Prelude.{◌≡◌};
ghost use Rattle.pol_automaton.specs.Decision.{verdict_by as verdict_of};
ghost use Rattle.pol_automaton.specs.Pairs.{is_change as changes};

use crate::way::Way;
use pol_names::Verdict;

/// The verdict of the first match; where there is none the text is denied.
pub(crate) fn verdict_by(verdicts: &[Verdict], first: Option<usize>) -> Verdict
    ensures { result ≡ verdict_of verdicts.now first }
{
    match first {
        Some(entry) => verdicts.get(entry).copied().unwrap_or(Verdict::Deny),
        None => Verdict::Deny,
    }
}

/// Whether the verdict changed this way.
pub(crate) fn is_change(way: Way, before: Verdict, after: Verdict) -> bool
    ensures { result ≡ changes way before after }
{
    match (way, before, after) {
        (Way::NowPermitted, Verdict::Deny, Verdict::Permit) => true,
        (Way::NowDenied, Verdict::Permit, Verdict::Deny) => true,
        _ => false,
    }
}

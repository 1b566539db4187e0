//! The first match of residuals.

ghost use Rattle.pol_automaton.specs.Scanning.{AreResiduals};
ghost use Rattle.pol_automaton.specs.Matching.{IsFirstAccepted};

use crate::entry_term::EntryTerm;
use pol_deriv::Terms;

/// The first entry whose residual holds the empty text.
pub(crate) fn first_accepted(terms: &Terms, items: &[EntryTerm]) -> Option<usize>
    requires { AreResiduals terms.now items.now }
    ensures { IsFirstAccepted terms.now items.now result }
{
    for item in items {
        if terms.holds_empty(item.term) {
            return Some(item.entry);
        }
    }
    None
}

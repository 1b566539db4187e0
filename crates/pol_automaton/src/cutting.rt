//! What of residuals counts.

ghost use Rattle.std.specs.Prelude.{◌≡◌, ◌↔◌, ℕ, IsTrue, IfSome, IfNone, filter};
ghost use Rattle.pol_residual.specs.Residuals.{any_text};
ghost use Rattle.pol_automaton.specs.Scanning.{AreResiduals, HasTerm};
ghost use Rattle.pol_automaton.specs.Stepping.{AreCut, IsFirstSure, is_up_to};

use crate::entry_term::EntryTerm;
use pol_deriv::Terms;

// The term `.*` of the first entry that has it.
fn first_sure(terms: &Terms, items: &[EntryTerm]) -> Option<EntryTerm>
    requires { AreResiduals terms.now items.now }
    ensures some { IfSome result (λ sure. IsFirstSure terms.now items.now sure) }
    ensures none { IfNone result
        ((entry : ℕ) → ¬ (HasTerm terms.now items.now entry any_text)) }
{
    for item in items {
        if terms.is_any_text(item.term) {
            return Some(*item);
        }
    }
    None
}

// Leaves the terms of the entries before a sure one, and of that one only its `.*`.
fn keep_up_to(items: &mut Vec<EntryTerm>, sure: EntryTerm)
    ensures { items.new.items ≡ filter (is_up_to sure) items.old.items }
{
    items.retain(|item| item.entry < sure.entry || *item == sure);
}

/// Leaves of residuals only what counts. Linear.
pub(crate) fn cut(terms: &Terms, items: &mut Vec<EntryTerm>)
    requires { AreResiduals terms.now items.old.items }
    ensures right { AreResiduals terms.now items.new.items }
    ensures cut { AreCut terms.now items.old.items items.new.items }
{
    if let Some(sure) = first_sure(terms, items) {
        keep_up_to(items, sure);
    }
}

/// Whether an entry is sure.
pub(crate) fn is_sure(terms: &Terms, items: &[EntryTerm]) -> bool
    requires { AreResiduals terms.now items.now }
    ensures { IsTrue result ↔ ((entry : ℕ) × HasTerm terms.now items.now entry any_text) }
{
    first_sure(terms, items).is_some()
}

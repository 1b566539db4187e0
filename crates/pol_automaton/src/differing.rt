//! The least text whose decision changed.

ghost use Rattle.std.specs.Prelude.{ℕ, List, IfOk, IfSome, IfNone};
ghost use Rattle.pol_automaton.specs.Decision.{Ruling, IsChanged, IsLeastChange, ruling};

use crate::decider::Decider;
use crate::pairs::Comparing;
use crate::way::Way;
use pol_names::Verdict;
use pol_scan::search;
use std::alloc::{AllocError, Global};

impl Decider {
    ghost use Rattle.pol_automaton.specs.Automaton.{IsDecider};

    /// The least text of which the decision changed this way between an old automaton and a new
    /// one, or nothing if there is none. There is a verdict for each entry; what no entry decides
    /// is denied.
    ///
    /// It reads both side by side, by the columns that tell apart what either does, and stops at
    /// the first pair of states that differs so. It keeps the pairs that it met, and no rows.
    pub fn differ(
        alloc: Global,
        old: &Decider,
        old_verdicts: &[Verdict],
        new: &Decider,
        new_verdicts: &[Verdict],
        way: Way,
    ) -> Result<Option<Vec<u8>>, AllocError>
        ensures least { (before after : List (List ℕ)) → IsDecider old.now before
            → IsDecider new.now after → IfOk result (λ r. IfSome r (λ text. IsLeastChange
            (ruling before old_verdicts.now) (ruling after new_verdicts.now) way text.items)) }
        ensures none { (before after : List (List ℕ)) → IsDecider old.now before
            → IsDecider new.now after → IfOk result (λ r. IfNone r ((text : List ℕ) → ¬ (IsChanged
            (ruling before old_verdicts.now) (ruling after new_verdicts.now) way text))) }
    {
        let alphabet = old.alphabet().join(&new.alphabet());
        let bound = old.size() * new.size();
        let mut comparing = Comparing {
            alphabet,
            old,
            old_verdicts,
            new,
            new_verdicts,
            way,
        };
        let Some(word) = search(alloc, &mut comparing, bound)? else {
            return Ok(None);
        };
        Ok(Some(alphabet.text_of(word)))
    }
}

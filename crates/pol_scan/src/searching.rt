//! The search for the least word that is accepted.

ghost use Rattle.std.specs.Prelude.{◌≡◌, ◌<◌, ◌+◌, ℕ, List, length, IfOk, IfSome, IfNone};
ghost use Rattle.basics.specs.TextOrder.{IsLeast};
ghost use Rattle.pol_scan.specs.Words.{IsWordThat, word_at};
ghost use Rattle.pol_scan.specs.Congruence.{HasNumbersBelow};
ghost use Rattle.pol_scan.specs.Discovery.{SeeksAt};

use crate::found::{Found, begin, follow};
use crate::machine::{Acceptor, Column, Machine};
use std::alloc::{AllocError, Global};

// Follows each column from a found state, up to the first new state that accepts.
fn seek_in_row<A: Acceptor>(
    machine: &mut A,
    found: &mut Found<A::State>,
    number: usize,
    width: Column,
) -> Result<Option<usize>, AllocError>
    requires number { number < length found.old.words }
    requires width { width ≡ (A.congruence machine.old).width }
    requires seeks { SeeksAt (A.congruence machine.old) (A.leads machine.old)
        (A.accepted machine.old) found.old.words found.old.states.keys number 0 }

    // The next row begins after this one.
    ensures none { IfOk result (λ r. IfNone r (SeeksAt (A.congruence machine.new)
        (A.leads machine.new) (A.accepted machine.new)
        found.new.words found.new.states.keys (number + 1) 0)) }
    ensures number { IfOk result (λ r. number < length found.new.words) }
    ensures some { IfOk result (λ r. IfSome r (λ at. at < length found.new.words)) }
    ensures least { IfOk result (λ r. IfSome r (λ at. IsLeast
        (IsWordThat (A.congruence machine.new).width (A.accepted machine.new))
        (word_at found.new.words at))) }
    ensures width { width ≡ (A.congruence machine.new).width }
    ensures grows { A.grows machine.old machine.new }
{
    'columns: for column in 0..width {
        let (next, is_new) = follow(machine, found, number, column)?;
        if is_new && machine.accepts(found.state(next)) {
            return Ok(Some(next));
        }
    }
    Ok(None)
}

// Follows the found states in order, up to the first new state that accepts.
fn seek<A: Acceptor>(
    alloc: Global,
    machine: &mut A,
    found: &mut Found<A::State>,
    width: Column,
    bound: usize,
) -> Result<Option<Vec<Column>>, AllocError>
    requires bound { HasNumbersBelow (A.congruence machine.old) bound }
    requires width { width ≡ (A.congruence machine.old).width }
    requires seeks { SeeksAt (A.congruence machine.old) (A.leads machine.old)
        (A.accepted machine.old) found.old.words found.old.states.keys 0 0 }
    ensures least { IfOk result (λ r. IfSome r (λ word. IsLeast
        (IsWordThat (A.congruence machine.old).width (A.accepted machine.old)) word.items)) }
    ensures none { IfOk result (λ r. IfNone r ((word : List ℕ)
        → ¬ (IsWordThat (A.congruence machine.old).width (A.accepted machine.old) word))) }
    ensures grows { A.grows machine.old machine.new }
{
    'rows: for number in 0..bound {
        if number >= found.states.len() {
            return Ok(None);
        }
        if let Some(at) = seek_in_row(machine, found, number, width)? {
            let word = found.words.word_of(alloc, at)?;
            return Ok(Some(word));
        }
    }
    Ok(None)
}

/// The least word that a machine accepts, or nothing if it accepts none. There are at most `bound`
/// states.
///
/// It stops at the first state that accepts. One step of the machine and one look-up for each state
/// found till then and each column. It keeps the word of each state, and no rows.
pub fn search<A: Acceptor>(
    alloc: Global,
    machine: &mut A,
    bound: usize,
) -> Result<Option<Vec<Column>>, AllocError>
    requires { HasNumbersBelow (A.congruence machine.old) bound }
    ensures least { IfOk result (λ r. IfSome r (λ word. IsLeast
        (IsWordThat (A.congruence machine.old).width (A.accepted machine.old)) word.items)) }
    ensures none { IfOk result (λ r. IfNone r ((word : List ℕ)
        → ¬ (IsWordThat (A.congruence machine.old).width (A.accepted machine.old) word))) }

    // Also where it gives up.
    ensures grows { A.grows machine.old machine.new }
{
    let width = machine.width();
    let mut found = begin(alloc, machine)?;
    if machine.accepts(found.state(0)) {
        return Ok(Some(Vec::new(alloc)));
    }
    seek(alloc, machine, &mut found, width, bound)
}

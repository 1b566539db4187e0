//! The automata that edits leave right.

ghost use Rattle.std.specs.Prelude.{◌≡◌, IfOk};
ghost use Rattle.std.specs.Option.{option_and_then};
ghost use Rattle.pol_text.specs.Policy.{WellFormed};
ghost use Rattle.pol_live.specs.Kept.{AreParts, slot};
ghost use Rattle.pol_live.specs.Renewing.{AreKept, IsAlike, IsKept};
ghost use Rattle.pol_live.specs.Renewing.{renews_own as own_renewed, renews_chain as chain_renewed};

use crate::filling::has_rules;
use crate::parts::{Parts, Slots, lookup};
use crate::shared::Shared;
use crate::touching::{Touched, has_on_chain, is_among};
use basics::Sequence;
use pol_text::{Policy, Subject};
use std::alloc::{AllocError, Global};

// Whether the automaton of the subject's own rules is made anew.
fn renews_own(touched: &Touched, subject: &Subject) -> bool
    ensures { result ≡ own_renewed touched.now subject.now }
{
    is_among(touched.rewritten.as_slice(), subject)
        || (is_among(touched.all.as_slice(), subject) && !has_rules(subject))
}

// Whether that of the rules along its chain is.
fn renews_chain(touched: &Touched, policy: &Policy, subject: &Subject) -> bool
    ensures { result ≡ chain_renewed touched.now policy.now subject.now }
{
    has_on_chain(touched.all.as_slice(), policy, subject)
}

// The automaton at a place, if there is one, with one more owner.
fn share_at(slots: &Slots, at: Option<usize>) -> Result<Option<Shared>, AllocError>
    ensures { IfOk result (λ shared. shared ≡ option_and_then (slot slots.now) at) }
{
    let Some(at) = at else {
        return Ok(None);
    };
    let Some(found) = lookup(slots, at) else {
        return Ok(None);
    };
    let shared = found.share()?;
    Ok(Some(shared))
}

// What is kept for a subject.
fn keep(
    renewed: bool,
    before: &Policy,
    slots: &Slots,
    subject: &Subject,
) -> Result<Option<Shared>, AllocError>
    ensures { IfOk result (λ kept. IsKept renewed before.now slots.now subject.now kept) }
{
    if renewed {
        return Ok(None);
    }
    share_at(slots, before.index_of(&subject.id()))
}

// The automata of subjects' own rules that stay right.
fn kept_owns(
    alloc: Global,
    before: &Policy,
    owns: &Slots,
    touched: &Touched,
    after: &Policy,
) -> Result<Slots, AllocError>
    ensures kept { IfOk result (λ kept.
        AreKept (own_renewed touched.now) before.now owns.now after.now kept) }
    ensures well_formed { WellFormed after.now }
{
    let mut kept = Sequence::new(alloc);
    for subject in after.subjects() {
        let own = keep(renews_own(touched, subject), before, owns, subject)?;
        kept.push(own)?;
    }
    Ok(kept)
}

// The automata of the rules along chains that stay right.
fn kept_wholes(
    alloc: Global,
    before: &Policy,
    wholes: &Slots,
    touched: &Touched,
    after: &Policy,
) -> Result<Slots, AllocError>
    ensures { IfOk result (λ kept.
        AreKept (chain_renewed touched.now after.now) before.now wholes.now after.now kept) }
{
    let mut kept = Sequence::new(alloc);
    for subject in after.subjects() {
        let whole = keep(
            renews_chain(touched, after, subject),
            before,
            wholes,
            subject,
        )?;
        kept.push(whole)?;
    }
    Ok(kept)
}

/// The automata before edits that are right for the policy that they make.
pub(crate) fn kept_parts(
    alloc: Global,
    before: &Policy,
    parts: &Parts,
    touched: &Touched,
    after: &Policy,
) -> Result<Parts, AllocError>
    requires alike { IsAlike touched.now before.now after.now }
    requires right { AreParts before.now parts.now }
    ensures right { IfOk result (λ kept. AreParts after.now kept) }
    ensures owns { IfOk result (λ kept.
        AreKept (own_renewed touched.now) before.now parts.now.owns after.now kept.owns) }
    ensures wholes { IfOk result (λ kept. AreKept (chain_renewed touched.now after.now)
        before.now parts.now.wholes after.now kept.wholes) }
    ensures well_formed { WellFormed after.now }
{
    let owns = kept_owns(alloc, before, &parts.owns, touched, after)?;
    let wholes = kept_wholes(alloc, before, &parts.wholes, touched, after)?;
    Ok(Parts { owns, wholes })
}

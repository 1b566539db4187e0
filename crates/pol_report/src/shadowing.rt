//! Which rules decide nothing.

ghost use Rattle.std.specs.Prelude.{◌≡◌, ◌++◌, List, map, take, IfOk, OnOk};
ghost use Rattle.pol_meaning.specs.Along.{entries_of};
ghost use Rattle.pol_meaning.specs.Reach.{Shadows, AreReached, unreached as unreached_rows};
ghost use Rattle.pol_report.specs.Sharing.{AreFound, AreUnreached, AreTold, told_for};
ghost use Rattle.pol_meaning.specs.declared.Reached.{Reached as ReachedValue};
ghost use Rattle.pol_meaning.specs.declared.Shadowed.{Shadowed as ShadowedValue};

use crate::Shadowed;
use crate::reaching::{add_unreached, reach};
use basics::Sequence;
use pol_live::{Live, keeper};
use pol_names::SubjectId;
use std::alloc::{AllocError, Global};
use std::collections::BTreeMap;

// The rules along a subject's chain that no line reaches.
fn unreached(
    alloc: Global,
    live: &Live,
    subject: &SubjectId,
) -> Result<Sequence<Shadowed>, AllocError>
    ensures { IfOk result (AreUnreached (entries_of live.now subject.now)) }
{
    let rows = reach(alloc, live, subject)?;
    let mut found = Sequence::new(alloc);
    add_unreached(&mut found, subject, &rows)?;
    Ok(found)
}

// Adds these rules for the subject.
fn tell(
    shadows: &mut Sequence<Shadowed>,
    subject: &SubjectId,
    found: &Sequence<Shadowed>,
) -> Result<(), AllocError>
    ensures { OnOk result (shadows.new ≡ shadows.old ++ map (told_for subject.now) found.now) }
{
    for rule in found.as_slice() {
        shadows.push(Shadowed {
            subject: *subject,
            owner: rule.owner,
            number: rule.number,
        })?;
    }
    Ok(())
}

// Adds the rules along a subject's chain that no line reaches. They are found once for all who have
// their rules by one keeper.
fn add_shadows(
    alloc: Global,
    live: &Live,
    subject: &SubjectId,
    known: &mut BTreeMap<usize, Sequence<Shadowed>>,
    shadows: &mut Sequence<Shadowed>,
) -> Result<(), AllocError>
    requires { AreFound live.now known.old }
    ensures known { OnOk result (AreFound live.now known.new) }
    ensures told { OnOk result (AreTold (entries_of live.now subject.now) subject.now
        shadows.old shadows.new) }
{
    let Some(place) = keeper(live.policy(), subject) else {
        return Ok(());
    };
    if let Some(found) = known.get(&place) {
        return tell(shadows, subject, found);
    }
    let found = unreached(alloc, live, subject)?;
    tell(shadows, subject, &found)?;
    known.insert(place, found)?;
    Ok(())
}

/// The rules that decide no line, for each subject in the policy's order and each rule along its
/// chain.
///
/// Each automaton is looked at once, however many subjects share it; all else takes a few look-ups
/// for each subject, and the list itself.
pub fn shadows(alloc: Global, live: &Live) -> Result<Sequence<Shadowed>, AllocError>
    ensures found { IfOk result (λ shadows. Shadows live.now shadows) }

    // There is one such report.
    ensures only { IfOk result (λ shadows. (other : List ShadowedValue)
        → Shadows live.now other → shadows ≡ other) }
{
    let mut known = BTreeMap::new(alloc);
    let mut shadows = Sequence::new(alloc);
    for subject in live.policy().subjects() {
        add_shadows(alloc, live, &subject.id(), &mut known, &mut shadows)?;
    }
    Ok(shadows)
}

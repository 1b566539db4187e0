//! Where the groups of a policy's subjects stand, so that a chain is walked without looking for
//! names.

ghost use Rattle.std.specs.Prelude.{◌≡◌, IfOk};
ghost use Rattle.pol_live.specs.Kept.{AreParents, slot};

use crate::filling::parent_index;
use basics::Sequence;
use pol_text::Policy;
use std::alloc::{AllocError, Global};

/// For each subject of a policy, in its order, where its group stands.
pub(crate) type Parents = Sequence<Option<usize>>;

/// Finds the groups of all subjects. A look-up for each.
pub(crate) fn parents_of(alloc: Global, policy: &Policy) -> Result<Parents, AllocError>
    ensures { IfOk result (λ parents. AreParents policy.now parents) }
{
    let mut parents = Sequence::new(alloc);
    for subject in policy.subjects() {
        parents.push(parent_index(policy, subject))?;
    }
    Ok(parents)
}

/// Where the group of the subject at a place stands.
pub(crate) fn parent_at(parents: &Parents, at: usize) -> Option<usize>
    ensures { result ≡ slot parents.now at }
{
    match parents.as_slice().get(at) {
        Some(parent) => *parent,
        None => None,
    }
}

//! The rules that decide no line of their owners.

use crate::remarks::Present;
use indexmap::IndexSet;
use pol_meaning::Shadowed;
use std::alloc::{AllocError, Global};

/// The rules that decide no line of their owners, and so of nobody, to be looked up.
pub(crate) fn hidden_of(alloc: Global, rows: &[Shadowed]) -> Result<IndexSet<Present>, AllocError> {
    let mut hidden = IndexSet::new(alloc);
    for row in rows {
        if row.subject == row.owner {
            hidden.insert(Present {
                owner: row.owner,
                rules: row.number,
            })?;
        }
    }
    Ok(hidden)
}

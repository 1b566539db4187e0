//! A term of an entry's residual.

use pol_deriv::Number;

/// A term of the residual of an entry. The residuals of all entries are a list of these, in order,
/// each once.
#[derive(Clone, Copy, PartialEq, Eq, PartialOrd, Ord, Hash)]
pub struct EntryTerm {
    /// Counted from 0.
    pub entry: usize,
    pub term: Number,
}

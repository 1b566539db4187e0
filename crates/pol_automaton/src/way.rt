//! Which way a decision changes.

/// Which way the decision of a text changes.
#[derive(Clone, Copy, Debug, PartialEq, Eq)]
pub enum Way {
    /// It was denied, and is permitted.
    NowPermitted,
    /// It was permitted, and is denied.
    NowDenied,
}

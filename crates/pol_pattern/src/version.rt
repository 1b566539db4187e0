//! The versions of the grammar of patterns.

/// Which grammar bytes are read by.
#[derive(Clone, Copy, Debug, PartialEq, Eq)]
pub enum Version {
    /// Braces are symbols as others, and a pattern has at most 200 bytes.
    One,
    /// Braces count repeats, and a pattern has at most 400 bytes.
    Two,
}

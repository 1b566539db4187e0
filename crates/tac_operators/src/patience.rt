//! How long an operator may be silent.

use std::time::Duration;

/// How long an operator may type no line before his session ends.
#[derive(Clone, Copy, Debug, PartialEq, Eq)]
pub struct Patience {
    /// While the batch is his.
    pub holding: Duration,
    /// Else.
    pub idle: Duration,
}

impl Patience {
    /// A minute with a batch, for which others wait, and ten minutes without.
    pub fn usual() -> Patience {
        Patience {
            holding: Duration::from_secs(60),
            idle: Duration::from_secs(600),
        }
    }
}

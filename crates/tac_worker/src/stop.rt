//! Why a connection was left.

use crate::end::End;

/// Why a connection was left, and another may have its turns.
#[derive(Clone, Copy, Debug, PartialEq, Eq)]
pub enum Stop {
    /// No connection has this key.
    Absent,
    /// Its turns are used up: more may be done at once.
    Busy,
    /// More has to come first.
    Idle,
    /// The next packet has a password that is to be worked out first.
    Digest,
    /// What waits to be sent found no room.
    Full,
    /// It ended so, and all that was put on it is sent. It is to be removed.
    Ended(End),
    /// Its socket failed at a write, or took nothing, while bytes wait. It is to be removed.
    Broken,
}

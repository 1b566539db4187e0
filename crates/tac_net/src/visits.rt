//! What the sockets of a worker know of the connection that it serves now.

use std::cell::Cell;

/// How often a worker has turned to one of its connections, and whether the last reply of the one
/// that it serves now is to a login that failed.
#[derive(Drop)]
pub struct Visits {
    count: Cell<u64>,
    has_failed: Cell<bool>,
}

impl Visits {
    /// Never.
    pub fn new() -> Visits {
        Visits {
            count: Cell::new(0),
            has_failed: Cell::new(false),
        }
    }

    /// Once more, to a connection whose last reply was to a failed login, or not.
    pub fn next(&self, has_failed: bool) {
        self.count.set(self.count.get().wrapping_add(1));
        self.has_failed.set(has_failed);
    }

    /// The connection has another reply, which is to a failed login, or not.
    pub fn replied(&self, has_failed: bool) {
        self.has_failed.set(has_failed);
    }

    /// The number of this visit.
    pub(crate) fn number(&self) -> u64 {
        self.count.get()
    }

    /// Whether the last reply of the connection is to a failed login.
    pub(crate) fn has_failed(&self) -> bool {
        self.has_failed.get()
    }
}

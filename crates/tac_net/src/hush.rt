//! What is said now and then at most.

use crate::socket::now;
use std::sync::atomic::{AtomicU64, Ordering};
use std::time::Clock;

/// How long standard error isn't told the same again, in milliseconds.
pub(crate) const COMPLAINT_PAUSE: u64 = 60_000;

/// Until when something isn't said again.
#[derive(Drop)]
pub(crate) struct Hush {
    // for how long, in milliseconds
    pause: u64,
    until: AtomicU64,
}

impl Hush {
    /// That of what wasn't said yet, and is followed by such a pause, in milliseconds.
    pub(crate) fn new(pause: u64) -> Hush {
        Hush {
            pause,
            until: AtomicU64::new(0),
        }
    }

    /// Whether it may be said now. Then the pause begins.
    pub(crate) fn breaks<R: Clock>(&self, rt: &R) -> bool {
        let moment = now(rt).unwrap_or(0);
        if moment < self.until.load(Ordering::SeqCst) {
            return false;
        }
        self.until
            .store(moment.saturating_add(self.pause), Ordering::SeqCst);
        true
    }
}

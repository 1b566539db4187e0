//! What a server's threads tell one another.

use std::sync::atomic::{AtomicBool, AtomicU64, Ordering};
use std::thread::sleep;
use std::time::{Clock, Duration};

/// How long a wait for new threads pauses between two glances, in milliseconds.
const GLANCE: u64 = 1;

/// After how many glances without a new thread a wait gives up: two seconds.
const MOST_GLANCES: u32 = 2_000;

/// How many of a server's threads have begun, and whether it is stopping.
#[derive(Drop)]
pub(crate) struct Vigil {
    begun: AtomicU64,
    stops: AtomicBool,
}

impl Vigil {
    /// That of a server that begins.
    pub(crate) fn new() -> Vigil {
        Vigil {
            begun: AtomicU64::new(0),
            stops: AtomicBool::new(false),
        }
    }

    /// A worker has begun, or one that works passwords out, in a thread of its own.
    pub(crate) fn begin(&self) {
        self.begun.fetch_add(1, Ordering::SeqCst);
    }

    /// Waits until so many threads have begun. Where threads can't be made the closures of workers
    /// run one after another, so that none begins while another serves. The wait gives up after two
    /// seconds in which none begins.
    pub(crate) fn have_begun<C: Clock>(&self, clock: &C, threads: u64) -> bool {
        let mut seen = 0;
        let mut glances = 0_u32;
        'glances: for _ in 0..u64::MAX {
            let begun = self.begun.load(Ordering::SeqCst);
            if begun >= threads {
                return true;
            }
            if begun > seen {
                seen = begun;
                glances = 0;
            }
            if glances >= MOST_GLANCES {
                return false;
            }
            glances = glances.saturating_add(1);
            sleep(clock, Duration::from_millis(GLANCE));
        }
        false
    }

    /// The server is to end.
    pub(crate) fn stop(&self) {
        self.stops.store(true, Ordering::SeqCst);
    }

    /// Whether the server is to end.
    pub(crate) fn is_stopping(&self) -> bool {
        self.stops.load(Ordering::SeqCst)
    }
}

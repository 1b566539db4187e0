//! What of a server is counted.

use crate::connection_counts::ConnectionCounts;
use crate::desk_counts::DeskCounts;
use crate::request_counts::RequestCounts;
use std::sync::atomic::{AtomicU64, Ordering};

/// A number that several threads add to and read; none waits for another.
#[derive(Drop)]
pub(crate) struct Count {
    number: AtomicU64,
}

impl Count {
    pub(crate) fn new() -> Count {
        Count {
            number: AtomicU64::new(0),
        }
    }

    pub(crate) fn add(&self, more: u64) {
        self.number.fetch_add(more, Ordering::Relaxed);
    }

    pub(crate) fn take(&self, less: u64) {
        self.number.fetch_sub(less, Ordering::Relaxed);
    }

    pub(crate) fn set(&self, number: u64) {
        self.number.store(number, Ordering::Relaxed);
    }

    pub(crate) fn get(&self) -> u64 {
        self.number.load(Ordering::Relaxed)
    }
}

/// What of a server is counted, from its beginning on.
#[derive(Drop)]
pub struct Counts {
    pub connections: ConnectionCounts,
    pub requests: RequestCounts,
    pub desk: DeskCounts,
}

impl Counts {
    /// Those of a server that begins.
    pub fn new() -> Counts {
        Counts {
            connections: ConnectionCounts::new(),
            requests: RequestCounts::new(),
            desk: DeskCounts::new(),
        }
    }
}

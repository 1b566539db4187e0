//! Where whoever serves leaves complaints, and where they are taken to be written.

use crate::waiting::{Told, Waiting};
use basics::Bytes;
use std::alloc::{AllocError, Global};
use std::sync::{Condvar, Mutex, Wait};
use std::thread::sleep;
use std::time::{Clock, Duration};

/// How long a wait for the last complaint pauses between two glances, in milliseconds.
const GLANCE: u64 = 10;

/// After how many glances such a wait gives up: a second.
const MOST_GLANCES: u32 = 100;

#[derive(Drop)]
struct Pending {
    waiting: Waiting,
    is_writing: bool,
}

/// Where whoever serves leaves complaints, and one thread takes them to write them. The lock is held
/// for moments, never while something is written.
#[derive(Drop)]
pub struct Complaints {
    pending: Mutex<Pending>,
    // told when there is something to be written
    changed: Condvar,
}

impl Complaints {
    /// One with nothing to be written.
    pub fn new(alloc: Global) -> Result<Complaints, AllocError> {
        let waiting = Waiting::new(alloc)?;
        Ok(Complaints {
            pending: Mutex::new(Pending {
                waiting,
                is_writing: false,
            }),
            changed: Condvar::new(),
        })
    }

    /// Leaves a complaint; none where there was no memory for its text ([`Waiting::add`]).
    pub fn add<R: Wait>(&self, rt: &R, line: Option<Bytes>) {
        self.pending.lock(rt).waiting.add(line);
        self.changed.notify_one();
    }

    /// Waits for what is written next. What was taken before was written.
    pub(crate) fn next<R: Wait>(&self, rt: &R) -> Option<Told> {
        let mut pending = self.pending.lock(rt);
        pending.is_writing = false;
        let mut pending = self
            .changed
            .wait_while(rt, pending, |pending| pending.waiting.is_empty());
        pending.is_writing = true;
        pending.waiting.take()
    }

    // Whether all was written.
    fn is_done<R: Wait>(&self, rt: &R) -> bool {
        let pending = self.pending.lock(rt);
        pending.waiting.is_empty() && !pending.is_writing
    }

    /// Waits until all was written, for a second at most.
    pub fn settle<R: Wait + Clock>(&self, rt: &R) {
        for _ in 0..MOST_GLANCES {
            if self.is_done(rt) {
                return;
            }
            sleep(rt, Duration::from_millis(GLANCE));
        }
    }
}

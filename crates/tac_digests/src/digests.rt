//! What threads share that need passwords worked out, and that work them out.

use crate::backlog::Backlog;
use crate::job::{Done, Job};
use std::alloc::{AllocError, Global};
use std::sync::{Condvar, Mutex, Wait};

#[derive(Drop)]
struct Passwords {
    backlog: Backlog,
    is_over: bool,
}

/// What threads share of which some need passwords worked out, and others work them out. All of
/// these wait here for moments alone, but for those that work out: they wait for the next password.
#[derive(Drop)]
pub struct Digests {
    passwords: Mutex<Passwords>,
    // told when there is one more to be worked out, and at the end
    changed: Condvar,
}

impl Digests {
    /// One with nothing to be worked out yet.
    pub fn new(alloc: Global) -> Result<Digests, AllocError> {
        let backlog = Backlog::new(alloc)?;
        Ok(Digests {
            passwords: Mutex::new(Passwords {
                backlog,
                is_over: false,
            }),
            changed: Condvar::new(),
        })
    }

    /// Has a password worked out. The answer is false where as many are on their way as may be.
    pub fn add<R: Wait>(&self, rt: &R, job: Job) -> bool {
        let is_added = self.passwords.lock(rt).backlog.add(job);
        self.changed.notify_one();
        is_added
    }

    /// Waits for the next one to be worked out. There is none after the end.
    pub fn next<R: Wait>(&self, rt: &R) -> Option<Job> {
        let passwords = self.passwords.lock(rt);
        let mut passwords = self.changed.wait_while(rt, passwords, |passwords| {
            !passwords.is_over && passwords.backlog.is_idle()
        });
        if passwords.is_over {
            return None;
        }
        passwords.backlog.take()
    }

    /// One was worked out.
    pub fn finish<R: Wait>(&self, rt: &R, done: Done) {
        self.passwords.lock(rt).backlog.finish(done);
    }

    /// One that was worked out for this worker.
    pub fn collect<R: Wait>(&self, rt: &R, worker: usize) -> Option<Done> {
        self.passwords.lock(rt).backlog.collect(worker)
    }

    /// Nothing is worked out any more, and nobody waits here.
    pub fn end<R: Wait>(&self, rt: &R) {
        self.passwords.lock(rt).is_over = true;
        self.changed.notify_all();
    }
}

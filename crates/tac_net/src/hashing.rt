//! Passwords that are worked out in threads of their own, so that no worker and no desk waits.

use crate::hush::{COMPLAINT_PAUSE, Hush};
use crate::intake::Intake;
use crate::vigil::Vigil;
use std::alloc::{AllocError, Global};
use std::sync::Wait;
use std::thread::{Threads, map_vec};
use std::time::Clock;
use tac_digests::{Digests, Done, Job, MOST_DIGESTS};

/// The passwords that a server works out.
pub(crate) struct Hashing {
    digests: Digests,
    // until when nothing is said of logins that find no room
    hush: Hush,
}

// By hand, so that a proof of an owner has one call at each exit, not a drop of each field.
impl Drop for Hashing {
    fn drop(self) {
        let Hashing {
            digests: _,
            hush: _,
        } = self;
    }
}

impl Hashing {
    /// That of a server that begins.
    pub(crate) fn new(alloc: Global) -> Result<Hashing, AllocError> {
        Ok(Hashing {
            digests: Digests::new(alloc)?,
            hush: Hush::new(COMPLAINT_PAUSE),
        })
    }

    // Says that a login found no room, once a minute at most.
    fn complain<R: Clock + Eprint>(&self, rt: &R) {
        if self.hush.breaks(rt) {
            let _ = eprintln!(rt;
                "tacd: {MOST_DIGESTS} passwords wait to be compared with hashes; the connections \
                 of further logins are closed"
            );
        }
    }

    /// Has a password worked out. Where too many wait for that, the answer is false, and standard
    /// error says so.
    pub(crate) fn add<R: Wait + Clock + Eprint>(&self, rt: &R, job: Job) -> bool {
        if self.digests.add(rt, job) {
            return true;
        }
        self.complain(rt);
        false
    }

    /// A password that was worked out for this worker.
    pub(crate) fn collect<R: Wait>(&self, rt: &R, worker: usize) -> Option<Done> {
        self.digests.collect(rt, worker)
    }

    /// No password is worked out any more.
    pub(crate) fn end<R: Wait>(&self, rt: &R) {
        self.digests.end(rt);
    }

    // Works passwords out, one after another, until the end, and wakes who waits for them.
    fn work<R: Wait>(&self, rt: &R, intake: &Intake) {
        'jobs: for _ in rt.forever() {
            let Some(job) = self.digests.next(rt) else {
                return;
            };
            let done = job.done();
            let worker = done.ticket.worker;
            self.digests.finish(rt, done);
            intake.wake(worker);
        }
    }
}

/// Works passwords out until the end, in so many threads.
pub(crate) fn work_passwords_out<R: Threads + Wait + Sync + AllocGlobal>(
    rt: &R,
    hashing: &Hashing,
    intake: &Intake,
    vigil: &Vigil,
    threads: u32,
) {
    let work = |_: u32| {
        vigil.begin();
        hashing.work(rt, intake);
    };
    let mut numbers = Vec::new(rt.alloc());
    'threads: for number in 0..threads {
        if let Err(_) = numbers.push(number) {
            return;
        }
    }
    let _ = map_vec(rt, numbers, &work);
}

//! Passwords on their way, no more than there may be.

ghost use Rattle.std.specs.Prelude.{◌≡◌, ◌==◌, nat_lt, length, IfOk};
ghost use Rattle.tac_digests.specs.Backlog as on_their_way;

use crate::job::{Done, Job};
use std::alloc::{AllocError, Global};
use std::collections::VecDeque;
use std::marker::Model;

/// How many passwords may be on their way: those that wait, those that are worked out just now,
/// and those that were and weren't collected yet.
pub const MOST_DIGESTS: usize = 256;

/// Passwords on their way, in the order in which they came. It takes its memory when it is made.
#[derive(Drop)]
pub struct Backlog {
    waiting: VecDeque<Job>,
    at_work: usize,
    done: VecDeque<Done>,
}

impl Model for Backlog {
    ghost use Rattle.std.specs.Prelude.{◌≤◌, length};
    ghost use Rattle.std.specs.VecDeque.{deque_capacity};
    ghost use Rattle.tac_digests.specs.Backlog.{OnTheirWay, count};

    ghost Value = { OnTheirWay };

    ghost view = { λ log. record {
      waiting = log.waiting.items;
      at_work = log.at_work;
      done = log.done.items;
    } };

    ghost invariant = { λ log. (count (record {
      waiting = log.waiting.items;
      at_work = log.at_work;
      done = log.done.items;
    }) ≤ 256) × (256 ≤ deque_capacity log.waiting) × (256 ≤ deque_capacity log.done) };
}

// Where the first of these stands that was worked out for this worker.
fn first_for(all: &VecDeque<Done>, worker: usize) -> Option<usize>
    ensures { result ≡ on_their_way.first_for worker all.now.items }
{
    all.iter().position(|done| done.ticket.worker == worker)
}

impl Backlog {
    /// One with no password in it.
    pub fn new(alloc: Global) -> Result<Backlog, AllocError>
        ensures { IfOk result (λ log. log ≡ on_their_way.none) }
    {
        let waiting = VecDeque::with_capacity(alloc, MOST_DIGESTS)?;
        let done = VecDeque::with_capacity(alloc, MOST_DIGESTS)?;
        Ok(Backlog {
            waiting,
            at_work: 0,
            done,
        })
    }

    /// How many are on their way.
    pub fn len(&self) -> usize
        ensures { result ≡ on_their_way.count self.now }
    {
        self.waiting.len() + self.at_work + self.done.len()
    }

    /// Whether none waits to be worked out.
    pub fn is_idle(&self) -> bool
        ensures { result ≡ (length self.now.waiting == 0) }
    {
        self.waiting.is_empty()
    }

    /// Adds one. The answer is false where there are as many as there may be; it is gone then.
    pub fn add(&mut self, job: Job) -> bool
        ensures room { result ≡ nat_lt (on_their_way.count self.old) MOST_DIGESTS }
        ensures after { self.new ≡ on_their_way.added job self.old }
    {
        if self.len() >= MOST_DIGESTS {
            return false;
        }
        self.waiting.push_back_reserved(job);
        true
    }

    /// The one that waits longest, which is worked out from now on.
    pub fn take(&mut self) -> Option<Job>
        ensures { on_their_way.Takes result self.old self.new }
    {
        let job = self.waiting.pop_front()?;
        self.at_work += 1;
        Some(job)
    }

    /// One that was worked out, which waits to be collected. Where none was taken to be worked out,
    /// nothing changes.
    pub fn finish(&mut self, done: Done)
        ensures { self.new ≡ on_their_way.finished done self.old }
    {
        let Some(at_work) = self.at_work.checked_sub(1) else {
            return;
        };
        self.at_work = at_work;
        self.done.push_back_reserved(done);
    }

    /// The first that was worked out for this worker. Linear in those that were.
    pub fn collect(&mut self, worker: usize) -> Option<Done>
        ensures { on_their_way.Collects worker result self.old self.new }
    {
        let Some(at) = first_for(&self.done, worker) else {
            return None;
        };
        self.done.remove(at)
    }
}

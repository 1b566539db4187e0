//! Taking a lock that is held for moments.
#![tactic(auto)]

use std::hint::spin_loop;
use std::sync::{Mutex, MutexGuard, Wait};

// How often a thread tries to take the lock before it sleeps until it may, some 20 microseconds
// long; who holds such a lock mostly has it for one or two.
const TRIES: u32 = 400;

/// Takes the lock. A thread that sleeps lets its processor go, which costs it and its client more
/// than most waits take, so it tries for a while first.
pub fn take<'a, T, R: Wait>(rt: &R, lock: &'a Mutex<T>) -> MutexGuard<'a, T> {
    for _ in 0..TRIES {
        if let Some(guard) = lock.try_lock() {
            return guard;
        }
        spin_loop();
    }
    lock.lock(rt)
}

//! A FIFO at the place of a socket, as servers had one for their console before.

use crate::console_socket::ConsoleHost;
use std::fs::File;
use std::io;
use std::sync::atomic::{AtomicU64, Ordering};
use std::thread::{Threads, join_mut, sleep};
use std::time::{Clock, Duration};

/// How long is waited for whoever may read a FIFO, in milliseconds.
const WAIT: u64 = 250;

// How far the wait for a reader is.
const UNASKED: u64 = 0;

const ASKED: u64 = 1;

const HAS_READER: u64 = 2;

/// Whether nobody reads the FIFO at a path, which is found out in a quarter of a second. Without a
/// thread it isn't, and somebody may. The error is the system's, where it can't be opened.
pub(crate) fn is_unread<R>(rt: &R, path: &str) -> io::Result<bool>
where
    R: ConsoleHost + Threads + Clock + Sync,
{
    rt.open_fifo(path)?;
    let state = AtomicU64::new(UNASKED);
    let state = &state;
    let mut waiting = || -> (u64, io::Result<File>) {
        sleep(rt, Duration::from_millis(WAIT));
        // this file is a reader, so that the other thread ends
        (state.load(Ordering::SeqCst), rt.open_fifo(path))
    };
    let mut asking = || {
        state.store(ASKED, Ordering::SeqCst);
        if rt.await_reader(path).is_ok() {
            state.store(HAS_READER, Ordering::SeqCst);
        }
    };
    let ((found, reader), ()) = join_mut(rt, &mut waiting, &mut asking);
    reader?;
    Ok(found == ASKED)
}

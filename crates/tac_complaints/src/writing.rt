//! The thread that writes complaints.

use crate::complaints::Complaints;
use std::alloc::Global;
use std::io;
use std::sync::{Arc, Wait};
use std::thread::{Builder, Threads};

// Writes what comes, one complaint after another. It doesn't matter whether one could be written.
fn write_all<R: Wait + Eprint>(rt: &R, complaints: &Complaints) {
    for _ in rt.forever() {
        if let Some(told) = complaints.next(rt) {
            let _ = rt.eprint(told);
        }
    }
}

/// Begins a thread that writes to standard error what is left here, in the order in which it comes,
/// until the process ends. Nobody joins it, since it may be in a write that nobody reads. The error
/// says that no thread could be made.
pub fn begin_writing<R>(rt: &R, complaints: Arc<Complaints, Global>) -> io::Result<()>
where
    R: Threads + Wait + Eprint + Copy + Send + Drop + 'static,
{
    let writer = *rt;
    Builder::new().spawn(rt, move || write_all(&writer, &complaints))?;
    Ok(())
}

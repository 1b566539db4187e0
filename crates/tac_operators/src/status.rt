//! How the server is, as operators are told.

use basics::Bytes;
use std::alloc::{AllocError, Global};

/// Who tells operators how the server is. It is asked in the thread of an operator's session, by
/// many of them at once, and so waits for nobody: neither for the console nor for devices.
pub trait Status {
    /// What the line `status` is answered while so many operators are there: lines, of which none
    /// is empty. The error means that memory ran out.
    fn text(&self, alloc: Global, operators: u64) -> Result<Bytes, AllocError>;
}

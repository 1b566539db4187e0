//! The memory for packets that aren't answered yet.

ghost use Rattle.std.specs.Prelude.{◌≡◌, ◌≤◌, ◌+◌, false, not, ◌||◌, IsTrue};
ghost use Rattle.tac_net.specs.Shares as shares;

use std::sync::atomic::{AtomicU64, Ordering};

/// How many bytes a connection holds without a part of the packet memory.
pub const FREE: u64 = 4_096;

/// How many bytes all connections together hold of packets that aren't answered yet, beside the
/// first 4,096 of each, and how many these may be.
#[derive(Drop)]
pub struct PacketMemory {
    most: u64,
    taken: AtomicU64,
}

impl PacketMemory {
    /// So many bytes, of which none is taken.
    pub fn new(most: u64) -> PacketMemory {
        PacketMemory {
            most,
            taken: AtomicU64::new(0),
        }
    }

    // Takes so many bytes, or none where so many aren't left.
    fn take(&self, bytes: u64) -> bool {
        let taken = self.taken.fetch_add(bytes, Ordering::SeqCst);
        if fits(taken, bytes, self.most) {
            return true;
        }
        self.give_back(bytes);
        false
    }

    fn give_back(&self, bytes: u64) {
        self.taken.fetch_sub(bytes, Ordering::SeqCst);
    }
}

// Whether so many bytes fit beside those that are taken, where there may be so many.
fn fits(taken: u64, bytes: u64, most: u64) -> bool
    ensures { result ≡ shares.fits taken bytes most }
{
    taken <= most && bytes <= most - taken
}

// How many of so many bytes are taken from the packet memory.
fn beyond_free(held: u64) -> u64
    ensures { result ≡ shares.counted held }
{
    held.saturating_sub(FREE)
}

/// What one connection holds of packets that aren't answered yet. Dropped, it holds nothing.
pub struct PacketShare<'a> {
    memory: &'a PacketMemory,
    held: u64,
    // whether there was once no memory for more
    lacks: bool,
}

impl<'a> PacketShare<'a> {
    /// Nothing.
    pub fn new(memory: &'a PacketMemory) -> PacketShare<'a>
        ensures held { result.held ≡ 0 }
        ensures lacks { result.lacks ≡ false }
    {
        PacketShare {
            memory,
            held: 0,
            lacks: false,
        }
    }

    /// So many bytes more. The answer is whether there was memory for them; else it stays as it is.
    pub fn grow(&mut self, bytes: usize) -> bool
        ensures held { self.new.held ≡ shares.grown result self.old.held bytes }
        ensures lacks { self.new.lacks ≡ (self.old.lacks || not result) }
        ensures free { self.old.held + bytes ≤ 4096 → IsTrue result }
    {
        let held = self.held.saturating_add(bytes as u64);
        let more = beyond_free(held).saturating_sub(beyond_free(self.held));
        if more > 0 && !self.memory.take(more) {
            self.lacks = true;
            return false;
        }
        self.held = held;
        true
    }

    /// Whether there was once no memory for more.
    pub fn lacks(&self) -> bool
        ensures { result ≡ self.now.lacks }
    {
        self.lacks
    }

    /// Nothing any more.
    pub fn clear(&mut self)
        ensures { self.new ≡ record self.old { held = 0 } }
    {
        let taken = beyond_free(self.held);
        if taken > 0 {
            self.memory.give_back(taken);
        }
        self.held = 0;
    }
}

impl Drop for PacketShare<'_> {
    fn drop(self) {
        let PacketShare {
            memory,
            held,
            lacks: _,
        } = self;
        let taken = beyond_free(held);
        if taken > 0 {
            memory.give_back(taken);
        }
    }
}

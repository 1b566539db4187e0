//! What is known of a connection in proofs alone.

ghost use Rattle.std.specs.Prelude.{◌≡◌, ◌++◌, ◌∷◌, [], take};

use crate::hearing::Chunk;
use crate::queue::Queue;
use http_server::Log;
use std::marker::Model;
use std::snapshot::Snapshot;
use tac_conn::{Answer, Ask};

/// The asks that were called, each with its answer. It has no bytes.
#[derive(Drop)]
pub(crate) struct Called {
    calls: Log<Snapshot<Ask>, Answer>,
}

impl Model for Called {
    ghost use Rattle.std.specs.Prelude.{List, map};
    ghost use Rattle.tac_conn.specs.declared.ask.Answer.{Answer};
    ghost use Rattle.tac_conn.specs.declared.ask.Ask.{Ask};

    ghost Value = { List (Ask × Answer) };

    ghost view = { λ called. map (λ call. (call.0.value, call.1)) called.calls.items };
}

impl Called {
    /// Nothing was called.
    pub(crate) fn new() -> Called
        ensures { result ≡ [] }
    {
        Called { calls: Log::new() }
    }

    /// One more ask was called.
    pub(crate) fn add(&mut self, ask: &Snapshot<Ask>, answer: &Answer)
        ensures { self.new ≡ self.old ++ (ask.now.value, answer.now) ∷ [] }
    {
        self.calls = self.calls.and(ask, answer);
    }
}

/// The bytes that reads gave. It has none of its own.
#[derive(Drop)]
pub(crate) struct Pieces {
    reads: Log<Chunk, usize>,
}

impl Model for Pieces {
    ghost use Rattle.std.specs.Prelude.{ℕ, List, flat_map, take};

    ghost Value = { List ℕ };

    ghost view = { λ pieces. flat_map (λ read. take read.1 read.0) pieces.reads.items };
}

impl Pieces {
    /// Nothing was read.
    pub(crate) fn new() -> Pieces
        ensures { result ≡ [] }
    {
        Pieces { reads: Log::new() }
    }

    /// A read gave the first bytes of this chunk, so many.
    pub(crate) fn add(&mut self, chunk: &Chunk, n: usize)
        ensures { self.new ≡ self.old ++ take n chunk.now }
    {
        self.reads = self.reads.and(chunk, &n);
    }
}

/// The bytes that were sent. It has none of its own.
#[derive(Drop)]
pub(crate) struct Sent {
    writes: Log<Queue, usize>,
}

impl Model for Sent {
    ghost use Rattle.std.specs.Prelude.{ℕ, List, flat_map, take};

    ghost Value = { List ℕ };

    ghost view = { λ sent. flat_map (λ write. take write.1 write.0) sent.writes.items };
}

impl Sent {
    /// Nothing was sent.
    pub(crate) fn new() -> Sent
        ensures { result ≡ [] }
    {
        Sent { writes: Log::new() }
    }

    /// The first bytes of those that wait in this queue were sent, so many.
    pub(crate) fn add(&mut self, queue: &Queue, n: usize)
        ensures { self.new ≡ self.old ++ take n queue.now }
    {
        self.writes = self.writes.and(queue, &n);
    }
}

//! A list that only proofs read.

ghost use Rattle.std.specs.Prelude.{◌≡◌, ◌++◌, ◌∷◌, []};

use http_server::Log;
use std::marker::Model;

/// A list that only proofs read. It has no bytes.
#[derive(Drop)]
pub(crate) struct Trace<T> {
    log: Log<T, ()>,
}

impl<T> Model for Trace<T> {
    ghost use Rattle.std.specs.Prelude.{List, map};

    ghost Value = { List T };

    ghost view = { λ trace. map (λ pair. pair.0) trace.log.items };
}

impl<T> Trace<T> {
    /// An empty one.
    pub(crate) fn new() -> Trace<T>
        ensures { result ≡ [] }
    {
        Trace { log: Log::new() }
    }

    /// One more.
    pub(crate) fn add(&mut self, item: &T)
        ensures { self.new ≡ self.old ++ item.now ∷ [] }
    {
        self.log = self.log.and(item, &());
    }
}

//! Rules while they are put in order.

ghost use Rattle.std.specs.Prelude.{◌≤◌, ◌<◌, IfSome};
ghost use Rattle.std.specs.Vec.{vec_len};

use std::alloc::{AllocError, Global};

/// The rules of a subject while they are put in order: which of those that there were at first
/// stands where, and where the next one goes.
#[derive(Drop)]
pub(crate) struct Row {
    order: Vec<Option<usize>>,
    next: usize,
    ghost within: { next ≤ vec_len order },
}

impl Row {
    /// So many rules, none of which is in its place yet.
    pub(crate) fn new(alloc: Global, count: usize) -> Result<Row, AllocError> {
        let order = (0..count).map(Some).collect(alloc)?;
        Ok(Row { order, next: 0 })
    }

    // Where the rule stands.
    fn place_of(&self, rule: usize) -> Option<usize>
        ensures { IfSome result (λ at. at < vec_len self.now.order) }
    {
        self.order.iter().position(|present| *present == Some(rule))
    }

    /// The rule stays where it is, and the next one goes after it.
    pub(crate) fn pass(&mut self, rule: usize) {
        if let Some(at) = self.place_of(rule) {
            self.next = at + 1;
        }
    }

    /// The rule goes where the next one goes: where it stood, and where it stands then.
    pub(crate) fn shift(&mut self, rule: usize) -> Option<(usize, usize)> {
        let from = self.place_of(rule)?;
        let to = if from < self.next {
            self.next - 1
        } else {
            self.next
        };
        let moved = self.order.remove(from);
        let _ = self.order.insert(to, moved);
        self.next = to + 1;
        Some((from, to))
    }

    /// A new rule goes where the next one goes, which is answered.
    pub(crate) fn insert(&mut self) -> Result<usize, AllocError> {
        let at = self.next;
        self.order.insert(at, None)?;
        self.next = at + 1;
        Ok(at)
    }
}

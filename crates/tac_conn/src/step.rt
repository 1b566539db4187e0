//! What is done for a packet.

use crate::ask::{Ask, Slot};
use crate::reply::Reply;

/// What is done for a packet.
#[derive(Drop)]
pub enum Step {
    /// A reply is sent, and the connection closes (true) or stays open.
    Reply(Reply, bool),
    /// The desk is asked, and its answer belongs into this slot.
    Asks(Ask, Slot),
    /// Nothing is sent, and the connection stays open.
    Silent,
    /// Nothing is sent, and the connection closes.
    Close,
}

impl Step {
    ghost use Rattle.std.specs.Prelude.{◌≡◌};
    ghost use Rattle.tac_conn.specs.Standing.{step_closes, slot_in};

    /// Whether the connection closes, at once or with the answer.
    pub(crate) fn closes(&self) -> bool
        ensures { result ≡ step_closes self.now }
    {
        match self {
            Step::Reply(_, closes) => *closes,
            Step::Asks(_, slot) => !slot.single,
            Step::Silent => false,
            Step::Close => true,
        }
    }

    /// The slot that waits for its answer.
    pub(crate) fn slot(&self) -> Option<Slot>
        ensures { result ≡ slot_in self.now }
    {
        match self {
            Step::Asks(_, slot) => Some(*slot),
            _ => None,
        }
    }
}

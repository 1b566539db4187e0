//! What is to be done next on a connection.

ghost use Rattle.std.specs.Prelude.{◌≡◌};
ghost use Rattle.tac_stream.specs.Turns as turns;

use tac_conn::{Received, Step};
use tac_wire::Header;

/// What is to be done next on a connection.
#[derive(Drop)]
pub enum Turn {
    /// A packet was taken, which was read so, and this is done for it.
    Packet(Received, Step),
    /// All whole packets were taken: more bytes have to come first.
    Need,
    /// This header is refused. Nothing is sent, and the connection closes.
    Refused(Header),
    /// The connection is closed, or an answer is still waited for, and it closes.
    Close,
}

impl Turn {
    /// Whether the connection closes at once; an ask may close it with its answer.
    pub fn closes(&self) -> bool
        ensures { result ≡ turns.turn_closes self.now }
    {
        match self {
            Turn::Packet(_, Step::Reply(_, closes)) => *closes,
            Turn::Packet(_, Step::Close) | Turn::Refused(_) | Turn::Close => true,
            _ => false,
        }
    }
}

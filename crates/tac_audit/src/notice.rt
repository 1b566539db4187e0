//! What a witness of a connection is told, and one of a console.

use basics::Bytes;
use tac_conn::{Reading, Received, Reply};
use tac_wire::Header;

/// What a witness of a connection is told.
#[derive(Drop)]
pub enum Notice {
    /// A packet that came, as it was read, and its reply, if it has one.
    Packet(Received, Option<Reply>),
    /// A header that is refused. Nothing is read after it.
    BadHeader(Header),
}

impl Notice {
    ghost use Rattle.std.specs.Prelude.{◌≡◌, None, IsTrue};
    ghost use Rattle.tac_audit.specs.Noted.{noted_of};

    /// Whether it is of a packet whose login goes on, of which nothing is noted.
    pub fn goes_on(&self) -> bool
        ensures { IsTrue result → noted_of self.now ≡ None }
    {
        match self {
            Notice::Packet(received, _) => matches!(received.reading, Reading::GoesOn),
            Notice::BadHeader(_) => false,
        }
    }
}

/// What a witness of a console is told: a line that was typed, without its LF, and its answer.
#[derive(Drop)]
pub struct Typing {
    pub line: Bytes,
    pub answer: Bytes,
}

//! The outcome of a packet.

ghost use Rattle.std.specs.Prelude.{◌≡◌, ◌<◌};
ghost use Rattle.tac_conn.specs.Judging as judging;
ghost use Rattle.tac_conn.specs.declared.reading.Reading.TheVariants.{BadBody};

use crate::ask::{Ask, AskKind, Slot};
use crate::reading::Reading;
use crate::reply::{Reply, ReplyBody, bad_body};
use crate::session::Session;
use crate::step::Step;
use tac_wire::Header;

/// The outcome of a packet. Contracts speak of it; no public call takes or gives one.
#[derive(Drop)]
pub enum Outcome {
    /// A reply that asks the client for more, and its session, which is open from then on.
    Question(Reply, Session),
    /// The session's last reply, and whether the connection closes.
    Reply(Reply, bool),
    /// The desk is asked; its answer is the session's last reply.
    Asks(Ask, Slot),
    /// Nothing is sent, and the connection stays open.
    Silent,
    /// Nothing is sent, and the connection closes.
    Close,
}

impl Outcome {
    ghost use Rattle.std.specs.Prelude.{◌≡◌};
    ghost use Rattle.tac_conn.specs.Standing.{step_of, session_left};

    /// What is done, and the packet's session, if that is open from then on.
    pub(crate) fn into_step(self) -> (Step, Option<Session>)
        ensures step { result.0 ≡ step_of self }
        ensures session { result.1 ≡ session_left self }
    {
        match self {
            Outcome::Question(reply, session) => (Step::Reply(reply, false), Some(session)),
            Outcome::Reply(reply, closes) => (Step::Reply(reply, closes), None),
            Outcome::Asks(ask, slot) => (Step::Asks(ask, slot), None),
            Outcome::Silent => (Step::Silent, None),
            Outcome::Close => (Step::Close, None),
        }
    }
}

/// The place of the reply to a packet of this kind.
pub(crate) fn slot_for(header: &Header, kind: AskKind, single: bool) -> Slot
    requires { header.now.seq < 255 }
    ensures { result ≡ judging.slot_for header.now kind single }
{
    let flags = if single { Header::SINGLE_CONNECTION } else { 0 };
    Slot {
        header: Header {
            seq: header.seq + 1,
            flags,
            length: 0,
            ..*header
        },
        kind,
        single,
    }
}

/// The reply with this body.
pub(crate) fn reply_in(slot: Slot, body: ReplyBody) -> Reply
    ensures { result ≡ judging.reply_in slot body }
{
    Reply {
        header: slot.header,
        body,
    }
}

/// The session's last reply, which closes a connection that isn't single.
pub(crate) fn ends(slot: Slot, body: ReplyBody) -> Outcome
    ensures { result ≡ judging.ends slot body }
{
    Outcome::Reply(reply_in(slot, body), !slot.single)
}

/// An invalid body, and its answer, which closes the connection.
pub(crate) fn breaks(slot: Slot) -> (Reading, Outcome)
    ensures { result ≡ (BadBody, judging.breaks slot) }
{
    let outcome = Outcome::Reply(reply_in(slot, bad_body(slot.kind)), true);
    (Reading::BadBody, outcome)
}

/// The answer to a type that isn't served: the header again, with the next seq_no and no body.
pub(crate) fn unserved(header: &Header) -> Outcome
    requires { header.now.seq < 255 }
    ensures { result ≡ judging.unserved header.now }
{
    let header = Header {
        seq: header.seq + 1,
        length: 0,
        ..*header
    };
    let body = ReplyBody::Empty;
    Outcome::Reply(Reply { header, body }, true)
}

//! What a packet was read as. No type here has room for a password, a challenge or a response.

ghost use Rattle.std.specs.Prelude.{◌≡◌, IfOk};
ghost use Rattle.tac_conn.specs.Asker.{named, start_asker};
ghost use Rattle.tac_conn.specs.Reading.{logged_in, commanded, served, accounted};

use crate::ask::Ask;
use basics::{Bytes, Sequence};
use std::alloc::{AllocError, Global};
use tac_authen::Start;
use tac_request::AcctKind;

/// Who asks, and from where: what a packet says of itself.
#[derive(Debug, Drop)]
pub struct Asker {
    pub user: Bytes,
    pub port: Bytes,
    /// The field rem_addr.
    pub from: Bytes,
    /// The field priv_lvl.
    pub privilege: u8,
    /// The field authen_service.
    pub service: u8,
}

impl Asker {
    /// An equal one. The error means that memory ran out.
    pub(crate) fn copy(&self, alloc: Global) -> Result<Asker, AllocError>
        ensures { IfOk result (λ copy. copy ≡ self.now) }
    {
        Ok(Asker {
            user: self.user.copy(alloc)?,
            port: self.port.copy(alloc)?,
            from: self.from.copy(alloc)?,
            privilege: self.privilege,
            service: self.service,
        })
    }

    /// The same under this name.
    pub(crate) fn named(self, user: Bytes) -> Asker
        ensures { result ≡ named self user }
    {
        Asker {
            user,
            port: self.port,
            from: self.from,
            privilege: self.privilege,
            service: self.service,
        }
    }
}

impl Asker {
    ghost use Rattle.std.specs.Prelude.{◌≡◌};
    ghost use Rattle.tac_conn.specs.Asker.{unnamed};

    /// The same without the name, and the name.
    pub(crate) fn parted(self, alloc: Global) -> (Asker, Bytes)
        ensures { result ≡ (unnamed self, self.user) }
    {
        let asker = Asker {
            user: Bytes::new(alloc),
            port: self.port,
            from: self.from,
            privilege: self.privilege,
            service: self.service,
        };
        (asker, self.user)
    }
}

/// Who logs in, and what the START has as its data.
pub(crate) fn asker_of(start: Start) -> (Asker, Bytes)
    ensures asker { result.0 ≡ start_asker start }
    ensures extra { result.1 ≡ start.extra }
{
    let asker = Asker {
        user: start.user,
        port: start.port,
        from: start.rem_addr,
        privilege: start.priv_lvl,
        service: start.service.0,
    };
    (asker, start.extra)
}

/// What a packet was read as (RFC 8907, sections 5 to 7). A body is read once: what is told of the
/// packet, and as what it counts, is by this.
#[derive(Debug, Drop)]
pub enum Reading {
    /// A START, or a CONTINUE, that is answered by a question: its login goes on.
    GoesOn,
    /// A START, or a CONTINUE, that is its login's last.
    Login(Asker),
    /// A REQUEST of authorization. The line is None where the arguments make none.
    Command {
        asker: Asker,
        arguments: Sequence<Bytes>,
        line: Option<Bytes>,
    },
    /// A REQUEST of accounting. The kind is None where the flags mean none.
    Account {
        asker: Asker,
        kind: Option<AcctKind>,
        task: Bytes,
        arguments: Sequence<Bytes>,
    },
    /// Its body is invalid for its type, as under another key.
    BadBody,
    /// Its type isn't one of the three that are served.
    Unserved,
    /// It doesn't come in its turn: its body isn't read.
    OutOfTurn,
    /// A CONTINUE by which the client gives its login up.
    Aborted,
}

// A login under this name; anything else as it is.
pub(crate) fn login_of(reading: Reading, user: Bytes) -> Reading
    ensures { result ≡ logged_in user reading }
{
    match reading {
        Reading::Login(asker) => Reading::Login(asker.named(user)),
        _ => reading,
    }
}

// A command under this name, with this line; anything else as it is.
pub(crate) fn command_of(reading: Reading, user: Bytes, told: Bytes) -> Reading
    ensures { result ≡ commanded user told reading }
{
    match reading {
        Reading::Command {
            asker,
            arguments,
            line: _,
        } => Reading::Command {
            asker: asker.named(user),
            arguments,
            line: Some(told),
        },
        _ => reading,
    }
}

// Another service under this name; anything else as it is.
pub(crate) fn service_of(reading: Reading, user: Bytes) -> Reading
    ensures { result ≡ served user reading }
{
    match reading {
        Reading::Command {
            asker,
            arguments,
            line,
        } => Reading::Command {
            asker: asker.named(user),
            arguments,
            line,
        },
        _ => reading,
    }
}

// A record under this name, of this task; anything else as it is.
pub(crate) fn account_of(reading: Reading, user: Bytes, told: Bytes) -> Reading
    ensures { result ≡ accounted user told reading }
{
    match reading {
        Reading::Account {
            asker,
            kind,
            task: _,
            arguments,
        } => Reading::Account {
            asker: asker.named(user),
            kind,
            task: told,
            arguments,
        },
        _ => reading,
    }
}

/// A packet that was taken: its session, and what it was read as.
#[derive(Debug, Drop)]
pub struct Received {
    pub session: u32,
    pub reading: Reading,
}

impl Received {
    ghost use Rattle.std.specs.Prelude.{◌≡◌, List};
    ghost use Rattle.tac_conn.specs.Received.{with_ask, IsWholeWith};
    ghost use Rattle.tac_conn.specs.declared.ask.Ask.{Ask as AskValue};
    ghost use Rattle.tac_conn.specs.declared.ask.Slot.{Slot as SlotValue};
    ghost use Rattle.tac_conn.specs.declared.packet.Packet.{Packet as PacketValue};

    /// With what its ask has, once that was called.
    #[tactic(auto, using(crate::proofs::ReadingFacts::is_whole_with))]
    pub fn with_ask(self, ask: Ask) -> Received
        ensures with_ask { result ≡ with_ask ask self }
        // With its own ask it is all that the packet was read as.
        ensures whole { (asked : AskValue) (slot : SlotValue) (earlier : List PacketValue)
            (packet : PacketValue) → IsWholeWith asked slot earlier packet }
    {
        Received {
            session: self.session,
            reading: ask.rejoined(self.reading),
        }
    }
}

//! What is told of a reply, of a line at the console, and of connections that were refused. No type
//! here has room for a password, a challenge or a response.

ghost use Rattle.std.specs.Prelude.{◌≡◌, IfOk};

use basics::{Bytes, Sequence};
use pol_names::Name;
use std::alloc::{AllocError, Global};
use tac_proxy::CommonName;

/// The status of a last reply (RFC 8907, sections 5.2, 6.2 and 7.2).
#[derive(Clone, Copy, Debug, PartialEq, Eq)]
pub enum Status {
    Pass,
    Fail,
    PassAdd,
    Success,
    Error,
}

/// What a last reply says. The text of a denial names the rule that denied.
#[derive(Debug, Drop)]
pub struct Said {
    pub status: Status,
    /// The field server_msg.
    pub text: Bytes,
    /// The arguments, in their order. Only a reply of authorisation has some.
    pub given: Sequence<Bytes>,
}

/// Why a packet is refused as it stands.
#[derive(Clone, Copy, Debug, PartialEq, Eq)]
pub enum Why {
    /// Its body is invalid for its type, as under another key.
    BadBody,
    /// Its type isn't one of the three that are served.
    UnservedType,
    /// It doesn't come in its turn, and the connection closes without a reply.
    OutOfTurn,
    /// The client gave a login up.
    Aborted,
    /// Its header is refused, and nothing is read after it.
    BadHeader,
}

/// How a device came.
#[derive(Clone, Copy, Debug)]
pub enum CameBy {
    /// By its key.
    Key,
    /// By its old key.
    OldKey,
    /// Inside TLS, by a proxy, with a certificate of this name, if the proxy told one.
    Tls(Option<CommonName>),
}

/// A device of a devices' file, as it came.
#[derive(Clone, Copy, Debug)]
pub struct Named {
    pub name: Name,
    pub came_by: CameBy,
}

/// Where a line comes from: the address of a device, and which one of a devices' file that is.
#[derive(Debug, Drop)]
pub struct Origin {
    /// The address and the port.
    pub device: Bytes,
    /// None where no devices are listed, or none of them has the address.
    pub named: Option<Named>,
}

impl Origin {
    /// An equal one. The error means that memory ran out.
    pub fn copy(&self, alloc: Global) -> Result<Origin, AllocError>
        ensures { IfOk result (λ copy. copy ≡ self.now) }
    {
        Ok(Origin {
            device: self.device.copy(alloc)?,
            named: self.named,
        })
    }
}

/// Why a connection is refused: it is closed before a packet of it is read.
#[derive(Clone, Copy, Debug, PartialEq, Eq)]
pub enum WhyTurnedAway {
    /// No device that may call is at its address.
    UnknownDevice,
    /// Its device has no key: it may come by a proxy alone.
    NoKey,
    /// Its device may not come by a proxy.
    NoTls,
    /// Its device may come by a proxy, which verified no certificate of it.
    NoCertificate,
    /// Its device may come by a proxy, with a certificate of another name.
    OtherCertificate,
    /// What the proxy told isn't a header, or tells of no caller.
    BadProxyHeader,
    /// Its address has as many connections as it may have at once.
    TooManyConnections,
}

/// Connections that were refused for the same reason. None of them has a session.
#[derive(Debug, Drop)]
pub struct TurnedAway {
    /// By RFC 3339.
    pub time: Bytes,
    /// Where the last of them came from.
    pub origin: Origin,
    pub why: WhyTurnedAway,
    /// How many they are.
    pub count: u64,
}

/// Who typed a line at the console.
#[derive(Debug)]
pub enum Typist {
    /// Whoever has its one input: nobody says who that is.
    Anyone,
    /// One of the operators who share it, by the name that he says, if he says one.
    Operator(Option<Bytes>),
}

impl Drop for Typist {
    fn drop(self) {
        match self {
            Typist::Anyone => {}
            Typist::Operator(_) => {}
        }
    }
}

/// What was typed at the console, by whom, and when.
#[derive(Debug, Drop)]
pub struct Typed {
    /// By RFC 3339.
    pub time: Bytes,
    pub typist: Typist,
    /// The line, without its secrets.
    pub console: Bytes,
    /// How many bytes its answer has without secrets, where only the first of them are told.
    pub answer_bytes: Option<u64>,
    /// The lines of its answer, without their secrets, or of the first bytes of that.
    pub answer: Sequence<Bytes>,
}

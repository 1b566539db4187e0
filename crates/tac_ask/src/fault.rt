//! Why a server gave no answer.

ghost use Rattle.std.specs.Prelude.{◌≡◌};
ghost use Rattle.tac_ask.specs.Judging.{body_fault};
ghost use Rattle.tac_ask.specs.Packet.{header_fault};
ghost use Rattle.tac_ask.specs.declared.fault.AskFault.TheVariants.{Memory};

use std::alloc::{AllocError, AllocFailed};
use tac_wire::{BodyFault, FrameFault};
use thiserror::Error;

/// Why something isn't asked, or isn't answered.
#[derive(Clone, Copy, Debug, PartialEq, Eq, Error)]
pub enum AskFault {
    /// A field is over 255 bytes long, or there are over 255 arguments: no packet has that.
    #[error("a field is over 255 bytes long, or there are over 255 arguments")]
    Unsendable,
    /// Memory ran out.
    #[error("memory ran out")]
    Memory,
    /// The packet could not be sent whole.
    #[error("the request could not be sent")]
    Unsent,
    /// No whole reply came in time.
    #[error("no whole reply came in time")]
    Silent,
    /// The connection was closed before the first byte of a reply.
    #[error("it closed the connection without a reply")]
    Closed,
    /// The connection was closed before the last byte of a reply.
    #[error("it closed the connection within a reply")]
    CutOff,
    /// The connection failed otherwise.
    #[error("the connection failed")]
    Broken,
    /// What came isn't TACACS+: the version is none of its versions.
    #[error("what it answers isn't TACACS+")]
    BadVersion,
    /// The reply has no pad, though a key was given.
    #[error("its reply is in clear, though a key was given")]
    Unpadded,
    /// The reply doesn't say that it is in clear, though no key was given.
    #[error("its reply isn't in clear, though no key was given")]
    NotClear,
    /// The reply is too long.
    #[error("its reply is over 131075 bytes long")]
    TooLong,
    /// The reply has another type than the request.
    #[error("its reply is of another type than the request")]
    OtherType,
    /// The reply is one of another session.
    #[error("its reply is of another session")]
    OtherSession,
    /// The reply hasn't the next number of its session.
    #[error("its reply has a wrong sequence number")]
    OutOfTurn,
    /// The body is none of a reply.
    #[error("its reply can't be read: it may have another key for this client")]
    BadBody,
    /// The status is none of the standard's.
    #[error("its reply has an unknown status: it may have another key for this client")]
    BadStatus,
}

impl From<AllocError> for AskFault {
    ghost from_gives = { λ _ fault. fault ≡ Memory };

    fn from(_error: AllocError) -> AskFault {
        AskFault::Memory
    }
}

impl<T: Drop> From<AllocFailed<T>> for AskFault {
    ghost from_gives = { λ _ fault. fault ≡ Memory };

    fn from(_error: AllocFailed<T>) -> AskFault {
        AskFault::Memory
    }
}

impl From<FrameFault> for AskFault {
    ghost from_gives = { λ fault told. told ≡ header_fault fault };

    fn from(fault: FrameFault) -> AskFault {
        match fault {
            FrameFault::BadVersion => AskFault::BadVersion,
            FrameFault::Unencrypted => AskFault::Unpadded,
            FrameFault::TooLong => AskFault::TooLong,
        }
    }
}

impl From<BodyFault> for AskFault {
    ghost from_gives = { λ fault told. told ≡ body_fault fault };

    fn from(fault: BodyFault) -> AskFault {
        match fault {
            BodyFault::Short => AskFault::BadBody,
            BodyFault::LengthSum => AskFault::BadBody,
            BodyFault::TooLong => AskFault::BadBody,
            BodyFault::Memory => AskFault::Memory,
        }
    }
}

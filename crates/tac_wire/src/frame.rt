//! A packet, and the faults that end a stream.

ghost use Rattle.std.specs.Prelude.{◌≡◌};
ghost use Rattle.tac_wire.specs.Stream.{header_fault};

use crate::door::Door;
use crate::header::Header;
use basics::Bytes;

/// A packet as it stands in the stream: the body still has its pad.
#[derive(Drop)]
pub struct Frame {
    pub header: Header,
    pub body: Bytes,
}

impl Frame {
    /// The longest body that is taken: that of an authentication CONTINUE with two fields of 65,535
    /// bytes after its five fixed ones.
    pub const MAX_BODY: u32 = 131_075;
}

/// Why a stream can't be read on.
#[derive(Clone, Copy, Debug, PartialEq, Eq)]
pub enum FrameFault {
    /// The major version isn't 0xc, or the minor version is above 1.
    BadVersion,
    /// The body has no pad, where it has to have one.
    Unencrypted,
    /// The body would be longer than [`Frame::MAX_BODY`].
    TooLong,
}

/// A header that is refused.
#[derive(Clone, Copy, Debug, PartialEq, Eq)]
pub struct RefusedHeader {
    pub header: Header,
    /// The first fault that it has.
    pub fault: FrameFault,
}

// Why a header is refused, if it is.
pub(crate) fn fault_of(door: &Door, header: &Header) -> Option<FrameFault>
    ensures { result ≡ header_fault door.now header.now }
{
    let major = header.version >> 4;
    let minor = header.version & 0x0f;
    if major != 0xc || minor > 1 {
        Some(FrameFault::BadVersion)
    } else if door.refuses(header.flags) {
        Some(FrameFault::Unencrypted)
    } else if header.length > Frame::MAX_BODY {
        Some(FrameFault::TooLong)
    } else {
        None
    }
}

//! Packets without their pad.

ghost use Rattle.std.specs.Prelude.{◌≡◌};
ghost use Rattle.tac_conn.specs.Packet.{clear};

use basics::Bytes;
use tac_wire::{Door, Frame, Header};

/// A packet that came, without the pad.
#[derive(Drop, PartialEq, Eq)]
pub struct Packet {
    pub header: Header,
    pub body: Bytes,
}

impl Packet {
    /// The packet of a frame: the pad is taken off where it stands (RFC 8907, section 4.5), if the
    /// door has one. Takes no memory.
    pub fn clear(door: &Door, frame: Frame) -> Packet
        ensures { result ≡ clear door.now frame }
    {
        let Frame { header, body } = frame;
        let mut body = body.into_vec();
        door.open(&header, &mut body);
        Packet {
            header,
            body: Bytes::from(body),
        }
    }
}

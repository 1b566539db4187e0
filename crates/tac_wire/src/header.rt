//! The header of a packet.

ghost use Rattle.std.specs.Prelude.{◌≡◌};
ghost use Rattle.tac_wire.specs.Header.{header_bytes, header_of};

use byteorder::{BigEndian, ByteOrder};

/// How many bytes a header has (RFC 8907, section 4.1).
pub const HEADER_SIZE: usize = 12;

/// What a packet is about (RFC 8907, section 4.1). Numbers without a name are types that aren't
/// served.
#[derive(Clone, Copy, Debug, PartialEq, Eq)]
pub struct PacketType(pub u8);

impl PacketType {
    /// Whether a user is the one named.
    pub const AUTHENTICATION: PacketType = PacketType(1);
    /// What a user may do.
    pub const AUTHORISATION: PacketType = PacketType(2);
    /// What a user did, to be recorded.
    pub const ACCOUNTING: PacketType = PacketType(3);
}

/// The header of a packet (RFC 8907, section 4.1), as written: no value is refused here.
#[derive(Clone, Copy, Debug, PartialEq, Eq)]
pub struct Header {
    /// Major version in the high four bits, minor version in the low four.
    pub version: u8,
    pub kind: PacketType,
    /// The packet's number in its session: odd from the client, even from the server.
    pub seq: u8,
    pub flags: u8,
    pub session: u32,
    /// How many bytes of body follow.
    pub length: u32,
}

impl Header {
    /// The flag of a packet whose body has no pad.
    pub const UNENCRYPTED: u8 = 0x01;
    /// The flag by which a client asks for many sessions on one connection.
    pub const SINGLE_CONNECTION: u8 = 0x04;

    /// The header that these bytes spell, in network order. Takes no memory.
    pub fn read(bytes: &[u8; HEADER_SIZE]) -> Header
        ensures value { result ≡ header_of bytes.now }
        // No byte is lost.
        ensures found { header_bytes result ≡ bytes.now }
    {
        Header {
            version: bytes[0],
            kind: PacketType(bytes[1]),
            seq: bytes[2],
            flags: bytes[3],
            session: BigEndian::read_u32(&bytes[4..8]),
            length: BigEndian::read_u32(&bytes[8..12]),
        }
    }

    /// The bytes that spell the header, in network order. Takes no memory.
    pub fn write(&self) -> [u8; HEADER_SIZE]
        ensures value { result ≡ header_bytes self.now }
        // What was written is read again.
        ensures again { header_of result ≡ self.now }
    {
        let Header {
            session,
            length,
            ..
        } = *self;
        let mut bytes = [0; HEADER_SIZE];
        bytes[0] = self.version;
        bytes[1] = self.kind.0;
        bytes[2] = self.seq;
        bytes[3] = self.flags;
        BigEndian::write_u32(&mut bytes[4..8], session);
        BigEndian::write_u32(&mut bytes[8..12], length);
        bytes
    }
}

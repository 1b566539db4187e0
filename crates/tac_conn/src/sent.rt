//! Packets as they are sent.

ghost use Rattle.std.specs.Prelude.{◌≡◌, ◌+◌, ◌≤◌, ◌++◌, length, take, drop, vec_len, vec_capacity};
ghost use Rattle.tac_wire.specs.Header.{header_bytes};
ghost use Rattle.tac_wire.specs.Door as doors;
ghost use Rattle.tac_conn.specs.Packet as packets;
ghost use Rattle.tac_conn.specs.Reply as replies;

use crate::reply::Reply;
use tac_request::AUTHOR_REPLY_MAX;
use tac_wire::{Door, HEADER_SIZE, Header};

/// How many bytes a packet has at most that is sent: those of a header and the longest body.
pub const SENT_MAX: usize = 65362;

// Writes a header into the 12 bytes from a place on, and puts the pad, if there is one, on all that
// follow.
fn seal(bytes: &mut [u8], start: usize, header: &Header, door: &Door)
    requires { start + 12 ≤ length bytes.old }
    ensures sealed { bytes.new ≡ take start bytes.old ++ header_bytes header.now
        ++ doors.closed door.now header.now (drop (start + 12) bytes.old) }
    ensures length { length bytes.new ≡ length bytes.old }
{
    let (_, packet) = bytes.split_at_mut(start);
    let (head, body) = packet.split_at_mut(HEADER_SIZE);
    head.copy_from_slice(&header.write());
    door.close(header, body);
}

// The same in a vector.
fn seal_last(out: &mut Vec<u8>, start: usize, header: &Header, door: &Door)
    requires { start + 12 ≤ length out.old.items }
    ensures { out.new.items ≡ take start out.old.items ++ header_bytes header.now
        ++ doors.closed door.now header.now (drop (start + 12) out.old.items) }
{
    seal(out.as_mut_slice(), start, header, door)
}

impl Reply {
    /// Adds the packet of a reply, as it is sent by a door, to bytes that have room for it: the
    /// length of its body is written into its header, and the pad, if there is one, is put on (RFC
    /// 8907, section 4.5). Takes no memory.
    pub fn send_to(&self, door: &Door, out: &mut Vec<u8>)
        requires { vec_len out.old + SENT_MAX ≤ vec_capacity out.old }
        ensures value { out.new.items
            ≡ out.old.items ++ packets.sent door.now (replies.packet_of self.now) }

        // They are one whole packet: its header says its length.
        ensures whole { packets.IsWhole (packets.sent door.now (replies.packet_of self.now)) }
        ensures bound { length (packets.sent door.now (replies.packet_of self.now)) ≤ SENT_MAX }
    {
        let start = out.len();
        out.extend_from_slice(&[0; HEADER_SIZE]).unwrap();
        self.body.write(out);
        let length = out.len() - start - HEADER_SIZE;
        let header = Header {
            length: length as u32,
            ..self.header
        };
        seal_last(out, start, &door.mark(&header), door);
    }
}

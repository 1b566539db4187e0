//! Room for a reply.

ghost use Rattle.std.specs.Prelude.{◌≡◌};
ghost use Rattle.tac_conn.specs.Packet.{sent};
ghost use Rattle.tac_conn.specs.Reply.{packet_of};

use std::alloc::{AllocError, Global};
use std::marker::Model;
use tac_conn::{Reply, SENT_MAX};
use tac_wire::Door;

/// Room for a reply, however long that is, so that none takes memory once the desk was asked.
#[derive(Drop)]
pub(crate) struct Room {
    bytes: Vec<u8>,
}

impl Model for Room {
    ghost use Rattle.std.specs.Prelude.{◌≡◌, ◌≤◌, [], vec_len, vec_capacity};

    ghost Value = { Unit {0} };

    ghost view = { λ _. tt };

    ghost invariant = { λ room. (room.bytes.items ≡ []) × (vec_len room.bytes ≡ 0)
        × (65362 ≤ vec_capacity room.bytes) };
}

impl Room {
    /// Takes the room. The error means that memory ran out.
    pub(crate) fn new(alloc: Global) -> Result<Room, AllocError> {
        let bytes = Vec::with_capacity(alloc, SENT_MAX)?;
        Ok(Room { bytes })
    }

    /// The packet of a reply, as it is sent. Takes no memory.
    pub(crate) fn sent(self, door: &Door, reply: &Reply) -> Vec<u8>
        ensures { result.items ≡ sent door.now (packet_of reply.now) }
    {
        let mut bytes = self.bytes;
        reply.send_to(door, &mut bytes);
        bytes
    }
}

//! What a server is told when it begins.

use crate::callers::Callers;
use crate::patience::Idle;
use basics::Bytes;
use tac_hall::Limits;

/// Whom a server serves, and how much.
pub struct Settings {
    /// The number of the port that is listened on, if there is one, which is printed.
    pub port: Option<u16>,
    /// The address that it is listened on at, which is printed too; none where it is every one.
    pub address: Option<Bytes>,
    /// The path of the socket at which a proxy calls, if there is one, which is printed.
    pub proxy: Option<Bytes>,
    /// Which devices may call, each by the key that it shares with the server, or by a proxy.
    pub callers: Callers,
    /// How many workers it has, each with a seat and a thread of its own. Each serves many
    /// connections at once.
    pub workers: u32,
    /// How many threads it has that work passwords out, which takes the rounds of a hash.
    pub hashers: u32,
    /// How many connections each worker serves in all, before it ends.
    pub connections: u32,
    /// How many connections there may be at once. One more is closed as soon as it is accepted.
    pub connections_at_once: u32,
    /// How many of them may be of one IP address, unless a devices' file says it of that address; 0
    /// means that none is too many. The port doesn't count, and an IPv4 address inside an IPv6 one
    /// is that address.
    pub per_address: u32,
    /// How many bytes packets that aren't answered yet may take, those of all connections together.
    /// The first 4 kB of each connection aren't counted. A connection that needs more is closed.
    pub packet_memory: u64,
    /// When a connection is given up.
    pub idle: Idle,
    /// For how long the reply to a failed login is held back, in milliseconds.
    pub fail_delay: u32,
    /// How long the segments of its history may be. Nothing is printed of one that begins by
    /// itself.
    pub limits: Limits,
}

// By hand, so that a proof of an owner has one call at each exit, not a drop of each field.
impl Drop for Settings {
    fn drop(self) {
        let Settings {
            port: _,
            address: _,
            proxy: _,
            callers: _,
            workers: _,
            hashers: _,
            connections: _,
            connections_at_once: _,
            per_address: _,
            packet_memory: _,
            idle: _,
            fail_delay: _,
            limits: _,
        } = self;
    }
}

impl Settings {
    /// How many threads it has beside that of the console.
    pub(crate) fn threads(&self) -> u64 {
        u64::from(self.workers) + u64::from(self.hashers)
    }
}

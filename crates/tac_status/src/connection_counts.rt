//! Connections, by what became of them.

ghost use Rattle.std.specs.Prelude.{◌≡◌};

use crate::counts::Count;
use std::array;

/// Why a connection is closed as soon as it is accepted.
#[derive(Clone, Copy, Debug, PartialEq, Eq)]
pub enum Rejection {
    /// No device that may call is at its address.
    UnknownDevice,
    /// Its device has no key: it may come by a proxy alone.
    NoKey,
    /// Its device may not come by a proxy.
    NoTls,
    /// Its device may come by a proxy, which verified no certificate of it.
    NoCertificate,
    /// Its device may come by a proxy, with a certificate of another name.
    OtherCertificate,
    /// What the proxy told isn't a header, or tells of no caller.
    BadProxyHeader,
    /// There are as many as may be at once.
    AtOnce,
    /// There are as many of its address as may be.
    PerAddress,
    /// Each worker has served as many as it is to serve in all.
    Served,
    /// Memory ran out.
    Memory,
}

/// Why a connection that a worker had has ended.
#[derive(Clone, Copy, Debug, PartialEq, Eq)]
pub enum Departure {
    /// Its device closed it.
    Finished,
    /// Its device was taken out of the devices' file before its first packet was whole.
    Unlisted,
    /// Its device's block was changed before its first packet was whole: it may not come so any more.
    Changed,
    /// The protocol closes it: after its last reply, or after what it refuses.
    Protocol,
    /// Its device had no reply for too long.
    Idle,
    /// Nobody typed the name or the password that was asked for.
    LoginIdle,
    /// Its device didn't take a reply.
    NotTaken,
    /// Its unanswered packets found no room.
    PacketMemory,
    /// A read failed.
    Read,
    /// A write failed.
    Write,
    /// The log didn't take the line of its reply.
    Log,
    /// Too many passwords waited to be compared with hashes.
    Hashing,
    /// Memory ran out.
    Memory,
    /// The server stops, or the system can't wait for it.
    Server,
}

/// How many reasons there are to reject one.
pub const REJECTION_COUNT: usize = 10;

/// How many reasons there are for one to end.
const DEPARTURE_COUNT: usize = 14;

/// What is told of connections that are rejected for one reason.
#[derive(Clone, Copy)]
pub struct RejectionRow {
    pub why: Rejection,
    /// How `status` has it.
    pub name: &'static str,
    /// What standard error says of one, if it says anything.
    pub complaint: Option<&'static str>,
    /// Whether it is told only of a server that knows of proxies: one that has a socket for them, or
    /// has closed a connection for such a reason.
    pub is_of_proxies: bool,
}

/// What is told of connections that have ended for one reason.
#[derive(Clone, Copy)]
pub struct DepartureRow {
    pub why: Departure,
    /// How `status` has it.
    pub name: &'static str,
}

/// A row for each reason, in the order in which they are told.
pub const REJECTIONS: [RejectionRow; REJECTION_COUNT] = [
    RejectionRow {
        why: Rejection::UnknownDevice,
        name: "unknown_device",
        complaint: Some("unknown device"),
        is_of_proxies: false,
    },
    RejectionRow {
        why: Rejection::NoKey,
        name: "no_key",
        complaint: Some("the device has no key"),
        is_of_proxies: true,
    },
    RejectionRow {
        why: Rejection::NoTls,
        name: "no_tls",
        complaint: Some("the device may not come by a proxy"),
        is_of_proxies: true,
    },
    RejectionRow {
        why: Rejection::NoCertificate,
        name: "no_certificate",
        complaint: Some("the proxy verified no certificate of the device"),
        is_of_proxies: true,
    },
    RejectionRow {
        why: Rejection::OtherCertificate,
        name: "other_certificate",
        complaint: Some("the device has a certificate of another name"),
        is_of_proxies: true,
    },
    RejectionRow {
        why: Rejection::BadProxyHeader,
        name: "bad_proxy_header",
        complaint: Some("bad proxy header"),
        is_of_proxies: true,
    },
    RejectionRow {
        why: Rejection::AtOnce,
        name: "at_once",
        complaint: None,
        is_of_proxies: false,
    },
    RejectionRow {
        why: Rejection::PerAddress,
        name: "per_address",
        complaint: None,
        is_of_proxies: false,
    },
    RejectionRow {
        why: Rejection::Served,
        name: "served",
        complaint: None,
        is_of_proxies: false,
    },
    RejectionRow {
        why: Rejection::Memory,
        name: "memory",
        complaint: None,
        is_of_proxies: false,
    },
];

/// A row for each reason, in the order in which they are told.
pub const DEPARTURES: [DepartureRow; DEPARTURE_COUNT] = [
    DepartureRow {
        why: Departure::Finished,
        name: "finished",
    },
    DepartureRow {
        why: Departure::Unlisted,
        name: "unlisted",
    },
    DepartureRow {
        why: Departure::Changed,
        name: "changed",
    },
    DepartureRow {
        why: Departure::Protocol,
        name: "protocol",
    },
    DepartureRow {
        why: Departure::Idle,
        name: "idle",
    },
    DepartureRow {
        why: Departure::LoginIdle,
        name: "login_idle",
    },
    DepartureRow {
        why: Departure::NotTaken,
        name: "not_taken",
    },
    DepartureRow {
        why: Departure::PacketMemory,
        name: "packet_memory",
    },
    DepartureRow {
        why: Departure::Read,
        name: "read",
    },
    DepartureRow {
        why: Departure::Write,
        name: "write",
    },
    DepartureRow {
        why: Departure::Log,
        name: "log",
    },
    DepartureRow {
        why: Departure::Hashing,
        name: "hashing",
    },
    DepartureRow {
        why: Departure::Memory,
        name: "memory",
    },
    DepartureRow {
        why: Departure::Server,
        name: "server",
    },
];

impl Rejection {
    /// What is told of it.
    pub fn row(self) -> RejectionRow
        ensures { result.why ≡ self }
    {
        REJECTIONS[self as usize]
    }
}

impl Departure {
    /// What is told of it.
    pub fn row(self) -> DepartureRow
        ensures { result.why ≡ self }
    {
        DEPARTURES[self as usize]
    }
}

/// The connections of a server since it began, by what became of them.
#[derive(Drop)]
pub struct ConnectionCounts {
    accepted: Count,
    open: Count,
    // one count for each reason
    rejected: [Count; REJECTION_COUNT],
    ended: [Count; DEPARTURE_COUNT],
}

impl ConnectionCounts {
    /// Those of a server that begins.
    pub fn new() -> ConnectionCounts {
        ConnectionCounts {
            accepted: Count::new(),
            open: Count::new(),
            rejected: array::from_fn(|_| Count::new()),
            ended: array::from_fn(|_| Count::new()),
        }
    }

    /// A connection was accepted, and is some worker's.
    pub fn accept(&self) {
        self.accepted.add(1);
        self.open.add(1);
    }

    /// One was closed as soon as it was accepted.
    pub fn reject(&self, why: Rejection) {
        self.rejected[why as usize].add(1);
    }

    /// One that was some worker's has ended.
    pub fn end(&self, why: Departure) {
        self.ended[why as usize].add(1);
        self.open.take(1);
    }

    /// How many were some worker's.
    pub fn accepted(&self) -> u64 {
        self.accepted.get()
    }

    /// How many are now.
    pub fn open(&self) -> u64 {
        self.open.get()
    }

    /// How many were closed so.
    pub fn rejected(&self, why: Rejection) -> u64 {
        self.rejected[why as usize].get()
    }

    /// How many have ended so.
    pub fn ended(&self, why: Departure) -> u64 {
        self.ended[why as usize].get()
    }
}

//! Counting the connections that come and go.

ghost use Rattle.std.specs.Prelude.{◌≡◌, ◌<◌, ◌≤◌, ◌↔◌, ◌+◌, Err, OnOk, OnErr, length};
ghost use Rattle.tac_census.specs.declared.refusal.Refusal.TheVariants.{Full, AddressFull, Memory};
ghost use Rattle.tac_census.specs.Census as census;

use crate::address::segments_of;
use crate::refusal::Refusal;
use crate::table::{Table, count_of, take_one};
use http_server::Log;
use std::alloc::Global;
use std::collections::HashMap;
use std::marker::Model;
use std::net::IpAddr;

/// The connections that there are, by their addresses.
///
/// An IPv4 address inside an IPv6 address, as ::ffff:a.b.c.d, counts as that IPv4 address. A port
/// doesn't count. An address without connections has no entry, so memory is held for as many
/// addresses as had connections at once.
///
/// A look-up takes constant time as a rule. Its hash has no secret: devices that choose their
/// addresses for it can make one linear in how many addresses have connections.
#[derive(Drop)]
pub struct Census {
    // how many there may be
    in_all: u32,
    all: u32,
    counts: Table,
    // Connections that came (true) and that went, by their segments. It has no bytes: only proofs
    // read it.
    history: Log<[u16; 8], bool>,
}

impl Model for Census {
    ghost use Rattle.tac_census.specs.Census.{Connections};

    ghost Value = { Connections };

    ghost use Rattle.tac_census.specs.Counting.{connections_of, IsCounted};

    ghost view = { connections_of };

    ghost invariant = { IsCounted };
}

impl Census {
    /// No connections, of which there may be so many at once. Takes no memory.
    pub fn new(alloc: Global, in_all: u32) -> Census
        ensures { result ≡ census.none in_all }
    {
        Census {
            in_all,
            all: 0,
            counts: HashMap::new(alloc),
            history: Log::new(),
        }
    }

    /// How many connections there are.
    pub fn count(&self) -> u32
        ensures many { result ≡ length self.now.present }

        // There are never more than may be.
        ensures within { result ≤ self.now.in_all }
    {
        self.all
    }

    /// How many connections there are of this address. A hash look-up.
    pub fn of(&self, address: IpAddr) -> u32
        ensures many { result ≡ census.count_of address self.now }

        // There are never more than there are in all.
        ensures few { result ≤ length self.now.present }
    {
        count_of(&self.counts, &segments_of(address))
    }

    /// One more connection of this address, unless there are as many as may be in all, or `most` of
    /// this address, or more. A `most` of 0 sets no such cap; the next connection may come with
    /// another. Takes memory only for an address without connections, and only where the table has
    /// to grow. Two hash look-ups.
    pub fn admit(&mut self, address: IpAddr, most: u32) -> Result<(), Refusal>
        ensures ok { OnOk result (self.new ≡ census.with_one address self.old) }

        // With it there are no more of this address than may be.
        ensures within { OnOk result (0 < most → census.count_of address self.new ≤ most) }

        // The caps come first: memory runs out only for a connection that may be.
        ensures full { (result ≡ Err Full) ↔ census.IsFull self.old }
        ensures address_full { (result ≡ Err AddressFull)
            ↔ ((census.IsFull self.old → ⊥) × census.IsFullOf address most self.old) }

        // An address that has connections takes no memory for one more.
        ensures memory { result ≡ Err Memory → census.count_of address self.old ≡ 0 }

        // A refusal changes nothing.
        ensures err { OnErr result (self.new ≡ self.old) }
    {
        if self.all == self.in_all {
            return Err(Refusal::Full);
        }
        let count = self.of(address);
        if most != 0 && most <= count {
            return Err(Refusal::AddressFull);
        }
        let segments = segments_of(address);
        if let Err(_) = self.counts.insert(segments, count + 1) {
            return Err(Refusal::Memory);
        }
        self.all += 1;
        self.history = self.history.and(&segments, &true);
        Ok(())
    }

    /// One connection of this address less, if there is one. Takes no memory. At most two hash
    /// look-ups.
    pub fn leave(&mut self, address: IpAddr)
        ensures gone { self.new ≡ census.without address self.old }

        // It undoes an admission.
        ensures undone { (before : census.Connections)
            → self.old ≡ census.with_one address before → self.new ≡ before }
    {
        let segments = segments_of(address);
        if !take_one(&mut self.counts, &segments) {
            return;
        }
        self.all -= 1;
        self.history = self.history.and(&segments, &false);
    }
}

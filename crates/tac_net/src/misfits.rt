//! Devices whose packets don't fit their keys.

use crate::hush::COMPLAINT_PAUSE;
use crate::socket::now;
use brief_lock::take;
use std::alloc::Global;
use std::net::IpAddr;
use std::sync::{Mutex, Wait};
use std::time::Clock;
use tac_audit::Named;

/// How many addresses standard error is told of within a minute at most.
const MOST_TOLD: usize = 64;

/// An address that standard error was told of, and until when it isn't told of it again.
#[derive(Drop)]
struct Hushed {
    address: IpAddr,
    until: u64,
}

/// What is said of devices whose packets don't fit their keys: of each address once a minute at
/// most, so that one which goes on calling hides no other.
pub(crate) struct Misfits {
    hushed: Mutex<Vec<Hushed>>,
}

// By hand, so that a proof of an owner has one call at each exit, not a drop of each field.
impl Drop for Misfits {
    fn drop(self) {
        let Misfits { hushed: _ } = self;
    }
}

impl Misfits {
    /// Nothing was to be said yet.
    pub(crate) fn new(alloc: Global) -> Misfits {
        Misfits {
            hushed: Mutex::new(Vec::new(alloc)),
        }
    }

    // Whether standard error may be told of this address now. Then its pause begins.
    fn breaks<R: Wait + Clock>(&self, rt: &R, address: IpAddr) -> bool {
        let moment = now(rt).unwrap_or(0);
        let mut hushed = take(rt, &self.hushed);
        hushed.retain(|one| moment < one.until);
        if hushed.len() >= MOST_TOLD || hushed.iter().any(|one| one.address == address) {
            return false;
        }
        let until = moment.saturating_add(COMPLAINT_PAUSE);
        hushed.push(Hushed { address, until }).is_ok()
    }

    /// The first packet of a connection from this address doesn't fit the key of its device, which
    /// lines name so.
    pub(crate) fn tell<R: Wait + Clock + Eprint>(
        &self,
        rt: &R,
        address: IpAddr,
        named: Option<Named>,
    ) {
        // as a devices' file has it
        let address = address.to_canonical();
        if !self.breaks(rt, address) {
            return;
        }
        let _ = match named {
            Some(Named { name, .. }) => {
                eprintln!(rt; "tacd: {address}: device {name}, its packets don't fit the key")
            }
            None => eprintln!(rt; "tacd: {address}: its packets don't fit the key"),
        };
    }
}

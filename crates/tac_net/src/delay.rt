//! Replies that are held back for a while.

use std::cell::Cell;

/// How long the replies to failed logins of one connection are held back, so that whoever tries
/// passwords there waits for each. Times are in milliseconds, by one clock; where the clock can't
/// be read nothing is held back.
#[derive(Drop)]
pub(crate) struct Delay {
    // for how long; 0 is not at all
    length: u64,
    // until when the present one is held back, once a write of it was tried
    until: Option<u64>,
    // whether its worker was told to try again then
    is_told: Cell<bool>,
}

impl Delay {
    /// Of so many milliseconds.
    pub(crate) fn new(length: u32) -> Delay {
        Delay {
            length: u64::from(length),
            until: None,
            is_told: Cell::new(false),
        }
    }

    /// Whether a reply to a failed login is held back now, at a write of it.
    pub(crate) fn holds(&mut self, now: Option<u64>) -> bool {
        let Some(now) = now else {
            return false;
        };
        let until = match self.until {
            Some(until) => until,
            None => now.saturating_add(self.length),
        };
        self.until = Some(until);
        now < until
    }

    /// The reply was taken whole.
    pub(crate) fn end(&mut self) {
        self.until = None;
        self.is_told.set(false);
    }

    /// Whether a reply is held back now.
    pub(crate) fn is_held(&self, now: Option<u64>) -> bool {
        match (self.until, now) {
            (Some(until), Some(now)) => now < until,
            _ => false,
        }
    }

    /// Until when a reply is held back, for which its worker is to try again then. It is told once
    /// of each.
    pub(crate) fn take_until(&self, now: Option<u64>) -> Option<u64> {
        if !self.is_held(now) || self.is_told.replace(true) {
            return None;
        }
        self.until
    }
}

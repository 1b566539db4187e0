//! How the bodies of a connection travel.

ghost use Rattle.std.specs.Prelude.{◌≡◌, ℕ, List, length};
ghost use Rattle.tac_wire.specs.Door as doors;
ghost use Rattle.tac_wire.specs.declared.door.Door.TheVariants.{Padded as padded_by};

use crate::header::Header;
use crate::key::Key;
use crate::pad::pad_in_place;
use std::marker::Model;

/// How the bodies of a connection travel.
#[derive(Drop)]
pub enum Door {
    /// Under the pad of a key (RFC 8907, section 4.5).
    Padded(Key),
    /// As they are, inside TLS (RFC 9887, section 4).
    Clear,
}

/// A key, kept as the door that it gives, so that the door can be lent. A clause sees the key.
#[derive(Drop)]
pub struct KeyDoor {
    door: Door,
}

impl Model for KeyDoor {
    ghost use Rattle.std.specs.Prelude.{List, ℕ};
    ghost use Rattle.tac_wire.specs.KeyDoor.{key_in, HasPad};

    ghost Value = { List ℕ };

    ghost view = { λ kept. key_in kept.door };

    ghost invariant = { λ kept. HasPad kept.door };
}

// Whether flags say that a body has no pad.
fn is_flagged(flags: u8) -> bool
    ensures { result ≡ doors.is_flagged flags }
{
    flags & Header::UNENCRYPTED != 0
}

impl Door {
    /// Whether flags that say that a body has no pad are refused.
    pub fn refuses(&self, flags: u8) -> bool
        ensures { result ≡ doors.refuses self.now flags }
    {
        match self {
            Door::Padded(_) => is_flagged(flags),
            Door::Clear => false,
        }
    }

    /// Takes the pad off a body that came, where there is one. In clear a packet that doesn't say
    /// that it is has no body that is read.
    pub fn open(&self, header: &Header, body: &mut Vec<u8>)
        ensures { body.new.items ≡ doors.opened self.now header.now body.old.items }
    {
        match self {
            Door::Padded(key) => pad_in_place(header, key, body.as_mut_slice()),
            Door::Clear => {
                if !is_flagged(header.flags) {
                    body.clear();
                }
            }
        }
    }

    /// Puts the pad on a body that is to be sent, where there is one.
    pub fn close(&self, header: &Header, body: &mut [u8])
        ensures value { body.new ≡ doors.closed self.now header.now body.old }
        ensures lengths { (bytes : List ℕ) →
            length (doors.closed self.now header.now bytes) ≡ length bytes }
        // What is sent by a door is read at its other end, whatever it is.
        ensures back { (bytes : List ℕ) → let sent = doors.marked self.now header.now in
            doors.opened self.now sent (doors.closed self.now sent bytes) ≡ bytes }
    {
        match self {
            Door::Padded(key) => pad_in_place(header, key, body),
            Door::Clear => {}
        }
    }

    /// The header as it is sent.
    pub fn mark(&self, header: &Header) -> Header
        ensures { result ≡ doors.marked self.now header.now }
    {
        match self {
            Door::Padded(_) => *header,
            Door::Clear => Header {
                flags: header.flags | Header::UNENCRYPTED,
                ..*header
            },
        }
    }
}

impl KeyDoor {
    /// That of a key.
    pub fn new(key: Key) -> KeyDoor
        ensures { result ≡ key }
    {
        KeyDoor {
            door: Door::Padded(key),
        }
    }

    /// The key's symbols.
    pub fn as_slice(&self) -> &[u8]
        ensures { result.now ≡ self.now }
    {
        match &self.door {
            Door::Padded(key) => key.as_slice(),
            Door::Clear => &[],
        }
    }

    /// The door that it gives.
    pub fn door(&self) -> &Door
        ensures { result.now ≡ padded_by self.now }
    {
        &self.door
    }
}

//! The devices of a file, as a devices' file has them.

use crate::draft::{Draft, add_line};
use crate::names::{LineNames, is_name};
use crate::remark::What;
use crate::secrets::is_secret;
use posix_expression::Text;
use std::alloc::Global;
use std::collections::BTreeMap;
use std::net::IpAddr;
use tac_plus_file::{Configuration, Host, Word};

/// How many devices with an address of their own a devices' file may have, beside all others.
const MOST_HOSTS: usize = 4095;

// The address that a device may have.
fn address_of(text: &[u8]) -> Option<IpAddr> {
    match IpAddr::parse_ascii(text) {
        Ok(IpAddr::V6(address)) if address.to_ipv4_mapped().is_some() => None,
        Ok(address) => Some(address),
        Err(_) => None,
    }
}

// The key of a device, or what is told in its place.
fn key_of<'a>(read: &'a Configuration, host: &'a Host) -> Result<&'a [u8], What> {
    let key = match &host.key {
        Some(key) => Some(key),
        None => read.key.as_ref(),
    };
    match key {
        Some(key) if is_secret(key.text.as_slice()) => Ok(key.text.as_slice()),
        Some(_) => Err(What::SECRET),
        None => Err(What::HOST_KEY),
    }
}

// Devices that are written, one after another.
struct Devices {
    alloc: Global,
    lines: Text,
    // the addresses of those that were written
    addresses: BTreeMap<IpAddr, ()>,
    names: LineNames,
}

// By hand, so that a proof of an owner has one call at each exit, not a drop of each field.
impl Drop for Devices {
    fn drop(self) {
        let Devices {
            alloc: _,
            lines: _,
            addresses: _,
            names: _,
        } = self;
    }
}

impl Devices {
    // Writes the name of a device: its address, without colons, or its line where that is too long.
    fn write_name(&mut self, host: &Host) {
        let mut name = Text::new(self.alloc);
        'bytes: for byte in host.name.as_slice() {
            name.push(if *byte == b':' { b'-' } else { *byte });
        }
        if !is_name(name.as_slice()) {
            name = self.names.next(self.alloc, host.line);
        }
        self.lines.add(b"device ");
        self.lines.add_text(&name);
        self.lines.push(b'\n');
    }

    // Why a device isn't written, if it isn't.
    fn finding(&mut self, address: IpAddr) -> Option<What> {
        if self.addresses.contains_key(&address) {
            return Some(What::SAME_ADDRESS);
        }
        if self.addresses.len() >= MOST_HOSTS {
            return Some(What::TOO_MANY_HOSTS);
        }
        if self.addresses.insert(address, ()).is_err() {
            self.lines.cut();
        }
        None
    }

    // Writes a device, or answers why it isn't written.
    fn add(&mut self, read: &Configuration, host: &Host) -> Option<What> {
        let Some(address) = address_of(host.name.as_slice()) else {
            return Some(What::HOST_ADDRESS);
        };
        let key = match key_of(read, host) {
            Ok(key) => key,
            Err(what) => return Some(what),
        };
        let found = self.finding(address);
        if found.is_none() {
            self.write_name(host);
            add_line(&mut self.lines, &[b"at ", host.name.as_slice()]);
            add_line(&mut self.lines, &[b"key ", key]);
        }
        found
    }

    // Writes all other devices, which have the key of the file.
    fn add_others(&mut self, read: &Configuration) {
        if let Some(key) = &read.key {
            let key = key.text.as_slice();
            if is_secret(key) {
                self.lines.add(b"device others\nat 0.0.0.0/0\nat ::/0\n");
                add_line(&mut self.lines, &[b"key ", key]);
            }
        }
    }

    fn finish(self) -> Text {
        let Devices {
            alloc: _,
            lines,
            addresses: _,
            names: _,
        } = self;
        lines
    }
}

/// The text of a devices' file.
pub(crate) fn devices_of(draft: &mut Draft, read: &Configuration) -> Text {
    let mut devices = Devices {
        alloc: draft.alloc,
        lines: Text::new(draft.alloc),
        addresses: BTreeMap::new(draft.alloc),
        names: LineNames::new(),
    };
    'hosts: for host in &read.hosts {
        if let Some(what) = devices.add(read, host) {
            draft.tell(host.line, what, host.name.as_slice());
        }
    }
    devices.add_others(read);
    devices.finish()
}

/// Tells of each device, where no devices' file is wanted.
pub(crate) fn tell_hosts(draft: &mut Draft, read: &Configuration) {
    'hosts: for host in &read.hosts {
        draft.tell(host.line, What::HOST_UNASKED, host.name.as_slice());
    }
}

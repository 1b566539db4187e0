//! What is no address and no prefix, and what was meant.

ghost use Rattle.std.specs.Prelude.{IfSome};
ghost use Rattle.tac_devices_lint.specs.Places.{InLine};

use crate::finding::Finding;
use crate::meant::{MeantPrefix, address_of, has_address, masked, meant_prefix, width};
use crate::remark::{Found, placed};
use crate::value::spaced;
use crate::word::{LineWord, words_of};
use basics::{read_number, split_once};
use std::fmt;
use std::net::IpAddr;
use tac_devices::Prefix;

/// What is wrong with an address.
#[derive(Clone, Copy)]
pub enum AddressFault {
    /// Bits are set after its length.
    HostBits { address: IpAddr, meant: MeantPrefix },
    /// A netmask stands in place of a length.
    Mask(MeantPrefix),
    /// Another address follows.
    TwoAddresses,
    /// It is a range.
    Range,
    /// It is IPv4, written as IPv6.
    Mapped(MeantPrefix),
    /// It has a scope.
    Scope,
    /// What follows the slash is no length; the most that there may be.
    Length(u8),
    /// It has digits and dots, and is no IPv4 address.
    FourNumbers,
    /// It is a name.
    HostName,
    /// Anything else.
    NoAddress,
}

impl fmt::Display for AddressFault {
    fn fmt<W: fmt::Write>(&self, f: &mut fmt::Formatter<W>) -> fmt::Result {
        match self {
            AddressFault::HostBits { address, meant } => write!(
                f,
                "bits are set after the first {}: is '{meant}' meant, or '{address}'?",
                meant.length
            ),
            AddressFault::Mask(meant) => write!(f, "a netmask: is '{meant}' meant?"),
            AddressFault::TwoAddresses => {
                f.write_str("two addresses on a line: each has a line 'at' of its own")
            }
            AddressFault::Range => {
                f.write_str("a range: give each address or prefix of it a line 'at' of its own")
            }
            AddressFault::Mapped(meant) => write!(f, "IPv4 written as IPv6: is '{meant}' meant?"),
            AddressFault::Scope => f.write_str("a scope: an address has none here"),
            AddressFault::Length(most) => write!(f, "no length: 1 to 3 digits, up to {most}"),
            AddressFault::FourNumbers => f.write_str(
                "no IPv4 address: four numbers of 0 to 255, without zeros before them",
            ),
            AddressFault::HostName => f.write_str(
                "a host name: only addresses stand here, as 'getent ahosts NAME' prints them",
            ),
            AddressFault::NoAddress => {
                f.write_str("no address, as 192.0.2.1, and no prefix, as 192.0.2.0/24")
            }
        }
    }
}

// What is wrong at this end of a line.
fn fault(line: &[u8], end: &[u8], what: AddressFault) -> Found
    ensures { InLine line.now result.column }
{
    placed(line, end, Finding::Address(what))
}

fn are_digits_and_dots(text: &[u8]) -> bool {
    text.iter().all(|byte| matches!(*byte, b'0'..=b'9' | b'.'))
}

fn are_of_host_name(text: &[u8]) -> bool {
    text.iter().all(
        |byte| matches!(*byte, b'A'..=b'Z' | b'a'..=b'z' | b'0'..=b'9' | b'-' | b'_' | b'.'),
    )
}

// What is wrong with a text that has no slash and is no address.
fn no_address(text: &[u8]) -> AddressFault {
    if text.is_empty() {
        return AddressFault::NoAddress;
    }
    if are_digits_and_dots(text) {
        return AddressFault::FourNumbers;
    }
    if are_of_host_name(text) {
        return AddressFault::HostName;
    }
    AddressFault::NoAddress
}

// An address and a sign, and what follows it.
fn cut_at(text: &[u8], sign: u8) -> Option<&[u8]> {
    let (front, after) = split_once(text, sign)?;
    if has_address(front) {
        Some(after)
    } else {
        None
    }
}

// What is wrong with a field that has no slash.
fn address_fault(line: &[u8], text: &[u8]) -> Found
    ensures { InLine line.now result.column }
{
    if let Some(address) = address_of(text) {
        let meant = meant_prefix(&address, width(&address));
        return fault(line, text, AddressFault::Mapped(meant));
    }
    if let Some(after) = cut_at(text, b'%') {
        return fault(line, after, AddressFault::Scope);
    }
    if let Some(after) = cut_at(text, b',') {
        return fault(line, after, AddressFault::TwoAddresses);
    }
    if let Some(after) = cut_at(text, b'-') {
        return fault(line, after, AddressFault::Range);
    }
    fault(line, text, no_address(text))
}

// What is wrong with an address, a slash and these digits.
fn length_fault(line: &[u8], text: &[u8], address: &IpAddr, digits: &[u8]) -> Found
    ensures { InLine line.now result.column }
{
    let most = width(address);
    let length = match read_number(digits, 3) {
        Some(length) if length <= u32::from(most) => length as u8,
        _ => return fault(line, digits, AddressFault::Length(most)),
    };
    let meant = meant_prefix(address, length);
    if width(&meant.address) < most {
        return fault(line, text, AddressFault::Mapped(meant));
    }
    let address = *address;
    fault(line, text, AddressFault::HostBits { address, meant })
}

// What is wrong with a field that is no prefix.
fn field_fault(line: &[u8], text: &[u8]) -> Found
    ensures { InLine line.now result.column }
{
    let Some((front, after)) = split_once(text, b'/') else {
        return address_fault(line, text);
    };
    if let Some(meant) = masked(front, after) {
        return fault(line, after, AddressFault::Mask(meant));
    }
    // two prefixes, as 192.0.2.0/25,192.0.2.128/25
    if let Some(other) = cut_at(text, b',') {
        return fault(line, other, AddressFault::TwoAddresses);
    }
    match address_of(front) {
        Some(address) => length_fault(line, text, &address, after),
        None => fault(line, text, no_address(front)),
    }
}

// What is wrong with several fields.
fn fields_fault(line: &[u8], text: &[u8], first: &[u8], rest: &[u8]) -> Found
    ensures { InLine line.now result.column }
{
    let (second, _) = words_of(rest);
    if let Some(meant) = masked(first, second) {
        return fault(line, rest, AddressFault::Mask(meant));
    }
    if has_address(first) && has_address(second) {
        return fault(line, rest, AddressFault::TwoAddresses);
    }
    spaced(line, text, LineWord::At, rest)
}

/// What keeps what follows `at` from being an address or a prefix, if anything does.
pub(crate) fn address_finding(line: &[u8], text: &[u8]) -> Option<Found>
    ensures { IfSome result (λ found. InLine line.now found.column) }
{
    if Prefix::read(text).is_some() {
        return None;
    }
    Some(match split_once(text, b' ') {
        Some((first, rest)) => fields_fault(line, text, first, rest),
        None => field_fault(line, text),
    })
}

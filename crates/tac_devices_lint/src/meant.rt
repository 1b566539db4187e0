//! Addresses and prefixes that were meant.

ghost use Rattle.std.specs.Prelude.{◌≡◌, ◌≤◌, ◌<◌, ◌-◌, ◌%◌, ◌^◌};

use basics::split_once;
use std::fmt;
use std::net::{IpAddr, Ipv4Addr, Ipv6Addr};

/// A prefix that was meant.
#[derive(Clone, Copy)]
pub struct MeantPrefix {
    pub address: IpAddr,
    pub length: u8,
}

/// `ADDRESS/N`, or the address alone where it is the whole.
impl fmt::Display for MeantPrefix {
    fn fmt<W: fmt::Write>(&self, f: &mut fmt::Formatter<W>) -> fmt::Result {
        if self.length == width(&self.address) {
            write!(f, "{}", self.address)
        } else {
            write!(f, "{}/{}", self.address, self.length)
        }
    }
}

/// How many bits an address has.
pub(crate) fn width(address: &IpAddr) -> u8
    ensures { result ≤ 128 }
{
    match address {
        IpAddr::V4(_) => 32,
        IpAddr::V6(_) => 128,
    }
}

/// The address that a text spells.
pub(crate) fn address_of(text: &[u8]) -> Option<IpAddr> {
    IpAddr::parse_ascii(text).ok()
}

/// Whether a text is an address, or begins with one and a slash.
pub(crate) fn has_address(text: &[u8]) -> bool {
    match split_once(text, b'/') {
        Some((front, _)) => address_of(front).is_some(),
        None => address_of(text).is_some(),
    }
}

// A number without its last so many bits.
fn without_rest(value: u128, rest: u8) -> u128
    requires { rest < 128 }
    ensures exact { result ≡ value - value % 2 ^ rest }
    ensures bound { result ≤ value }
{
    value - value % (1 << u32::from(rest))
}

// The address whose bits after the first so many are zero.
fn bare(address: &IpAddr, length: u8) -> IpAddr {
    match address {
        IpAddr::V4(ip) => {
            let bits = without_rest(u128::from(ip.to_bits()), 32_u8.saturating_sub(length));
            IpAddr::V4(Ipv4Addr::from_bits(bits as u32))
        }
        IpAddr::V6(ip) if length == 0 => IpAddr::V6(Ipv6Addr::UNSPECIFIED),
        IpAddr::V6(ip) => {
            let bits = without_rest(ip.to_bits(), 128_u8.saturating_sub(length));
            IpAddr::V6(Ipv6Addr::from_bits(bits))
        }
    }
}

/// The prefix that an address with a length is meant to be: no bit is set after it, and an IPv4
/// address that is written as IPv6 is one of IPv4.
pub(crate) fn meant_prefix(address: &IpAddr, length: u8) -> MeantPrefix {
    let canonical = address.to_canonical();
    let length = if width(&canonical) < width(address) && length >= 96 {
        length - 96
    } else {
        length
    };
    // one of IPv6 that is shorter has more than IPv4 addresses
    let address = if length > width(&canonical) {
        *address
    } else {
        canonical
    };
    MeantPrefix {
        address: bare(&address, length),
        length,
    }
}

// The netmask of so many bits.
fn netmask(length: u8) -> u32
    requires { length ≤ 32 }
{
    match length {
        0 => 0,
        length => u32::MAX << (32 - u32::from(length)),
    }
}

// How many bits a netmask has.
fn mask_length(mask: u32) -> Option<u8> {
    'lengths: for length in 0..33_u8 {
        if netmask(length) == mask {
            return Some(length);
        }
    }
    None
}

// How many bits a netmask has, or a wildcard mask leaves.
fn length_of(address: Ipv4Addr, mask: Ipv4Addr) -> Option<u8> {
    let mask = mask.to_bits();
    // as a netmask it is that of all addresses, before which 0.0.0.0 stands
    if mask == 0 && address.to_bits() != 0 {
        return Some(32);
    }
    mask_length(mask).or(mask_length(!mask))
}

/// The prefix that an IPv4 address and a mask are.
pub(crate) fn masked(address: &[u8], mask: &[u8]) -> Option<MeantPrefix> {
    let (Ok(address), Ok(mask)) = (Ipv4Addr::parse_ascii(address), Ipv4Addr::parse_ascii(mask))
    else {
        return None;
    };
    let length = length_of(address, mask)?;
    Some(meant_prefix(&IpAddr::V4(address), length))
}

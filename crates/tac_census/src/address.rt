//! What of an address counts.

ghost use Rattle.std.specs.Prelude.{◌≡◌};
ghost use Rattle.tac_census.specs.Address.{segments_of};

use std::net::IpAddr;

// The segments of the address, as an IPv6 address.
pub(crate) fn segments_of(address: IpAddr) -> [u16; 8]
    ensures { result ≡ segments_of address }
{
    match address {
        IpAddr::V4(ip) => ip.to_ipv6_mapped().segments(),
        IpAddr::V6(ip) => ip.segments(),
    }
}

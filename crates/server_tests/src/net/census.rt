//! Connections that are counted by their addresses, as many as a table that grows has.

use std::net::{IpAddr, Ipv4Addr};
use std::test::Fail;
use tac_census::{Census, Refusal};

// The address of a host, and the same inside an IPv6 address.
fn address_of(host: u16) -> IpAddr {
    IpAddr::from(Ipv4Addr::from(0xc000_0000 + u32::from(host)))
}

fn inside_of(host: u16) -> IpAddr {
    IpAddr::from([0, 0, 0, 0, 0, 0xffff, 0xc000, host])
}

// One more of this address. Where memory is refused, nothing has changed, and it is tried again.
fn comes(census: &mut Census, address: IpAddr) -> Result<(), Fail> {
    match census.admit(address, 1) {
        Err(Refusal::Memory) => Ok(census.admit(address, 1)?),
        other => Ok(other?),
    }
}

// A thousand come, and all but the first go again. `rt try --test --fail-alloc N` refuses a growth of
// the table.
#[test]
fn many_addresses(rt: HostRuntime) -> Result<(), Fail> {
    let mut census = Census::new(rt.alloc(), 1000);
    for host in 0..1000 {
        comes(&mut census, address_of(host))?;
    }
    for host in 1..1000 {
        census.leave(inside_of(host));
    }
    let is_first = census.count() == 1 && census.of(inside_of(0)) == 1;
    assert!(rt; is_first, "others are left");
    Ok(())
}

//! What is printed of a devices' file, and of addresses.

ghost use Rattle.std.specs.Prelude.{◌≡◌, ◌≤◌, ◌++◌, ℕ, List, length};
ghost use Rattle.std.specs.Prelude.{Ok, IfOk, OnOk, IfSome, IfNone};
ghost use Rattle.std.specs.Option.{option_map};
ghost use Rattle.std.specs.Net.Grammar.{IsIpText};
ghost use Rattle.std.specs.declared.net.ip_addr.IpAddr.{IpAddr as IpValue};
ghost use Rattle.tac_devices.specs.Devices.{prefixes_of, spot_of};
ghost use Rattle.tac_devices.specs.Listing as listings;
ghost use Rattle.tac_devices.specs.Text.{max_prefixes};

use crate::device::{Device, Place};
use crate::devices::{Devices, Spot};
use crate::fault::DevicesFault;
use crate::reading::read_devices;
use crate::remark::Remark;
use std::alloc::{AllocError, Global};
use std::io;
use std::io::Write;
use std::net::IpAddr;

/// An address that is asked about, as it is written.
#[derive(Clone, Copy)]
pub struct Asked<'a> {
    pub word: &'a str,
    pub address: IpAddr,
}

impl<'a> Asked<'a> {
    /// The address that a text spells, IPv4 or IPv6, without a scope. `None` for any other text.
    pub fn read(word: &'a str) -> Option<Asked<'a>>
        ensures word { IfSome result (λ asked. asked.word.now ≡ word.now) }
        ensures found { IfSome result (λ asked. IsIpText word.now asked.address) }
        ensures none { IfNone result ((address : IpValue) → ¬ (IsIpText word.now address)) }
    {
        match IpAddr::parse_ascii(word.as_bytes()) {
            Ok(address) => Some(Asked { word, address }),
            Err(_) => None,
        }
    }
}

/// How a listing ended.
#[derive(Clone, Copy, Debug, PartialEq, Eq)]
pub enum ListingEnd {
    /// The devices were told of, or each address that was asked about may call.
    Fine,
    /// An address may not call.
    Stranger,
    /// The text is refused, and why was told.
    Refused,
}

// How many prefixes there are.
fn count_prefixes(devices: &[Device]) -> usize
    requires { length (prefixes_of devices.now) ≤ max_prefixes }
    ensures { result ≡ length (prefixes_of devices.now) }
{
    let mut prefixes = 0;
    'devices: for device in devices {
        prefixes += device.places.len();
    }
    prefixes
}

fn write_sizes(out: &mut Vec<u8>, devices: &Devices) -> io::Result<()>
    requires { length (prefixes_of devices.now) ≤ max_prefixes }
    ensures { OnOk result (out.new.items ≡ out.old.items ++ listings.sizes_of devices.now) }
{
    let devices = devices.as_slice();
    let prefixes = count_prefixes(devices);
    let devices = devices.len();
    writeln!(out, "devices ok: {devices} devices, {prefixes} prefixes")
}

fn write_remark(out: &mut Vec<u8>, remark: &Remark) -> io::Result<()>
    ensures { OnOk result (out.new.items ≡ out.old.items ++ listings.remark_line remark.now) }
{
    writeln!(out, "{remark}")
}

fn write_remarks(out: &mut Vec<u8>, remarks: &[Remark]) -> io::Result<()>
    ensures { OnOk result (out.new.items ≡ out.old.items ++ listings.remark_lines remarks.now) }
{
    'remarks: for remark in remarks {
        write_remark(out, remark)?;
    }
    Ok(())
}

// How many devices and prefixes there are, and what is remarked on their keys.
fn write_devices(out: &mut Vec<u8>, alloc: Global, devices: &Devices) -> io::Result<()>
    requires { length (prefixes_of devices.now) ≤ max_prefixes }
    ensures { OnOk result (out.new.items ≡ out.old.items ++ listings.devices_text devices.now) }
{
    let remarks = devices.remarks(alloc)?;
    write_sizes(out, devices)?;
    write_remarks(out, remarks.as_slice())
}

// The device of an address, or that it has none.
fn write_found(out: &mut Vec<u8>, asked: Asked<'_>, found: Option<Spot<'_>>) -> io::Result<()>
    ensures { OnOk result (out.new.items ≡ out.old.items
        ++ listings.found_line asked.entry (option_map spot_of found.entry)) }
{
    let word = asked.word;
    let Some(spot) = found else {
        return writeln!(out, "{word} may not call");
    };
    let name = spot.device.name;
    let Place { prefix, line } = *spot.place;
    writeln!(out, "{word} {name} {prefix} line {line}")
}

// The devices of addresses, and whether each has one.
fn write_all_found(out: &mut Vec<u8>, devices: &Devices, asked: &[Asked<'_>]) -> io::Result<bool>
    ensures { IfOk result (λ all. (text : List ℕ) × listings.Finds devices.now asked.now text all
        × (out.new.items ≡ out.old.items ++ text)) }
{
    let mut all = true;
    'asked: for one in asked {
        let found = devices.spot(&one.address);
        all &= found.is_some();
        write_found(out, *one, found)?;
    }
    Ok(all)
}

// What is printed of devices that were read.
fn tell(alloc: Global, devices: &Devices, asked: &[Asked<'_>]) -> io::Result<(Vec<u8>, ListingEnd)>
    requires { length (prefixes_of devices.now) ≤ max_prefixes }
    ensures { IfOk result (λ told.
        listings.Prints asked.now (Ok devices.now) told.0.items told.1) }
{
    let mut out = Vec::new(alloc);
    if asked.is_empty() {
        write_devices(&mut out, alloc, devices)?;
        return Ok((out, ListingEnd::Fine));
    }
    if write_all_found(&mut out, devices, asked)? {
        return Ok((out, ListingEnd::Fine));
    }
    Ok((out, ListingEnd::Stranger))
}

// Where a vector is written to, an error means that memory ran out.
fn unless_memory<T>(told: io::Result<T>) -> Result<T, AllocError>
    ensures { IfOk result (λ output. told ≡ Ok output) }
{
    match told {
        Ok(output) => Ok(output),
        Err(_) => Err(AllocError),
    }
}

/// The line that tells how many devices and prefixes there are, as `devices ok: 2 devices, 3
/// prefixes`. There are no more prefixes than a text may say. The error means that memory ran out.
pub fn sizes_line(alloc: Global, devices: &Devices) -> Result<Vec<u8>, AllocError>
    requires { length (prefixes_of devices.now) ≤ max_prefixes }
    ensures { IfOk result (λ line. line.items ≡ listings.sizes_of devices.now) }
{
    let mut line = Vec::new(alloc);
    unless_memory(write_sizes(&mut line, devices))?;
    Ok(line)
}

/// The line that tells a fault, as `devices fault line 7 4 BadPrefix`. The error means that memory
/// ran out.
pub fn fault_line(alloc: Global, fault: DevicesFault) -> Result<Vec<u8>, AllocError>
    ensures { IfOk result (λ line. line.items ≡ listings.fault_line fault) }
{
    let mut line = Vec::new(alloc);
    unless_memory(writeln!(line, "devices {fault}"))?;
    Ok(line)
}

/// What is printed of the text of a devices' file, and how it ends: how many devices and prefixes
/// it has, and what is remarked on their keys; or where addresses are asked about, the device of
/// each. The error means that memory ran out.
pub fn list_devices(
    alloc: Global,
    text: &[u8],
    asked: &[Asked<'_>],
) -> Result<(Vec<u8>, ListingEnd), AllocError>
    ensures { IfOk result (λ told.
        listings.IsOnlyListing asked.now text.now told.0.items told.1) }
{
    match read_devices(alloc, text) {
        Ok(devices) => unless_memory(tell(alloc, &devices, asked)),
        Err(DevicesFault::Refused { line, refusal }) => {
            let told = fault_line(alloc, DevicesFault::Refused { line, refusal })?;
            Ok((told, ListingEnd::Refused))
        }
        Err(DevicesFault::Memory) => Err(AllocError),
    }
}

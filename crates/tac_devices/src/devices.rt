//! The devices that may call.

ghost use Rattle.std.specs.Prelude.{◌≡◌, Option};
ghost use Rattle.std.specs.Option.{option_map, option_copied};
ghost use Rattle.tac_devices.specs.Devices as specs;
ghost use Rattle.tac_devices.specs.declared.device.Device.{Device as DeviceValue};

use crate::device::{Device, Place};
use basics::Sequence;
use std::marker::Model;
use std::net::IpAddr;

/// The devices that may call. A contract sees their list.
pub struct Devices {
    pub(crate) devices: Sequence<Device>,
}

// By hand, so that a proof of an owner has one call at each exit, not a drop of each field.
impl Drop for Devices {
    fn drop(self) {
        let Devices { devices: _ } = self;
    }
}

impl Model for Devices {
    ghost use Rattle.std.specs.Prelude.{List};
    ghost use Rattle.tac_devices.specs.declared.device.Device.{Device as DeviceValue};

    ghost Value = { List DeviceValue };

    ghost view = { λ devices. devices.devices };
}

/// A device, and the one of its prefixes that an address begins with.
#[derive(Clone, Copy)]
pub struct Spot<'a> {
    pub device: &'a Device,
    pub place: &'a Place,
}

// Whether its prefix is longer than that of the best so far.
fn is_longer(spot: Spot<'_>, best: Option<Spot<'_>>) -> bool
    ensures { result ≡ specs.is_longer (specs.spot_of spot.entry)
        (option_map specs.spot_of best.entry) }
{
    match best {
        Some(best) => spot.place.prefix.length() > best.place.prefix.length(),
        None => true,
    }
}

// The best so far, or one whose longer prefix the address begins with.
fn nearer<'a>(address: &IpAddr, best: Option<Spot<'a>>, spot: Spot<'a>) -> Option<Spot<'a>>
    ensures { option_map specs.spot_of result
        ≡ specs.nearer address.now (option_map specs.spot_of best.entry)
        (specs.spot_of spot.entry) }
{
    if spot.place.prefix.covers(address) && is_longer(spot, best) {
        return Some(spot);
    }
    best
}

// The same with all prefixes of a device.
fn nearest_of<'a>(address: &IpAddr, best: Option<Spot<'a>>, device: &'a Device) -> Option<Spot<'a>>
    ensures { option_map specs.spot_of result ≡ specs.nearest_from address.now
        (option_map specs.spot_of best.entry) (specs.spots_of device.now) }
{
    let mut nearest = best;
    'places: for place in device.places.as_slice() {
        nearest = nearer(address, nearest, Spot { device, place });
    }
    nearest
}

fn device_at<'a>(spot: Option<Spot<'a>>) -> Option<&'a Device>
    ensures { option_copied result
        ≡ option_map (λ spot. spot.0) (option_map specs.spot_of spot.entry) }
{
    match spot {
        Some(spot) => Some(spot.device),
        None => None,
    }
}

impl Devices {
    /// The most devices that a text may say.
    pub const MAX: usize = 4_096;

    /// The most prefixes that a text may say, of all devices together.
    pub const MAX_PREFIXES: usize = 16_384;

    /// The most bytes that a text is read of.
    pub const MAX_TEXT: usize = 16_777_216;

    /// The devices, in the order of the text.
    pub fn as_slice(&self) -> &[Device]
        ensures { result.now ≡ self.now }
    {
        self.devices.as_slice()
    }

    // The longest prefix that an address begins with, and its device.
    fn nearest(&self, address: &IpAddr) -> Option<Spot<'_>>
        ensures found { option_map specs.spot_of result ≡ specs.nearest self.now address.now }
        ensures nearest { specs.IsNearest self.now address.now (option_map specs.spot_of result) }
    {
        let mut nearest = None;
        'devices: for device in self.devices.as_slice() {
            nearest = nearest_of(address, nearest, device);
        }
        nearest
    }

    /// The device at this address, and the longest prefix that the address begins with. An IPv4
    /// address that came as IPv6 is looked up as IPv4. Linear in the prefixes; no memory.
    pub fn spot(&self, address: &IpAddr) -> Option<Spot<'_>>
        ensures found { specs.IsFound self.now address.now (option_map specs.spot_of result) }
        // It is the only one, where no prefix stands twice.
        ensures only { specs.IsTable self.now → (other : Option specs.Spot) →
            specs.IsFound self.now address.now other → other ≡ option_map specs.spot_of result }
    {
        let canonical = address.to_canonical();
        self.nearest(&canonical)
    }

    /// The device at this address: the one that has the longest prefix that the address begins
    /// with. An IPv4 address that came as IPv6 is looked up as IPv4. Linear in the prefixes; no
    /// memory.
    pub fn find(&self, address: &IpAddr) -> Option<&Device>
        ensures found { specs.IsDeviceAt self.now address.now (option_copied result) }
        // It is the only one, where no prefix stands twice.
        ensures only { specs.IsTable self.now → (other : Option DeviceValue) →
            specs.IsDeviceAt self.now address.now other → other ≡ option_copied result }
    {
        device_at(self.spot(address))
    }
}

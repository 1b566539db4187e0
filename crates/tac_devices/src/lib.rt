//! Which devices may call, by which keys and with which certificates.
#![tactic(auto)]

mod device;
mod devices;
mod doubt;
mod draft;
mod fault;
mod known;
mod listing;
mod prefix;
mod reading;
mod remark;
mod renewal;
mod said;

pub use device::{Device, Place, Secret, Tls};
pub use devices::{Devices, Spot};
pub use doubt::KeyDoubt;
pub use fault::{DevicesFault, DevicesRefusal};
pub use listing::{Asked, ListingEnd, fault_line, list_devices, sizes_line};
pub use prefix::Prefix;
pub use reading::read_devices;
pub use remark::Remark;
pub use renewal::renew_devices;

//! Reading a devices' file in place of the devices that there are.

ghost use Rattle.std.specs.Prelude.{IfOk, IfSome};
ghost use Rattle.tac_devices.specs.Devices.{IsTable};
ghost use Rattle.tac_devices.specs.Renewal.{IsOnlyRenewal};

use crate::devices::Devices;
use crate::fault::DevicesFault;
use crate::listing::{fault_line, sizes_line};
use crate::reading::read_devices;
use std::alloc::{AllocError, Global};

/// Reads a text in place of the devices that there are: the line that an operator is told of it,
/// and the devices that it says, or none where it is refused. The line ends in LF; nothing is
/// remarked. The error means that memory ran out.
pub fn renew_devices(alloc: Global, text: &[u8]) -> Result<(Vec<u8>, Option<Devices>), AllocError>
    ensures exact { IfOk result (λ renewed.
        IsOnlyRenewal text.now renewed.0.items renewed.1) }
    // No prefix stands twice in them, so that an address has one device at most.
    ensures table { IfOk result (λ renewed. IfSome renewed.1 IsTable) }
{
    match read_devices(alloc, text) {
        Ok(devices) => {
            let line = sizes_line(alloc, &devices)?;
            Ok((line, Some(devices)))
        }
        Err(DevicesFault::Refused { line, refusal }) => {
            let told = fault_line(alloc, DevicesFault::Refused { line, refusal })?;
            Ok((told, None))
        }
        Err(DevicesFault::Memory) => Err(AllocError),
    }
}

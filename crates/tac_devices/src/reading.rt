//! Reading the text of a devices' file.

ghost use Rattle.std.specs.Prelude.{◌≡◌, ◌≤◌, length, List, Result, IfOk};
ghost use Rattle.basics.specs.Lines.{lines_of};
ghost use Rattle.tac_devices.specs.Reading.{LineMakes, at_place};
ghost use Rattle.tac_devices.specs.Text as texts;
ghost use Rattle.tac_devices.specs.Devices.{IsTable, prefixes_of};
ghost use Rattle.tac_devices.specs.declared.device.Device.{Device as DeviceValue};
ghost use Rattle.tac_devices.specs.declared.fault.DevicesFault.{DevicesFault as FaultValue};

use crate::devices::Devices;
use crate::draft::Draft;
use crate::fault::{DevicesFault, LineFault};
use crate::said::Said;
use basics::Lines;
use std::alloc::Global;

fn at_line(line: usize, fault: LineFault) -> DevicesFault
    ensures { result ≡ at_place line fault }
{
    match fault {
        LineFault::Refused(refusal) => DevicesFault::Refused { line, refusal },
        LineFault::Memory => DevicesFault::Memory,
    }
}

// The devices of all lines.
fn read_lines(alloc: Global, text: &[u8]) -> Result<Draft, DevicesFault>
    ensures { texts.UnlessMemory (λ draft. draft) result
        (texts.Makes 1 (lines_of text.now) texts.empty) }
{
    let mut lines = Lines::new(text);
    let mut draft = Draft::new(alloc);
    'lines: while let Some((number, line)) = lines.take_line() {
        let said = Said::read(line);
        if let Err(fault) = draft.take(alloc, number, said) {
            return Err(at_line(number, fault));
        }
    }
    Ok(draft)
}

fn read_text(alloc: Global, text: &[u8]) -> Result<Devices, DevicesFault>
    ensures { texts.UnlessMemory (λ devices. devices) result (texts.IsText text.now) }
{
    let draft = read_lines(alloc, text)?;
    draft.finish(alloc)
}

/// Reads the text of a devices' file (docs/DEVICES.md): the devices that it says, or the first
/// fault with its line.
///
/// Names and prefixes are looked up in sets, so the expected time is linear in the text.
pub fn read_devices(alloc: Global, text: &[u8]) -> Result<Devices, DevicesFault>
    ensures exact { texts.UnlessMemory (λ devices. devices) result (texts.IsText text.now) }
    // No prefix stands twice, so that an address has one device at most.
    ensures table { IfOk result IsTable }
    ensures few { IfOk result (λ devices. length (prefixes_of devices) ≤ texts.max_prefixes) }
    // A text says one thing alone.
    ensures only { (wanted : Result (List DeviceValue) FaultValue) → texts.IsText text.now wanted →
        texts.UnlessMemory (λ devices. devices) result (λ given. wanted ≡ given) }
{
    read_text(alloc, text)
}

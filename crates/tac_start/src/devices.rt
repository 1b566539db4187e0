//! The devices that a server begins with, and what is said of their file.

ghost use Rattle.std.specs.Prelude.{IfOk, OnOk};
ghost use Rattle.std.specs.Io.KnownBytes.{IsAtEnd};
ghost use Rattle.tac_run.specs.Telling.{IsTold, IsWorkedOut};
ghost use Rattle.tac_start.specs.Devices.{HasDevices};

use std::alloc::{AllocError, Global};
use std::io::{Read, Write};
use std::rt::Files;
use tac_devices::{Devices, DevicesFault, list_devices, read_devices};
use tac_devices_lint::lint_devices;
use tac_io::{AnswerFault, InputFault, read_whole, write_answer};
use tac_run::{Status, TextFile, complain_of_devices, name_devices_lint, open_file, out_of_memory};

/// How many remarks on a devices' file a start says. Where one key is for all there may be as many
/// as devices.
const MOST_REMARKS: usize = 64;

/// How many lines of a file that is refused a `reload devices` says. No more than so many complaints
/// wait at once as leave room for others.
const MOST_SAID: usize = 8;

// The devices of a text, and nothing to print; or none, and what is printed instead.
fn devices_of_text(alloc: Global, text: &[u8]) -> Result<(Vec<u8>, Option<Devices>), AllocError>
    ensures { IfOk result (λ opened. HasDevices text.now opened.0.items opened.1) }
{
    match read_devices(alloc, text) {
        Ok(devices) => Ok((Vec::new(alloc), Some(devices))),
        Err(DevicesFault::Refused { .. }) => {
            let (printed, _) = list_devices(alloc, text, &[])?;
            Ok((printed, None))
        }
        Err(DevicesFault::Memory) => Err(AllocError),
    }
}

// The same of what the reader gives.
fn devices_read<R: Read>(
    alloc: Global,
    reader: &mut R,
) -> Result<(Vec<u8>, Option<Devices>), InputFault>
    ensures end { OnOk result (IsAtEnd (R.remaining reader.new)) }
    ensures worked { IsWorkedOut HasDevices (R.remaining reader.old) result }
{
    let text = read_whole(alloc, reader, Devices::MAX_TEXT)?;
    let (printed, devices) = devices_of_text(alloc, text.as_slice())?;
    Ok((printed, devices))
}

// The devices of the text that the reader gives. Where it is refused there are none, and the reason
// is written as `tacd devices` writes it. The whole text is read first.
fn open_devices<R: Read, W: Write>(
    alloc: Global,
    reader: &mut R,
    writer: &mut W,
) -> Result<Option<Devices>, AnswerFault>
    ensures { IsTold HasDevices (R.remaining reader.old)
        (W.contents writer.old) (W.contents writer.new) result }
{
    write_answer(writer, devices_read(alloc, reader))
}

// Says what is remarked on devices, which count all the same. The error here and below is the
// status to end with, and the reason was said.
fn tell_remarks<R: Eprint + AllocGlobal>(
    rt: &R,
    path: &str,
    devices: &Devices,
) -> Result<(), Status> {
    let Ok(remarks) = devices.remarks(rt.alloc()) else {
        return Err(out_of_memory(rt));
    };
    let (told, untold) = remarks.as_slice().split_at(remarks.len().min(MOST_REMARKS));
    'remarks: for remark in told {
        let _ = eprintln!(rt; "tacd: {path}: {remark}");
    }
    if !untold.is_empty() {
        let more = untold.len();
        let _ = eprintln!(rt; "tacd: {path}: {more} more remarks; 'tacd devices {path}' tells all");
    }
    Ok(())
}

/// The devices of the file at a path, of which standard error has the remarks. Where it is refused,
/// the reason is written to this writer, and standard error names what tells more.
pub fn devices_of_file<R, W: Write>(rt: &R, path: &str, writer: &mut W) -> Result<Devices, Status>
where
    R: Files + Eprint + AllocGlobal,
{
    let mut file = open_file(rt, TextFile::secret(path, Devices::MAX_TEXT))?;
    match open_devices(rt.alloc(), &mut file, writer) {
        Ok(Some(devices)) => {
            tell_remarks(rt, path, &devices)?;
            Ok(devices)
        }
        Ok(None) => {
            name_devices_lint(rt, path);
            Err(Status::Refused)
        }
        Err(fault) => {
            complain_of_devices(rt, path, fault);
            Err(Status::of_answer(fault))
        }
    }
}

/// Says what is wrong with the text of the devices' file at a path, as far as there is memory.
pub fn say_lint<R: Eprint>(rt: &R, alloc: Global, path: &str, text: &[u8]) {
    let Ok(lint) = lint_devices(alloc, text) else {
        return;
    };
    let remarks = lint.remarks.as_slice();
    let (told, untold) = remarks.split_at(remarks.len().min(MOST_SAID));
    'remarks: for remark in told {
        let _ = eprintln!(rt; "tacd: {path}: {remark}");
    }
    if !untold.is_empty() {
        name_devices_lint(rt, path);
    }
}

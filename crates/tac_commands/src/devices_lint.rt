//! What in a devices' file is wrong or was probably not meant.

ghost use Rattle.std.specs.Prelude.{OnOk};
ghost use Rattle.std.specs.Io.KnownBytes.{IsAtEnd};
ghost use Rattle.tac_commands.specs.Linting.{IsLinted};
ghost use Rattle.tac_run.specs.Telling.{IsTold, IsWorkedOut};

use std::alloc::Global;
use std::io::{Read, Write};
use std::rt::Files;
use std::{fs, io};
use tac_devices::Devices;
use tac_devices_lint::{DevicesLintEnd, is_devices_text, print_lint};
use tac_io::{AnswerFault, InputFault, read_whole, write_answer};
use tac_run::{Status, TextFile, complain_of_devices, open_file};

// Reads a text, and works out what its lint is.
fn answer<R: Read>(alloc: Global, reader: &mut R) -> Result<(Vec<u8>, DevicesLintEnd), InputFault>
    ensures end { OnOk result (IsAtEnd (R.remaining reader.new)) }
    ensures linted { IsWorkedOut IsLinted (R.remaining reader.old) result }
{
    let text = read_whole(alloc, reader, Devices::MAX_TEXT)?;
    let (printed, end) = print_lint(alloc, text.as_slice())?;
    Ok((printed, end))
}

// Writes the lint of the devices' file whose text the reader gives. The whole text is read first.
fn tell<R: Read, W: Write>(
    alloc: Global,
    reader: &mut R,
    writer: &mut W,
) -> Result<DevicesLintEnd, AnswerFault>
    ensures { IsTold IsLinted (R.remaining reader.old)
        (W.contents writer.old) (W.contents writer.new) result }
{
    write_answer(writer, answer(alloc, reader))
}

/// Prints what is wrong in a devices' file, or probably not meant.
pub(crate) fn lint_file<R>(rt: &R, path: &str) -> Status
where
    R: Files + Print + Eprint + AllocGlobal,
{
    let file = TextFile::new(path, Devices::MAX_TEXT);
    let mut file = match open_file(rt, file) {
        Ok(file) => file,
        Err(status) => return status,
    };
    let outcome = tell(rt.alloc(), &mut file, &mut io::writer(rt));
    if let Err(fault) = outcome {
        complain_of_devices(rt, path, fault);
    }
    Status::of_devices_lint(outcome)
}

// Whether a file looks like one of devices. Nothing else than a file is read: it could hold up.
fn is_of_devices<R: Files + Eprint + AllocGlobal>(rt: &R, path: &str) -> bool {
    match fs::metadata(rt, path) {
        Ok(metadata) if metadata.is_file() => {}
        _ => return false,
    }
    match TextFile::new(path, Devices::MAX_TEXT).text(rt, rt, rt.alloc()) {
        Ok(text) => is_devices_text(text.as_slice()),
        Err(_) => false,
    }
}

/// Says so of a file that is refused as a policy's, and is one of devices.
pub(crate) fn name_devices_file<R: Files + Eprint + AllocGlobal>(rt: &R, path: &str) {
    if is_of_devices(rt, path) {
        let _ = eprintln!(rt;
            "tacd: {path}: this is a devices' file: 'tacd devices --lint {path}' looks at it"
        );
    }
}

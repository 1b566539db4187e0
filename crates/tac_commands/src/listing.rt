//! What is told of a devices' file.

ghost use Rattle.std.specs.Prelude.{OnOk};
ghost use Rattle.std.specs.Io.KnownBytes.{IsAtEnd};
ghost use Rattle.tac_devices.specs.Listing.{IsOnlyListing};
ghost use Rattle.tac_run.specs.Telling.{IsTold, IsWorkedOut};

use crate::devices_lint::lint_file;
use clap::ArgMatches;
use std::alloc::Global;
use std::io;
use std::io::{Read, Write};
use std::rt::Files;
use tac_command_line::{ADDRESSES, FILE, LINT, word_of};
use tac_devices::{Asked, Devices, ListingEnd, list_devices};
use tac_io::{AnswerFault, InputFault, read_whole, write_answer};
use tac_run::{Status, TextFile, complain_of_devices, name_devices_lint, open_file, out_of_memory};

// Reads a text, and works out what is told of it and of these addresses.
fn answer<R: Read>(
    alloc: Global,
    asked: &[Asked<'_>],
    reader: &mut R,
) -> Result<(Vec<u8>, ListingEnd), InputFault>
    ensures end { OnOk result (IsAtEnd (R.remaining reader.new)) }
    ensures listed { IsWorkedOut (IsOnlyListing asked.now) (R.remaining reader.old) result }
{
    let text = read_whole(alloc, reader, Devices::MAX_TEXT)?;
    let (printed, end) = list_devices(alloc, text.as_slice(), asked)?;
    Ok((printed, end))
}

// Writes what is told of the devices' file whose text the reader gives, and of these addresses
// (docs/DEVICES.md). The whole text is read first.
fn tell<R: Read, W: Write>(
    alloc: Global,
    asked: &[Asked<'_>],
    reader: &mut R,
    writer: &mut W,
) -> Result<ListingEnd, AnswerFault>
    // What was written is exactly what is told of the text, the end is its end, and no others are;
    // or what a fault leaves.
    ensures { IsTold (IsOnlyListing asked.now) (R.remaining reader.old)
        (W.contents writer.old) (W.contents writer.new) result }
{
    write_answer(writer, answer(alloc, asked, reader))
}

// Says that a word is no address. The status tells it too.
fn refuse_word<R: Eprint>(rt: &R, word: &str) {
    let _ = eprintln!(rt;
        "error: invalid value '{word}' for '[{ADDRESSES}]...': invalid IP address syntax

For more information, try '--help'."
    );
}

// The addresses that words spell. The error is the status to end with, and the reason was said.
fn asked_of<'a, R: Eprint + AllocGlobal>(
    rt: &R,
    words: &[&'a str],
) -> Result<Vec<Asked<'a>>, Status> {
    let mut asked = Vec::new(rt.alloc());
    'words: for word in words {
        let Some(address) = Asked::read(word) else {
            refuse_word(rt, word);
            return Err(Status::BadCommandLine);
        };
        if asked.push(address).is_err() {
            return Err(out_of_memory(rt));
        }
    }
    Ok(asked)
}

// Tells of the file at a path.
fn tell_of_file<R>(rt: &R, path: &str, asked: &[Asked<'_>]) -> Status
where
    R: Files + Print + Eprint + AllocGlobal,
{
    let mut file = match open_file(rt, TextFile::new(path, Devices::MAX_TEXT)) {
        Ok(file) => file,
        Err(status) => return status,
    };
    let outcome = tell(rt.alloc(), asked, &mut file, &mut io::writer(rt));
    match outcome {
        Ok(ListingEnd::Refused) => name_devices_lint(rt, path),
        Ok(_) => {}
        Err(fault) => complain_of_devices(rt, path, fault),
    }
    Status::of_listing(outcome)
}

/// Prints what a devices' file has, which device each address of the command line is, or what is
/// wrong with the file or probably not meant.
pub fn devices<R>(rt: &R, matches: &ArgMatches<'_>) -> Status
where
    R: Files + Print + Eprint + AllocGlobal,
{
    let path = word_of(matches, FILE);
    if matches.get_flag(LINT) {
        return lint_file(rt, path);
    }
    let words = matches.get_strs(ADDRESSES).unwrap_or(&[]);
    match asked_of(rt, words) {
        Ok(asked) => tell_of_file(rt, path, asked.as_slice()),
        Err(status) => status,
    }
}

//! The key of a command line.

use crate::complaint::read_file;
use crate::status::Status;
use crate::text::TextFile;
use basics::split_once;
use std::rt::Files;
use tac_devices::KeyDoubt;
use tac_devices_lint::key_remark;
use tac_wire::Key;

const BAD_KEY: &str =
    "error: invalid value for '--key <K>': it is not 1 to 128 printable ASCII characters

For more information, try '--help'.";

/// The most bytes that a key's file has.
const MAX_KEY_FILE: usize = 65_536;

// The key of a word of the command line. What is said of it doesn't show it.
fn key_of_word<R: Eprint>(rt: &R, word: &str) -> Result<Key, Status> {
    match Key::read(word.as_bytes()) {
        Some(key) => Ok(key),
        None => {
            let _ = eprintln!(rt; "{BAD_KEY}");
            Err(Status::BadCommandLine)
        }
    }
}

// What comes before the first LF, or all where there is none.
fn first_line(text: &[u8]) -> &[u8] {
    match split_once(text, b'\n') {
        Some((line, _)) => line,
        None => text,
    }
}

// Says so where it is doubtful that this line is the key that was meant. It is the key all the
// same.
fn doubt<R: Eprint>(rt: &R, path: &str, line: &[u8]) {
    if let Some(doubt) = KeyDoubt::of(line) {
        let _ = eprintln!(rt; "tacd: {path}: {doubt}");
    }
}

// Says which byte keeps this line from being a key, if one does.
fn name_byte<R: Eprint>(rt: &R, path: &str, line: &[u8]) {
    if let Some(remark) = key_remark(line) {
        let _ = eprintln!(rt; "tacd: {path}: {remark}");
    }
}

// The key that is the first line of a file, up to its LF, or all of the file where it has none.
fn key_of_file<R: Files + Eprint + AllocGlobal>(rt: &R, path: &str) -> Result<Key, Status> {
    let text = read_file(rt, TextFile::secret(path, MAX_KEY_FILE))?;
    let line = first_line(text.as_slice());
    match Key::read(line) {
        Some(key) => {
            doubt(rt, path, line);
            Ok(key)
        }
        None => {
            let _ = eprintln!(rt;
                "tacd: {path}: its first line is not 1 to 128 printable ASCII characters"
            );
            name_byte(rt, path, line);
            Err(Status::BadCommandLine)
        }
    }
}

/// The key that is this word of the command line, or else the one in the file at this path. The
/// error is the status to end with, and the reason was said.
pub fn key_of<R: Files + Eprint + AllocGlobal>(
    rt: &R,
    word: Option<&str>,
    path: Option<&str>,
) -> Result<Key, Status> {
    match (word, path) {
        (Some(word), _) => key_of_word(rt, word),
        (None, Some(path)) => key_of_file(rt, path),
        (None, None) => Err(Status::BadCommandLine),
    }
}

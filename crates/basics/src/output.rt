//! Writing out, with a count of what was taken.

ghost use Rattle.std.specs.Prelude.{◌≡◌, ◌≤◌, ◌<◌, length, take, OnOk, OnErr};
ghost use Rattle.std.specs.Io.KnownBytes.{Appends};

use std::io::{ErrorKind, Write};

/// The writer failed, or took nothing of what was left.
#[derive(Clone, Copy, Debug, PartialEq, Eq)]
pub struct SendFailed;

/// Writes the bytes, and answers how many were taken: all of them, or those before the failure,
/// which comes only while some are left.
///
/// `write_all` of the standard library says nothing of what was written before an error. An
/// interrupted write is tried again; a write that takes nothing is a failure, and so is any other
/// error. Neither is tried a second time.
pub fn send<W: Write>(writer: &mut W, bytes: &[u8]) -> (usize, Result<(), SendFailed>)
    ensures bound { result.0 ≤ length bytes.now }
    ensures taken { Appends (W.contents writer.old) (W.contents writer.new)
        (take result.0 bytes.now) }
    ensures all { OnOk result.1 (result.0 ≡ length bytes.now) }
    ensures some_left { OnErr result.1 (result.0 < length bytes.now) }
{
    let mut sent = 0;
    'writes: for _ in 0..u64::MAX {
        if sent >= bytes.len() {
            return (sent, Ok(()));
        }
        match writer.write(&bytes[sent..]) {
            Ok(0) => return (sent, Err(SendFailed)),
            Ok(n) => sent += n,
            Err(e) => {
                if e.kind() != ErrorKind::Interrupted {
                    return (sent, Err(SendFailed));
                }
            }
        }
    }
    if sent >= bytes.len() {
        return (sent, Ok(()));
    }
    (sent, Err(SendFailed))
}

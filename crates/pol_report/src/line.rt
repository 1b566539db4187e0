//! Lines that automata found.

ghost use Rattle.std.specs.Prelude.{◌≡◌, IfOk};
ghost use Rattle.std.specs.Option.{option_map};

use basics::Bytes;
use std::alloc::{AllocError, Global};

/// The line, as contracts compare it.
pub(crate) fn line_of(found: Option<Vec<u8>>) -> Option<Bytes>
    ensures { result ≡ option_map (λ line. line.items) found }
{
    match found {
        Some(line) => Some(Bytes::from(line)),
        None => None,
    }
}

/// A copy of the line, if there is one.
pub(crate) fn copied(alloc: Global, line: &Option<Bytes>) -> Result<Option<Bytes>, AllocError>
    ensures { IfOk result (λ copy. copy ≡ line.now) }
{
    match line {
        Some(line) => {
            let copy = line.copy(alloc)?;
            Ok(Some(copy))
        }
        None => Ok(None),
    }
}

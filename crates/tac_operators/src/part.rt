//! What a line of an operator has to do with the batch of the console.

ghost use Rattle.std.specs.Prelude.{◌≡◌, IfOk};
ghost use Rattle.tac_operators.specs.Holding.{part_of};

use pol_edit::{EditFault, read_edit};
use std::alloc::{AllocError, Global};

/// What a line has to do with the batch.
#[derive(Clone, Copy, PartialEq, Eq)]
pub(crate) enum Part {
    /// It begins one.
    Begins,
    /// It is an edit, which an open batch keeps.
    Edits,
    /// It makes the edits of the batch, or drops them.
    Ends,
    /// It is no line of a batch.
    Beside,
}

impl Part {
    /// That of a line, without its LF. The error means that memory ran out to read an edit.
    pub(crate) fn of(alloc: Global, line: &[u8]) -> Result<Part, AllocError>
        ensures { IfOk result (λ part. part ≡ part_of line.now) }
    {
        if line == b"begin".as_slice() {
            return Ok(Part::Begins);
        }
        if line == b"commit".as_slice() || line == b"abandon".as_slice() {
            return Ok(Part::Ends);
        }
        match read_edit(alloc, line) {
            Ok(_) => Ok(Part::Edits),
            Err(EditFault::BadEdit) => Ok(Part::Beside),
            Err(_) => Err(AllocError),
        }
    }
}

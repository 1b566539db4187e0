//! The line of what is noted of a connection.

ghost use Rattle.std.specs.Prelude.{◌≡◌, IfOk};
ghost use Rattle.tac_audit.specs.Noted.{noted_of};
ghost use Rattle.tac_journal.specs.Lines.{IsLineAt};

use basics::Bytes;
use std::alloc::{AllocError, Global};
use tac_audit::{Notice, Origin, push_line};

/// The line of a notice of this origin at this time, if it has one. The error means that memory ran
/// out.
pub(crate) fn line_of(
    alloc: Global,
    time: &Bytes,
    origin: &Origin,
    notice: &Notice,
) -> Result<Option<Vec<u8>>, AllocError>
    ensures { IfOk result
        (λ line. IsLineAt time.now origin.now (noted_of notice.now) line) }
{
    let mut line = Vec::new(alloc);
    if push_line(alloc, &mut line, Some(time), origin, notice)? {
        Ok(Some(line))
    } else {
        Ok(None)
    }
}

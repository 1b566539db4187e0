//! Copies of the records that a book keeps.

ghost use Rattle.std.specs.Prelude.{◌≡◌, IfOk};
ghost use Rattle.tac_tally.specs.Book.{items};
ghost use Rattle.tac_desk.specs.Reporting.{numbered_after};

use basics::Sequence;
use std::alloc::{AllocError, Global};
use tac_desk::Numbered;
use tac_tally::{Book, Record};

/// Copies of the records, in order.
pub(crate) fn copy_records(
    alloc: Global,
    records: &[Record],
) -> Result<Sequence<Record>, AllocError>
    ensures { IfOk result (λ copy. copy ≡ records.now) }
{
    let mut copies = Sequence::new(alloc);
    for record in records {
        let copy = record.copy(alloc)?;
        copies.push(copy)?;
    }
    Ok(copies)
}

/// Copies of the records that the book keeps, in order, each with its number.
pub(crate) fn numbered(alloc: Global, book: &Book) -> Result<Sequence<Numbered>, AllocError>
    ensures { IfOk result
        (λ copies. copies ≡ numbered_after book.now.forgotten (items book.now.entries)) }
{
    let mut copies = Sequence::new(alloc);
    let mut number = book.forgotten();
    'records: for record in book.records() {
        number += 1;
        let item = record.copy(alloc)?;
        copies.push(Numbered { number, item })?;
    }
    Ok(copies)
}

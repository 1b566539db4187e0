//! A finding and its place.

ghost use Rattle.std.specs.Prelude.{◌≡◌, ◌++◌, OnOk};
ghost use Rattle.pol_words.specs.Places.{column_of as column_wanted, found_at, noted};

use crate::finding::Finding;
use basics::Sequence;
use std::alloc::AllocError;

/// What is told at a place of a text: lines and columns count from 1, columns by bytes.
#[derive(Clone, Copy)]
pub struct Remark {
    pub line: usize,
    pub column: usize,
    pub finding: Finding,
}

/// What is told at a column of a line.
#[derive(Clone, Copy)]
pub struct Found {
    pub column: usize,
    pub finding: Finding,
}

/// The column at which this end of a line begins.
pub fn column_of(line: &[u8], end: &[u8]) -> usize
    ensures { result ≡ column_wanted line.now end.now }
{
    line.len().saturating_sub(end.len()) + 1
}

impl Found {
    /// What is told at the column at which this end of a line begins.
    pub fn at(line: &[u8], end: &[u8], finding: Finding) -> Found
        ensures { result ≡ found_at line.now end.now finding }
    {
        Found {
            column: column_of(line, end),
            finding,
        }
    }
}

/// Adds what is told of a line, if anything is.
pub fn note(
    remarks: &mut Sequence<Remark>,
    line: usize,
    found: Option<Found>,
) -> Result<(), AllocError>
    ensures { OnOk result (remarks.new ≡ remarks.old ++ noted line found) }
{
    if let Some(Found { column, finding }) = found {
        remarks.push(Remark {
            line,
            column,
            finding,
        })?;
    }
    Ok(())
}

//! A finding and its place.

ghost use Rattle.std.specs.Prelude.{◌≡◌, ◌++◌, OnOk};
ghost use Rattle.tac_devices_lint.specs.Places.{InLine, noted, column_of as column_wanted};

use crate::finding::Finding;
use basics::Sequence;
use std::alloc::AllocError;
use std::fmt;

/// What is told at a place of a text: lines and columns count from 1, columns by bytes.
#[derive(Clone, Copy)]
pub struct Remark {
    pub line: usize,
    pub column: usize,
    pub finding: Finding,
}

impl fmt::Display for Remark {
    fn fmt<W: fmt::Write>(&self, f: &mut fmt::Formatter<W>) -> fmt::Result {
        let Remark {
            line,
            column,
            finding,
        } = self;
        write!(f, "line {line} column {column}: {finding}")
    }
}

/// What is told at a column of a line.
#[derive(Clone, Copy)]
pub(crate) struct Found {
    pub(crate) column: usize,
    pub(crate) finding: Finding,
}

/// What is told at the column at which this end of a line begins.
pub(crate) fn placed(line: &[u8], end: &[u8], finding: Finding) -> Found
    ensures exact { result ≡ record {
      column = column_wanted line.now end.now;
      finding = finding;
    } }
    ensures inside { InLine line.now result.column }
{
    Found {
        column: line.len().saturating_sub(end.len()) + 1,
        finding,
    }
}

/// Adds what is told of a line, if anything is.
pub(crate) fn note(
    remarks: &mut Sequence<Remark>,
    line: usize,
    found: Option<Found>,
) -> Result<(), AllocError>
    ensures { OnOk result (remarks.new ≡ remarks.old ++ noted line found) }
{
    if let Some(found) = found {
        remarks.push(Remark {
            line,
            column: found.column,
            finding: found.finding,
        })?;
    }
    Ok(())
}

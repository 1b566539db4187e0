//! The lines of a table of questions or cases.

ghost use Rattle.std.specs.Prelude.{◌≡◌, ◌++◌, IfOk, Ok};
ghost use Rattle.basics.specs.Lines.{lines_of};
ghost use Rattle.tac_review.specs.Tables as tables;

use crate::asking::{add_answer, question};
use crate::case::{add_instead, case, is_so};
use crate::task::Table;
use basics::{Bytes, Lines, without_leading_spaces};
use pol_live::Live;
use std::alloc::{AllocError, Global};
use std::io;
use std::io::Write;

// A question, and what it is answered.
fn answered(alloc: Global, live: &Live, line: &[u8]) -> Result<Option<Bytes>, AllocError>
    ensures { IfOk result (λ told. told ≡ tables.question_told live.now line.now) }
{
    let Some(query) = question(alloc, line)? else {
        return Ok(None);
    };
    let mut told = Vec::new(alloc);
    told.extend_from_slice(line)?;
    told.extend_from_slice(b": ")?;
    add_answer(alloc, &mut told, live, &query)?;
    Ok(Some(Bytes::from(told)))
}

// The error means that memory ran out.
fn write_number(out: &mut Vec<u8>, number: usize) -> Result<(), AllocError>
    ensures { IfOk result (λ _. out.new.items ≡ out.old.items ++ tables.numbered number) }
{
    match write!(out, "line {number}: ") {
        Ok(()) => Ok(()),
        Err(_) => Err(AllocError),
    }
}

// A case that isn't so, with what is so in place of it; nothing is told of one that is so.
fn judged(
    alloc: Global,
    live: &Live,
    number: usize,
    line: &[u8],
) -> Result<Option<Bytes>, AllocError>
    ensures { IfOk result (λ told. told ≡ tables.case_told live.now number line.now) }
{
    let Some((want, query)) = case(alloc, line)? else {
        return Ok(None);
    };
    let mut told = Vec::new(alloc);
    if is_so(alloc, live, &want, &query)? {
        return Ok(Some(Bytes::from(told)));
    }
    write_number(&mut told, number)?;
    told.extend_from_slice(line)?;
    told.extend_from_slice(b": ")?;
    add_instead(alloc, &mut told, live, &want, &query)?;
    Ok(Some(Bytes::from(told)))
}

// What is told of a line of a table. Nothing of an invalid one.
fn line_told(
    alloc: Global,
    live: &Live,
    table: Table,
    number: usize,
    line: &[u8],
) -> Result<Option<Bytes>, AllocError>
    ensures { IfOk result (λ told. told ≡ tables.line_told table live.now number line.now) }
{
    if let [] | [b'#', ..] = line {
        return Ok(Some(Bytes::new(alloc)));
    }
    match table {
        Table::Questions => answered(alloc, live, line),
        Table::Cases => judged(alloc, live, number, line),
    }
}

/// What is told of all lines of a table; or the number of the first that is invalid.
pub(crate) fn tell(
    alloc: Global,
    live: &Live,
    table: Table,
    text: &[u8],
) -> Result<Result<Bytes, usize>, AllocError>
    ensures { IfOk result (λ told. told ≡ tables.tells table live.now 1 (lines_of text.now)) }
{
    let mut told = Bytes::new(alloc);
    let mut lines = Lines::new(text);
    'lines: while let Some((number, line)) = lines.take_line() {
        match line_told(alloc, live, table, number, without_leading_spaces(line))? {
            Some(line) => told.extend_from_slice(line.as_slice())?,
            None => return Ok(Err(number)),
        }
    }
    Ok(Ok(told))
}

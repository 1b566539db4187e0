//! What may stand and is remarked on, at its place.

ghost use Rattle.std.specs.Prelude.{◌≡◌, ◌++◌, All, List, IfOk, OnOk};
ghost use Rattle.tac_devices_lint.specs.Places.{InLine, IsPlaced, IsOfLine};
ghost use Rattle.tac_devices_lint.specs.declared.remark.Remark.{Remark as RemarkValue};

use crate::clash::line_words;
use crate::finding::Finding;
use crate::remark::{Found, Remark, note, placed};
use basics::{Lines, Sequence};
use std::alloc::{AllocError, Global};
use tac_devices::Remark as Doubt;

fn line_of(doubt: &Doubt) -> usize {
    match doubt {
        Doubt::SameKey { line, .. }
        | Doubt::ShortKey { line, .. }
        | Doubt::Doubtful { line, .. }
        | Doubt::OldKeyBesideTls { line, .. }
        | Doubt::SameName { line, .. } => *line,
    }
}

// A doubt about the value of a line.
fn found_doubt(line: &[u8], doubt: Doubt) -> Found
    ensures { InLine line.now result.column }
{
    match line_words(line) {
        Some((_, value)) => placed(line, value, Finding::Doubt(doubt)),
        None => placed(line, line, Finding::Doubt(doubt)),
    }
}

// Adds those of these doubts that are about lines up to this one, and answers the others.
fn note_doubts<'a>(
    remarks: &mut Sequence<Remark>,
    doubts: &'a [Doubt],
    number: usize,
    line: &[u8],
) -> Result<&'a [Doubt], AllocError>
    ensures { OnOk result ((told : List RemarkValue) × All (IsOfLine number line.now) told
        × (remarks.new ≡ remarks.old ++ told)) }
{
    let mut rest = doubts;
    'doubts: while let [doubt, after @ ..] = rest {
        if line_of(doubt) > number {
            return Ok(rest);
        }
        note(remarks, number, Some(found_doubt(line, *doubt)))?;
        rest = after;
    }
    Ok(rest)
}

// The remarks that doubts are, which are sorted by their lines.
fn place_doubts(
    alloc: Global,
    text: &[u8],
    doubts: &[Doubt],
) -> Result<Sequence<Remark>, AllocError>
    ensures { IfOk result (All (IsPlaced text.now)) }
{
    let mut lines = Lines::new(text);
    let mut remarks = Sequence::new(alloc);
    let mut rest = doubts;
    'lines: while let Some((number, line)) = lines.take_line() {
        rest = note_doubts(&mut remarks, rest, number, line)?;
    }
    Ok(remarks)
}

/// The remarks that these doubts about devices of a text are, in the order of its lines.
pub(crate) fn doubt_remarks(
    alloc: Global,
    text: &[u8],
    doubts: Sequence<Doubt>,
) -> Result<Sequence<Remark>, AllocError>
    ensures { IfOk result (All (IsPlaced text.now)) }
{
    let mut doubts = doubts.into_vec();
    doubts.sort_by_key(|doubt| line_of(doubt))?;
    place_doubts(alloc, text, doubts.as_slice())
}

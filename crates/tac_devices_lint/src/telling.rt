//! How a lint is printed, and what a devices' file looks like.

ghost use Rattle.std.specs.Prelude.{IfOk};
ghost use Rattle.tac_devices_lint.specs.Ends.{IsEnd};

use crate::clash::line_words;
use crate::lint::{DevicesLintEnd, lint_devices};
use crate::remark::Remark;
use crate::word::LineWord;
use basics::{Lines, without_leading_spaces};
use std::alloc::{AllocError, Global};
use std::io;
use std::io::Write;

fn write_remarks(out: &mut Vec<u8>, remarks: &[Remark]) -> io::Result<()> {
    'remarks: for remark in remarks {
        writeln!(out, "{remark}")?;
    }
    Ok(())
}

/// What is told of the text of a devices' file, a line `line N column M: TEXT` for each, and how it
/// ends. The error means that memory ran out.
pub fn print_lint(alloc: Global, text: &[u8]) -> Result<(Vec<u8>, DevicesLintEnd), AllocError>
    ensures { IfOk result (λ told. IsEnd text.now told.1) }
{
    let lint = lint_devices(alloc, text)?;
    let mut out = Vec::new(alloc);
    match write_remarks(&mut out, lint.remarks.as_slice()) {
        Ok(()) => Ok((out, lint.end)),
        Err(_) => Err(AllocError),
    }
}

// Whether nothing stands on a line, which may end in CR LF, or a comment.
fn is_blank(line: &[u8]) -> bool {
    matches!(without_leading_spaces(line), [] | [b'#' | b'\r', ..])
}

/// Whether the first line of a text that has more than a comment begins a device.
pub fn is_devices_text(text: &[u8]) -> bool {
    let mut lines = Lines::new(text);
    'lines: while let Some((_, line)) = lines.take_line() {
        if !is_blank(line) {
            return matches!(line_words(line), Some((LineWord::Device, _)));
        }
    }
    false
}

//! The lint of a policy's text, from bytes to bytes.

ghost use Rattle.std.specs.Prelude.{OnOk};
ghost use Rattle.std.specs.Io.KnownBytes.{IsAtEnd};
ghost use Rattle.pol_pattern.specs.Matching.{MatchLaw};
ghost use Rattle.tac_io.specs.Answering.{IsAnswered, IsWorked};
ghost use Rattle.tac_review.specs.Lint.{IsOnlyLint};

use crate::lint_output::output;
use std::alloc::Global;
use std::io::{Read, Write};
use tac_io::{AnswerFault, InputFault, MAX_INPUT, read_whole, write_answer};

/// How a lint ended.
#[derive(Clone, Copy, Debug, PartialEq, Eq)]
pub enum LintEnd {
    /// The policy may stand, and nothing was told of it.
    Quiet,
    /// The policy may stand, and something was told of it.
    Told,
    /// The policy is refused, and why was told.
    Refused,
}

// Reads a text, and works out what is told of it.
fn answer<R: Read>(alloc: Global, reader: &mut R) -> Result<(Vec<u8>, LintEnd), InputFault>
    ensures end { OnOk result (IsAtEnd (R.remaining reader.new)) }
    ensures worked { IsWorked IsOnlyLint (R.remaining reader.old) result }
{
    let text = read_whole(alloc, reader, MAX_INPUT)?;
    let (printed, end) = output(alloc, text.as_slice())?;
    Ok((printed, end))
}

/// Reads a policy's text to its end, and writes what in it is right and probably not meant, or all
/// that keeps it from being a policy, a line `line N column M: TEXT` for each (docs/LINT.md).
/// What is asked about a policy that may stand isn't defined.
pub fn lint<R: Read, W: Write>(
    alloc: Global,
    reader: &mut R,
    writer: &mut W,
) -> Result<LintEnd, AnswerFault>
    // The whole input was read.
    ensures read { OnOk result (IsAtEnd (R.remaining reader.new)) }

    // What was written is what is told of the text, and the end is its end; or what a fault leaves:
    // nothing, a beginning of the output, or of the line that says Memory.
    ensures answered { IsAnswered IsOnlyLint (R.remaining reader.old)
        (W.contents writer.old) (W.contents writer.new) result }

    // Whether a pattern matches a line by the definitions is whether its set of texts has it.
    ensures matching { MatchLaw }
{
    write_answer(writer, answer(alloc, reader))
}

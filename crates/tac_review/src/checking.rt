//! The check of a policy's text, from bytes to bytes.

ghost use Rattle.std.specs.Prelude.{OnOk};
ghost use Rattle.std.specs.Io.KnownBytes.{IsAtEnd};
ghost use Rattle.pol_pattern.specs.Matching.{MatchLaw};
ghost use Rattle.tac_io.specs.Answering.{IsAnswered, IsWorked};
ghost use Rattle.tac_review.specs.Check.{IsOnlyCheck};

use crate::check_output::output;
use std::alloc::Global;
use std::io::{Read, Write};
use tac_io::{AnswerFault, InputFault, MAX_INPUT, read_whole, write_answer};

/// How a check ended.
#[derive(Clone, Copy, Debug, PartialEq, Eq)]
pub enum CheckEnd {
    /// The policy may stand, and was reported on.
    Sound,
    /// The policy is refused, and the reason was printed.
    Refused,
}

// Reads a text, and works out what its check prints.
fn answer<R: Read>(alloc: Global, reader: &mut R) -> Result<(Vec<u8>, CheckEnd), InputFault>
    ensures end { OnOk result (IsAtEnd (R.remaining reader.new)) }
    ensures worked { IsWorked IsOnlyCheck (R.remaining reader.old) result }
{
    let text = read_whole(alloc, reader, MAX_INPUT)?;
    let (printed, end) = output(alloc, text.as_slice())?;
    Ok((printed, end))
}

/// Checks the policy whose text the reader gives, and writes what is wrong with it, or how much it
/// has and which of its rules decide nothing (docs/POLICY.md, "Checking a policy"). The whole text
/// is read first. Most of the time and memory goes into the automata of the policy's subjects.
pub fn check<R: Read, W: Write>(
    alloc: Global,
    reader: &mut R,
    writer: &mut W,
) -> Result<CheckEnd, AnswerFault>
    // The whole input was read.
    ensures read { OnOk result (IsAtEnd (R.remaining reader.new)) }

    // What was written is exactly the check's output, the end is the check's, and no others are;
    // or what a fault leaves.
    ensures answered { IsAnswered IsOnlyCheck (R.remaining reader.old)
        (W.contents writer.old) (W.contents writer.new) result }

    // Whether a pattern matches a line by the definitions is whether its set of texts has it.
    ensures matching { MatchLaw }
{
    write_answer(writer, answer(alloc, reader))
}

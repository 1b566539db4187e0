//! The review of two inputs, from bytes to bytes.

ghost use Rattle.std.specs.Prelude.{OnOk};
ghost use Rattle.std.specs.Io.KnownBytes.{IsAtEnd};
ghost use Rattle.pol_pattern.specs.Matching.{MatchLaw};
ghost use Rattle.tac_io.specs.Answering.{IsWorked};
ghost use Rattle.tac_review.specs.Devices.{ComparesSent, TellsDevices};
ghost use Rattle.tac_review.specs.Review.{IsRight, Reviews};
ghost use Rattle.tac_review.specs.Reading.{AreAnswered, IsNotRead};

use crate::review_output::output;
use crate::task::{Input, Review, ReviewEnd, ReviewFault};
use std::alloc::Global;
use std::io::{Read, Write};
use tac_io::{AnswerFault, InputFault, MAX_INPUT, read_whole, write_answer};

// Reads the second text, and works out what is printed of both.
fn answer<S: Read>(
    alloc: Global,
    review: Review,
    names: (&[u8], &[u8]),
    first: &[u8],
    second: &mut S,
) -> Result<(Vec<u8>, ReviewEnd), InputFault>
    ensures end { OnOk result (IsAtEnd (S.remaining second.new)) }
    ensures worked { IsWorked (λ text output end. IsRight review
        (Reviews review names.entry.0.now names.entry.1.now first.now text) output end)
        (S.remaining second.old) result }
{
    let text = read_whole(alloc, second, MAX_INPUT)?;
    let (printed, end) = output(alloc, review, names, (first, text.as_slice()))?;
    Ok((printed, end))
}

// Writes that memory ran out, if that is why an input wasn't read.
fn unread<W: Write>(writer: &mut W, fault: InputFault) -> AnswerFault
    ensures { IsNotRead (W.contents writer.old) (W.contents writer.new) fault result }
{
    let answer: Result<(Vec<u8>, ReviewEnd), InputFault> = Err(fault);
    match write_answer(writer, answer) {
        Err(fault) => fault,
        Ok(_) => unreachable!(),
    }
}

/// Reviews two inputs, of which the first is a policy's text, and writes what is found
/// (docs/REVIEW.md). Each has a name, by which it is called where it is refused: the first is
/// judged first. Both are read before anything is written.
pub fn review<R: Read, S: Read, W: Write>(
    alloc: Global,
    review: Review,
    names: (&[u8], &[u8]),
    first: &mut R,
    second: &mut S,
    writer: &mut W,
) -> Result<ReviewEnd, ReviewFault>
    // Both inputs were read whole.
    ensures first { OnOk result (IsAtEnd (R.remaining first.new)) }
    ensures second { OnOk result (IsAtEnd (S.remaining second.new)) }

    // What was written is exactly the review's output, the end is the review's, and no others are,
    // except where edits are printed; or what a fault leaves: nothing, a beginning of the output,
    // or of the line that says Memory.
    ensures answered { AreAnswered (λ one two output end. IsRight review
        (Reviews review names.entry.0.now names.entry.1.now one two) output end)
        (R.remaining first.old) (S.remaining second.old)
        (W.contents writer.old) (W.contents writer.new) result }

    // Whether a pattern matches a line by the definitions is whether its set of texts has it: so
    // the least line that a policy permits is the least of these sets.
    ensures matching { MatchLaw }

    // What is told to be given for a service is what the desk answers a device that asks for it.
    ensures devices { TellsDevices }

    // So it is with what is told to change of services: this is compared.
    ensures compared { ComparesSent }
{
    let one = match read_whole(alloc, first, MAX_INPUT) {
        Ok(text) => text,
        Err(fault) => {
            return Err(ReviewFault {
                input: Input::First,
                fault: unread(writer, fault),
            });
        }
    };
    match write_answer(writer, answer(alloc, review, names, one.as_slice(), second)) {
        Ok(end) => Ok(end),
        Err(fault) => Err(ReviewFault {
            input: Input::Second,
            fault,
        }),
    }
}

//! Writing what an input is answered.

ghost use Rattle.tac_io.specs.Answering.{IsWritten};

use crate::reading::InputFault;
use basics::send;
use std::io::Write;
use thiserror::Error;

/// The most bytes that an input has.
pub const MAX_INPUT: usize = 268_435_456;

/// Why an input isn't answered, or not to the end.
#[derive(Clone, Copy, Debug, PartialEq, Eq, Error)]
pub enum AnswerFault {
    /// The input could not be read. Nothing was written.
    #[error("it could not be read")]
    ReadFault,
    /// The input is too long. Nothing was written.
    #[error("it is over 268435456 bytes long")]
    TooLong,
    /// The output could not be written whole.
    #[error("the output could not be written")]
    WriteFault,
    /// Memory ran out, and that was written.
    #[error("memory ran out")]
    Memory,
    /// Memory ran out, and that could not be written whole.
    #[error("memory ran out")]
    Untold,
}

/// The line that is written where memory ran out.
const MEMORY_LINE: &[u8] = b"fault Memory\n";

/// Writes what was worked out of an input, and answers what came with it; writes the line
/// `fault Memory` where memory ran out.
pub fn write_answer<W: Write, E: Drop>(
    writer: &mut W,
    answer: Result<(Vec<u8>, E), InputFault>,
) -> Result<E, AnswerFault>
    ensures { IsWritten (W.contents writer.old) (W.contents writer.new) answer result }
{
    match answer {
        Ok((text, end)) => {
            let (_, sent) = send(writer, text.as_slice());
            match sent {
                Ok(()) => Ok(end),
                Err(_) => Err(AnswerFault::WriteFault),
            }
        }
        Err(InputFault::Failed) => Err(AnswerFault::ReadFault),
        Err(InputFault::TooLong) => Err(AnswerFault::TooLong),
        Err(InputFault::Memory) => {
            let (_, sent) = send(writer, MEMORY_LINE);
            match sent {
                Ok(()) => Err(AnswerFault::Memory),
                Err(_) => Err(AnswerFault::Untold),
            }
        }
    }
}

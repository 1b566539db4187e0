//! The replay of a script, from bytes to bytes.

ghost use Rattle.std.specs.Prelude.{IfOk, OnOk};
ghost use Rattle.std.specs.Io.KnownBytes.{IsAtEnd};
ghost use Rattle.pol_pattern.specs.Matching.{MatchLaw};
ghost use Rattle.pol_meaning.specs.Deciding.{DecisionLaw};
ghost use Rattle.tac_io.specs.Answering.{IsWorked};
ghost use Rattle.tac_server.specs.Replay.{fault_by, IsReplayed};
ghost use Rattle.tac_server.specs.Script.{IsWorkedOut};
ghost use Rattle.tac_server.specs.Spelling.{EventLaw};

use crate::noticed::Noticed;
use crate::script::run_script;
use crate::script_fault::Stop;
use std::alloc::{AllocError, Global};
use std::io::{Read, Write};
use tac_audit::{Nobody, Witness};
use tac_io::{AnswerFault, InputFault, MAX_INPUT, read_whole, write_answer};
use thiserror::Error;

/// How a replay ended.
#[derive(Clone, Copy, Debug, PartialEq, Eq)]
pub enum ReplayEnd {
    /// All lines were done.
    Done,
    /// The fault of a line was printed.
    Refused,
}

/// Why a replay wasn't finished.
#[derive(Clone, Copy, Debug, PartialEq, Eq, Error)]
pub enum ReplayFault {
    /// The script could not be read, or is too long. Nothing was written.
    #[error("the script could not be read, or is over 268435456 bytes long")]
    ReadFault,
    /// The output could not be written whole.
    #[error("the output could not be written")]
    WriteFault,
    /// Memory ran out. The line that says so was written, or as much of it as the writer took.
    #[error("memory ran out")]
    Memory,
}

impl From<AnswerFault> for ReplayFault {
    ghost use Rattle.std.specs.Prelude.{◌≡◌};
    ghost use Rattle.tac_server.specs.Replay.{fault_by};

    ghost from_gives = { λ fault replay. replay ≡ fault_by fault };

    fn from(fault: AnswerFault) -> ReplayFault {
        match fault {
            AnswerFault::ReadFault | AnswerFault::TooLong => ReplayFault::ReadFault,
            AnswerFault::WriteFault => ReplayFault::WriteFault,
            AnswerFault::Memory | AnswerFault::Untold => ReplayFault::Memory,
        }
    }
}

// What a script prints, and how its replay ends.
fn output<W: Witness<Noticed>>(
    alloc: Global,
    script: &[u8],
    witness: &mut W,
) -> Result<(Vec<u8>, ReplayEnd), AllocError>
    ensures { IfOk result (λ output. IsWorkedOut script.now output.0.items output.1) }
{
    let mut text = Vec::new(alloc);
    match run_script(alloc, script, &mut text, witness) {
        Ok(()) => Ok((text, ReplayEnd::Done)),
        Err(Stop::Fault(at)) => {
            match writeln!(text, "{at}") {
                Ok(()) => Ok((text, ReplayEnd::Refused)),
                Err(_) => Err(AllocError),
            }
        }
        Err(Stop::Memory) => Err(AllocError),
    }
}

// Reads a script, and works out what it prints.
fn answer<R: Read, W: Witness<Noticed>>(
    alloc: Global,
    reader: &mut R,
    witness: &mut W,
) -> Result<(Vec<u8>, ReplayEnd), InputFault>
    ensures end { OnOk result (IsAtEnd (R.remaining reader.new)) }
    ensures worked { IsWorked IsWorkedOut (R.remaining reader.old) result }
{
    let script = read_whole(alloc, reader, MAX_INPUT)?;
    let (text, end) = output(alloc, script.as_slice(), witness)?;
    Ok((text, end))
}

/// Runs the script that the reader gives, and writes what that prints (docs/SCRIPT.md). The whole
/// script is read first; for a given policy, time and memory are linear in it.
pub fn replay<R: Read, W: Write>(
    alloc: Global,
    reader: &mut R,
    writer: &mut W,
) -> Result<ReplayEnd, ReplayFault>
    // The whole input was read.
    ensures read { OnOk result (IsAtEnd (R.remaining reader.new)) }

    // What was written is exactly the script's output, the end is the script's, and no others are;
    // or what a fault leaves.
    ensures replayed { IsReplayed (R.remaining reader.old)
        (W.contents writer.old) (W.contents writer.new) result }

    // Whether a pattern matches a line by the definitions is whether its set of texts has it.
    ensures matching { MatchLaw }

    // What a policy permits by the definitions is what the sets of its patterns permit.
    ensures law { DecisionLaw }

    // Each line after `run` asks for what it spells, and for nothing else.
    ensures events { EventLaw }
{
    replay_told(alloc, reader, writer, &mut Nobody)
}

/// The same as [`replay`], with a witness, who is told which connections are opened, and of each
/// packet just before its reply is added to what the script prints. It is told before anything is
/// written, and what it refuses makes no difference.
pub fn replay_told<R: Read, W: Write, N: Witness<Noticed>>(
    alloc: Global,
    reader: &mut R,
    writer: &mut W,
    witness: &mut N,
) -> Result<ReplayEnd, ReplayFault>
    // The whole input was read.
    ensures read { OnOk result (IsAtEnd (R.remaining reader.new)) }

    // What was written is exactly the script's output, the end is the script's, and no others are;
    // or what a fault leaves.
    ensures replayed { IsReplayed (R.remaining reader.old)
        (W.contents writer.old) (W.contents writer.new) result }

    // Whether a pattern matches a line by the definitions is whether its set of texts has it.
    ensures matching { MatchLaw }

    // What a policy permits by the definitions is what the sets of its patterns permit.
    ensures law { DecisionLaw }

    // Each line after `run` asks for what it spells, and for nothing else.
    ensures events { EventLaw }
{
    match write_answer(writer, answer(alloc, reader, witness)) {
        Ok(end) => Ok(end),
        Err(fault) => Err(ReplayFault::from(fault)),
    }
}

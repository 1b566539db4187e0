//! The console of a hall, from its first line to the Stop.

ghost use Rattle.std.specs.Prelude.{◌≡◌};
ghost use Rattle.tac_hall_console.specs.Operated.{IsOperated, AreHeard};
ghost use Rattle.tac_hall_console.specs.Operating as operating;

use crate::answering::{Console, write_refused};
use crate::fault::OperatorFault;
use crate::operator::Operator;
use crate::reloading::Source;
use std::alloc::Global;
use std::io::{Read, Write};
use std::sync::Wait;
use tac_audit::{Typing, Witness};
use tac_console::Batch;
use tac_desk::Desk;
use tac_hall::{Call, Hall, Run, Seat};

// Makes the Stop, however the lines before it went. That it is refused is told, unless the console
// has failed.
fn stop<H: Wait, J: Run, D: Desk, W: Write>(
    rt: &H,
    alloc: Global,
    desk: &Hall<J, D>,
    seat: &mut Seat<J>,
    writer: &mut W,
    listened: Result<(), OperatorFault>,
) -> Result<(), OperatorFault>
    ensures { operating.Stops J.opening listened result seat.old seat.new
        (W.contents writer.old) (W.contents writer.new) }
{
    let stopped = desk.call(rt, seat, &Call::Stop);
    listened?;
    if let Err(fault) = stopped {
        return write_refused(alloc, writer, fault);
    }
    Ok(())
}

/// The console of a hall (docs/CONSOLE.md): answers each line before it waits for the next.
/// A line that is an edit or a question is one call of this seat, and its answer is printed.
/// Between `begin` and `commit` edits are kept instead, without a call, and the `commit` is one
/// call with all of them. A call that is refused is told as `refused N REFUSAL`; no batch is open
/// after that of a `commit` either. The line `rotate` ends the present segment, and `reload` puts
/// the policy of the source in the place of the present one, in one call, after one that asks for
/// that. A policy without a user is told as `fault NoUser` where the present one has one, and isn't
/// called for. Where fewer than half of the users are there then, the answer ends in how many are
/// gone. A source without a text is told as `unread WHY`, a text that is refused as by its check,
/// and one that finds no memory as `refused 12 Memory`. `reload devices` makes no call: the source
/// reads its devices' file again, and says the answer, or it is `refused 12 Memory`. These three
/// leave the batch as it is. Any other line is answered by `refused 1 BadEdit`.
///
/// A line `quit`, or the end of the input, makes the Stop, which is one call; so does a fault. It
/// is refused only as Closed, or as LogFull where the log is full. Edits that are kept then are
/// never made. A line ends in LF, which the last may lack. The seat comes back.
///
/// The witness is told of each line with its whole answer before any of that is written, and of
/// `quit`, which has none, before the Stop. The answer is written also where the witness refuses
/// the line. Where memory runs out while a line is answered the witness is told that it has no
/// answer, since what it asks for may have been done. It is told neither of a line that isn't whole
/// nor of the Stop.
///
/// At ReadFault the lines that had ended are answered whole. At WriteFault a beginning of the
/// answers was written. At Memory the answers so far were written whole; the last call may have
/// been made even so, without its answer; or it was a Stop that was refused, and isn't told.
/// Where the Stop was refused, whoever started the console has to stop the desk's callers
/// otherwise. A read or a write that is interrupted is tried again; a write that takes nothing is
/// a fault. It may wait for the desk's lock, the source, the witness, the reader and the writer.
/// Linear in what is read and written, but for what the desk, the source and the witness take.
pub fn operate<H, J: Run, D: Desk, S: Source, V: Witness<Typing>, R: Read, W: Write>(
    rt: &H,
    desk: &Hall<J, D>,
    source: &S,
    seat: Seat<J>,
    witness: &mut V,
    reader: &mut R,
    writer: &mut W,
) -> (Seat<J>, Result<(), OperatorFault>)
where
    H: Wait + AllocGlobal,
    ensures { IsOperated J.opening result.1
        (AreHeard V.takes V.refuses witness.old witness.new) seat result.0
        (R.remaining reader.old) (R.remaining reader.new)
        (W.contents writer.old) (W.contents writer.new) }
{
    let alloc = rt.alloc();
    let console = Console {
        seat,
        batch: Batch::closed(),
    };
    let mut operator = Operator {
        alloc,
        console,
        begun: Vec::new(alloc),
    };
    let listened = operator.listen(rt, desk, source, witness, reader, writer);
    let mut seat = operator.console.seat;
    let end = stop(rt, alloc, desk, &mut seat, writer, listened);
    (seat, end)
}

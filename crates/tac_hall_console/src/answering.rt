//! What is told of a line, and of a call.

ghost use Rattle.std.specs.Prelude.{◌≡◌, ◌++◌, [], Err, IfOk, OnOk, OnErr};
ghost use Rattle.tac_console.specs.Batching.{action_of, batch_after};
ghost use Rattle.tac_console.specs.ConsoleText.{asked_by};
ghost use Rattle.tac_hall.specs.Calls.{IsOfKind};
ghost use Rattle.tac_hall_console.specs.Commands.{is_rotate as rotate_test};
ghost use Rattle.tac_hall_console.specs.Commands.{is_reload as reload_test};
ghost use Rattle.tac_hall_console.specs.Commands.{is_reload_devices as reload_devices_test};
ghost use Rattle.tac_hall_console.specs.Operated as operated;
ghost use Rattle.tac_hall_console.specs.Operated.{CallsFor, ComesTo, answer_text, refusal_line};
ghost use Rattle.tac_hall_console.specs.Operating as operating;

use crate::fault::OperatorFault;
use crate::reloading::{Source, read_source};
use crate::replacing::replace;
use basics::send;
use std::alloc::{AllocError, Global};
use std::io::Write;
use std::sync::Wait;
use tac_console::{
    Action, Batch, read_console, write_batch_answer, write_edit_answer, write_load_answer,
    write_notice, write_query_answer,
};
use tac_desk::Desk;
use tac_hall::{Call, CallAnswer, Hall, HallFault, Rotated, Run, Seat};

// Room for one line, since most answers are one.
const LINE: usize = 64;

// What is told where there is no memory for a policy, or for a devices' file.
const NO_MEMORY: &[u8] = b"refused 12 Memory\n";

/// The seat of a console, and the batch of its lines.
#[derive(Drop)]
pub(crate) struct Console<J: Run> {
    pub(crate) seat: Seat<J>,
    pub(crate) batch: Batch,
}

/// Adds how a call is answered that was made.
pub(crate) fn write_answer(
    alloc: Global,
    out: &mut Vec<u8>,
    call: &Call,
    answer: &CallAnswer,
) -> Result<(), AllocError>
    requires { IsOfKind call.now answer.now }
    ensures { OnOk result (out.new.items ≡ out.old.items ++ answer_text call.now answer.now) }
{
    match (call, answer) {
        (Call::Edit(_), CallAnswer::Edit(Ok(changes))) => {
            write_edit_answer(alloc, out, &Ok(changes.get()))
        }
        (Call::Edit(_), CallAnswer::Edit(Err(fault))) => {
            write_edit_answer(alloc, out, &Err(*fault))
        }
        (Call::Batch(_), CallAnswer::Batch(Ok(changes))) => {
            write_batch_answer(alloc, out, &Ok(changes.get()))
        }
        (Call::Batch(_), CallAnswer::Batch(Err(fault))) => {
            write_batch_answer(alloc, out, &Err(*fault))
        }
        (Call::Load(_), CallAnswer::Edit(Ok(changes))) => {
            write_load_answer(alloc, out, &Ok(changes.get()))
        }
        (Call::Load(_), CallAnswer::Edit(Err(fault))) => {
            write_load_answer(alloc, out, &Err(*fault))
        }
        (Call::Query(query), CallAnswer::Query(Ok(report))) => {
            write_query_answer(alloc, out, query, &Ok(report.get()))
        }
        (Call::Query(query), CallAnswer::Query(Err(fault))) => {
            write_query_answer(alloc, out, query, &Err(*fault))
        }
        _ => Ok(()),
    }
}

/// Adds how it is told that a call or a rotation was refused.
pub(crate) fn write_refusal(out: &mut Vec<u8>, fault: HallFault) -> Result<(), AllocError>
    ensures { OnOk result (out.new.items ≡ out.old.items ++ refusal_line fault) }
{
    match writeln!(out, "refused {fault}") {
        Ok(()) => Ok(()),
        Err(_) => Err(AllocError),
    }
}

// Adds which segment was ended.
fn write_rotated(out: &mut Vec<u8>, rotated: Rotated) -> Result<(), AllocError>
    ensures { OnOk result (out.new.items ≡ out.old.items ++ operated.rotated_line rotated) }
{
    let Rotated { number, entries } = rotated;
    match writeln!(out, "rotated {number} entries {entries}") {
        Ok(()) => Ok(()),
        Err(_) => Err(AllocError),
    }
}

// Ends the present segment, and adds what came of it.
fn rotate<H: Wait, J: Run, D: Desk>(
    rt: &H,
    desk: &Hall<J, D>,
    seat: &mut Seat<J>,
    out: &mut Vec<u8>,
) -> Result<(), AllocError>
    ensures ok { OnOk result (operating.Adds (operated.IsRotation J.opening seat.old) seat.new
        out.old.items out.new.items) }
    ensures err { OnErr result (operating.IsUntold (operated.IsRotation J.opening seat.old)
        seat.old seat.new) }
{
    match desk.rotate(rt, seat) {
        Ok(rotated) => write_rotated(out, rotated),
        Err(fault) => write_refusal(out, fault),
    }
}

// Makes a call, and adds what came of it.
fn tell<H: Wait, J: Run, D: Desk>(
    rt: &H,
    alloc: Global,
    desk: &Hall<J, D>,
    seat: &mut Seat<J>,
    call: &Call,
    out: &mut Vec<u8>,
) -> Result<(), AllocError>
    ensures ok { OnOk result (operating.Adds (CallsFor J.opening seat.old call.now) seat.new
        out.old.items out.new.items) }
    ensures err { OnErr result (operating.IsUntold (CallsFor J.opening seat.old call.now)
        seat.old seat.new) }
{
    match desk.call(rt, seat, call) {
        Ok(receipt) => write_answer(alloc, out, call, &receipt.answer),
        Err(fault) => write_refusal(out, fault),
    }
}

// Does what a line asks of the desk, or tells its notice, and adds what came of it.
fn act<H: Wait, J: Run, D: Desk>(
    rt: &H,
    alloc: Global,
    desk: &Hall<J, D>,
    seat: &mut Seat<J>,
    action: Action,
    out: &mut Vec<u8>,
) -> Result<(), AllocError>
    ensures ok { OnOk result (operating.Adds (ComesTo J.opening seat.old action) seat.new
        out.old.items out.new.items) }
    ensures err { OnErr result (operating.IsUntold (ComesTo J.opening seat.old action)
        seat.old seat.new) }
{
    match action {
        Action::Edit(edit) => tell(rt, alloc, desk, seat, &Call::Edit(edit), out),
        Action::Commit(edits) => tell(rt, alloc, desk, seat, &Call::Batch(edits), out),
        Action::Query(query) => tell(rt, alloc, desk, seat, &Call::Query(query), out),
        Action::Tell(notice) => write_notice(alloc, out, notice),
    }
}

// Puts the policy of the source in the place of the present one, and adds what came of it. A text
// may be as large as memory, so the console goes on where there is none for it.
fn reload<H: Wait, J: Run, D: Desk, S: Source>(
    rt: &H,
    alloc: Global,
    desk: &Hall<J, D>,
    source: &S,
    seat: &mut Seat<J>,
    out: &mut Vec<u8>,
) -> Result<(), AllocError>
    ensures ok { OnOk result (operating.Adds (operated.IsReload J.opening seat.old) seat.new
        out.old.items out.new.items) }
    ensures err { OnErr result (operating.IsUntold (operated.IsReload J.opening seat.old)
        seat.old seat.new) }
{
    match read_source(alloc, source) {
        Ok(Ok(policy)) => replace(rt, alloc, desk, source, seat, policy, out),
        Ok(Err(line)) => out.extend_from_slice(line.as_slice()),
        Err(_) => out.extend_from_slice(NO_MEMORY),
    }
}

// What is answered where the source reads its devices' file again. The console goes on where there
// is no memory for that: then the answer is in the room, which is empty.
fn reload_devices<S: Source>(
    alloc: Global,
    source: &S,
    room: Vec<u8>,
) -> Result<Vec<u8>, AllocError>
    requires { room.items ≡ [] }
    ensures { IfOk result (λ answer. operated.TellsOfDevices answer.items) }
{
    match source.reload_devices(alloc) {
        Ok(answer) => Ok(answer.into_vec()),
        Err(_) => {
            let mut answer = room;
            answer.extend_from_slice(NO_MEMORY)?;
            Ok(answer)
        }
    }
}

fn is_reload(line: &[u8]) -> bool
    ensures { result ≡ reload_test line.now }
{
    line == b"reload".as_slice()
}

fn is_reload_devices(line: &[u8]) -> bool
    ensures { result ≡ reload_devices_test line.now }
{
    line == b"reload devices".as_slice()
}

fn is_rotate(line: &[u8]) -> bool
    ensures { result ≡ rotate_test line.now }
{
    line == b"rotate".as_slice()
}

// Adds how a line of a desk's console is answered.
fn answer_asked<H: Wait, J: Run, D: Desk>(
    rt: &H,
    alloc: Global,
    desk: &Hall<J, D>,
    console: &mut Console<J>,
    line: &[u8],
    out: &mut Vec<u8>,
) -> Result<(), AllocError>
    ensures ok { OnOk result (operating.Adds (ComesTo J.opening console.old.seat
        (action_of console.old.batch (asked_by line.now)))
        console.new.seat out.old.items out.new.items) }
    ensures batch { OnOk result
        (console.new.batch ≡ batch_after console.old.batch (asked_by line.now)) }
    ensures err { OnErr result (operating.IsUntold (ComesTo J.opening console.old.seat
        (action_of console.old.batch (asked_by line.now)))
        console.old.seat console.new.seat) }
{
    let asked = read_console(alloc, line)?;
    let action = console.batch.take(alloc, asked)?;
    act(rt, alloc, desk, &mut console.seat, action, out)
}

/// How a line is answered, without its LF: by a call or a rotation, if it asks for one. Where
/// memory ran out that may have been done even so, and no line may follow.
pub(crate) fn answer_line<H: Wait, J: Run, D: Desk, S: Source>(
    rt: &H,
    alloc: Global,
    desk: &Hall<J, D>,
    source: &S,
    console: &mut Console<J>,
    line: &[u8],
) -> Result<Vec<u8>, AllocError>
    ensures ok { IfOk result (λ text. operating.Tells
        (operated.LineComesTo J.opening console.old.batch console.old.seat line.now)
        console.new.seat text.items) }
    ensures batch { OnOk result
        (console.new.batch ≡ operated.batch_by console.old.batch line.now) }
    ensures err { OnErr result (operating.IsUntold
        (operated.LineComesTo J.opening console.old.batch console.old.seat line.now)
        console.old.seat console.new.seat) }
{
    let mut text = Vec::with_capacity(alloc, LINE)?;
    if is_rotate(line) {
        rotate(rt, desk, &mut console.seat, &mut text)?;
        return Ok(text);
    }
    if is_reload(line) {
        reload(rt, alloc, desk, source, &mut console.seat, &mut text)?;
        return Ok(text);
    }
    if is_reload_devices(line) {
        let answer = reload_devices(alloc, source, text)?;
        return Ok(answer);
    }
    answer_asked(rt, alloc, desk, console, line, &mut text)?;
    Ok(text)
}

/// Writes a text. The only fault is WriteFault, while some of it is left.
pub(crate) fn write_text<W: Write>(writer: &mut W, text: &[u8]) -> Result<(), OperatorFault>
    ensures { operating.Sends result text.now (W.contents writer.old) (W.contents writer.new) }
{
    let (_, sent) = send(writer, text);
    match sent {
        Ok(()) => Ok(()),
        Err(_) => Err(OperatorFault::WriteFault),
    }
}

/// Tells that a call was refused. Writes nothing where memory runs out.
pub(crate) fn write_refused<W: Write>(
    alloc: Global,
    writer: &mut W,
    fault: HallFault,
) -> Result<(), OperatorFault>
    ensures { operating.SendsUnlessMemory result (refusal_line fault)
        (W.contents writer.old) (W.contents writer.new) }
{
    let mut text = Vec::with_capacity(alloc, LINE)?;
    write_refusal(&mut text, fault)?;
    write_text(writer, text.as_slice())
}

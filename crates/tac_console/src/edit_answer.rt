//! How edits are answered, and batches of them.

ghost use Rattle.std.specs.Prelude.{◌≡◌, ◌++◌, IfOk, OnOk, OnErr};
ghost use Rattle.std.specs.List.{flat_map};
ghost use Rattle.tac_console.specs.Answers as answers;
ghost use Rattle.tac_console.specs.ServiceAnswers.{service_lines};

use crate::adding::{add, refused};
use crate::batching::Notice;
use crate::faults::write_size_fault;
use crate::service_answer::write_service_change;
use basics::Bytes;
use pol_edit::{BatchFault, EditFault};
use pol_meaning::{Changed, Changes, ServiceChange};
use pol_names::Name;
use std::alloc::{AllocError, Global};
use std::io;
use std::io::Write;

// A line, where there is a text.
fn write_change(out: &mut Vec<u8>, user: &Name, what: &str, text: &Option<Bytes>) -> io::Result<()>
    ensures { OnOk result
        (out.new.items ≡ out.old.items ++ answers.change_line user.now what.now text.now) }
{
    let Some(text) = text else {
        return Ok(());
    };
    write!(out, "user {user}{what}")?;
    out.extend_from_slice(text.as_slice())?;
    out.push(b'\n')?;
    Ok(())
}

fn write_changed(out: &mut Vec<u8>, changed: &Changed) -> io::Result<()>
    ensures { OnOk result (out.new.items ≡ out.old.items ++ answers.changed_lines changed.now) }
{
    write_change(out, &changed.user, " now permits: ", &changed.permits)?;
    write_change(out, &changed.user, " now denies: ", &changed.denies)
}

fn write_changes(out: &mut Vec<u8>, changes: &[Changed]) -> io::Result<()>
    ensures { OnOk result
        (out.new.items ≡ out.old.items ++ flat_map answers.changed_lines changes.now) }
{
    'changes: for changed in changes {
        write_changed(out, changed)?;
    }
    Ok(())
}

fn write_services(out: &mut Vec<u8>, changes: &[ServiceChange]) -> io::Result<()>
    ensures { OnOk result
        (out.new.items ≡ out.old.items ++ flat_map service_lines changes.now) }
{
    'changes: for change in changes {
        write_service_change(out, change)?;
    }
    Ok(())
}

// How accepted edits are answered.
fn accepted(alloc: Global, changes: &Changes) -> io::Result<Vec<u8>>
    ensures { IfOk result (λ text. text.items ≡ answers.accepted changes.now) }
{
    let mut text = Vec::new(alloc);
    writeln!(text, "ok")?;
    write_changes(&mut text, changes.lines.as_slice())?;
    write_services(&mut text, changes.services.as_slice())?;
    Ok(text)
}

/// Adds how an edit is answered: `ok`, and a line for each decision that it changes and for what it
/// changes of services, or why it is refused. The error means that memory ran out; nothing is added
/// then. Linear in what is added.
pub fn write_edit_answer(
    alloc: Global,
    out: &mut Vec<u8>,
    answer: &Result<&Changes, EditFault>,
) -> Result<(), AllocError>
    ensures ok { OnOk result
        (out.new.items ≡ out.old.items ++ answers.edit_answer (answers.answer_lent answer.now)) }
    ensures err { OnErr result (out.new.items ≡ out.old.items) }
{
    match answer {
        Ok(changes) => add(out, accepted(alloc, changes)),
        Err(fault) => add(out, refused(alloc, fault)),
    }
}

/// Adds how a batch of edits is answered: as one edit is, but a refusal names the edit that is
/// refused, if one is. The error means that memory ran out; nothing is added then. Linear in what
/// is added.
pub fn write_batch_answer(
    alloc: Global,
    out: &mut Vec<u8>,
    answer: &Result<&Changes, BatchFault>,
) -> Result<(), AllocError>
    ensures ok { OnOk result
        (out.new.items ≡ out.old.items ++ answers.batch_answer (answers.answer_lent answer.now)) }
    ensures err { OnErr result (out.new.items ≡ out.old.items) }
{
    match answer {
        Ok(changes) => add(out, accepted(alloc, changes)),
        Err(fault) => add(out, refused(alloc, fault)),
    }
}

/// Adds how it is answered that another policy takes the place of the present one: as an edit is,
/// but one that is too large is told as its check tells it. The error means that memory ran out;
/// nothing is added then. Linear in what is added.
pub fn write_load_answer(
    alloc: Global,
    out: &mut Vec<u8>,
    answer: &Result<&Changes, EditFault>,
) -> Result<(), AllocError>
    ensures ok { OnOk result
        (out.new.items ≡ out.old.items ++ answers.load_answer (answers.answer_lent answer.now)) }
    ensures err { OnErr result (out.new.items ≡ out.old.items) }
{
    match answer {
        Ok(changes) => add(out, accepted(alloc, changes)),
        Err(EditFault::TooManyStates(subject)) => write_size_fault(alloc, out, *subject),
        Err(fault) => add(out, refused(alloc, fault)),
    }
}

fn notice_text(alloc: Global, notice: Notice) -> io::Result<Vec<u8>>
    ensures { IfOk result (λ text. text.items ≡ answers.notice_text notice) }
{
    let mut text = Vec::new(alloc);
    match notice {
        Notice::Done => writeln!(text, "ok")?,
        Notice::Kept(number) => writeln!(text, "kept {number}")?,
        Notice::Refused(fault) => return refused(alloc, &fault),
    }
    Ok(text)
}

/// Adds what a line is told where the desk isn't asked: `ok`, `kept K`, or why it is refused. The
/// error means that memory ran out; nothing is added then.
pub fn write_notice(alloc: Global, out: &mut Vec<u8>, notice: Notice) -> Result<(), AllocError>
    ensures ok { OnOk result (out.new.items ≡ out.old.items ++ answers.notice_text notice) }
    ensures err { OnErr result (out.new.items ≡ out.old.items) }
{
    add(out, notice_text(alloc, notice))
}

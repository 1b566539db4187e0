//! What is printed of a policy that can't stand.

ghost use Rattle.std.specs.Prelude.{◌≡◌, ◌++◌, IfOk, OnOk, OnErr};
ghost use Rattle.tac_console.specs.Faults as faults;

use crate::adding::add;
use pol_names::SubjectId;
use pol_text::PolicyFault;
use std::alloc::{AllocError, Global};
use std::io;
use std::io::Write;

fn policy_fault(alloc: Global, fault: PolicyFault) -> io::Result<Vec<u8>>
    ensures { IfOk result (λ text. text.items ≡ faults.policy_fault fault) }
{
    let mut text = Vec::new(alloc);
    match fault {
        PolicyFault::Refused { line, refusal } => writeln!(text, "fault line {line} {refusal}")?,
        PolicyFault::Memory => writeln!(text, "fault Memory")?,
    }
    Ok(text)
}

fn size_fault(alloc: Global, subject: SubjectId) -> io::Result<Vec<u8>>
    ensures { IfOk result (λ text. text.items ≡ faults.size_fault subject) }
{
    let mut text = Vec::new(alloc);
    writeln!(text, "fault TooManyStates {subject}")?;
    Ok(text)
}

/// Adds the line that says why a text is no policy: `fault line L N REFUSAL`, where L is the line
/// that the fault names. The error means that memory ran out; nothing is added then.
pub fn write_policy_fault(
    alloc: Global,
    out: &mut Vec<u8>,
    fault: PolicyFault,
) -> Result<(), AllocError>
    ensures ok { OnOk result (out.new.items ≡ out.old.items ++ faults.policy_fault fault) }
    ensures err { OnErr result (out.new.items ≡ out.old.items) }
{
    add(out, policy_fault(alloc, fault))
}

/// Adds the line that says which subject of a policy is too large: `fault TooManyStates SUBJECT`.
/// The error means that memory ran out; nothing is added then.
pub fn write_size_fault(
    alloc: Global,
    out: &mut Vec<u8>,
    subject: SubjectId,
) -> Result<(), AllocError>
    ensures ok { OnOk result (out.new.items ≡ out.old.items ++ faults.size_fault subject) }
    ensures err { OnErr result (out.new.items ≡ out.old.items) }
{
    add(out, size_fault(alloc, subject))
}

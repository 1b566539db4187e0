//! What is told of a text, and how that ends.

ghost use Rattle.std.specs.Prelude.{◌≡◌, ◌++◌, IfOk, OnOk};
ghost use Rattle.tac_review.specs.Lint as lints;

use crate::judging::judge;
use crate::linting::LintEnd;
use basics::Sequence;
use pol_faults::{size_faults, text_faults};
use pol_habits::{Asked, policy_remarks};
use pol_live::{Live, TextRefusal};
use pol_report::shadows;
use pol_words::Remark;
use std::alloc::{AllocError, Global};
use std::io;
use std::io::Write;

// ---- a policy that may stand

fn write_asked(out: &mut Vec<u8>, asked: &Asked) -> io::Result<()>
    ensures { OnOk result (out.new.items ≡ out.old.items ++ lints.asked_line asked.now) }
{
    let Asked {
        line,
        column,
        question,
    } = *asked;
    writeln!(out, "line {line} column {column}: {question}")
}

fn write_all_asked(out: &mut Vec<u8>, asked: &[Asked]) -> io::Result<()>
    ensures { OnOk result (out.new.items ≡ out.old.items ++ lints.asked_text asked.now) }
{
    'asked: for question in asked {
        write_asked(out, question)?;
    }
    Ok(())
}

// The lines of what is asked.
fn asked_text(alloc: Global, asked: &Sequence<Asked>) -> Result<Vec<u8>, AllocError>
    ensures { IfOk result (λ text. text.items ≡ lints.asked_text asked.now) }
{
    let mut text = Vec::new(alloc);
    match write_all_asked(&mut text, asked.as_slice()) {
        Ok(()) => Ok(text),
        Err(_) => Err(AllocError),
    }
}

// What is printed of what is asked, and how that ends.
fn ended(alloc: Global, asked: &Sequence<Asked>) -> Result<(Vec<u8>, LintEnd), AllocError>
    ensures { IfOk result (λ output. lints.Asks output.0.items output.1) }
{
    let printed = asked_text(alloc, asked)?;
    if asked.is_empty() {
        return Ok((printed, LintEnd::Quiet));
    }
    Ok((printed, LintEnd::Told))
}

// What is asked about a policy that may stand.
fn told(alloc: Global, text: &[u8], live: &Live) -> Result<(Vec<u8>, LintEnd), AllocError>
    ensures { IfOk result (λ output. lints.Asks output.0.items output.1) }
{
    let rows = shadows(alloc, live)?;
    let asked = policy_remarks(alloc, text, live.policy(), rows.as_slice())?;
    ended(alloc, &asked)
}

// ---- a text that is refused

fn write_remark(out: &mut Vec<u8>, remark: &Remark) -> io::Result<()>
    ensures { OnOk result (out.new.items ≡ out.old.items ++ lints.remark_line remark.now) }
{
    let Remark {
        line,
        column,
        finding,
    } = *remark;
    writeln!(out, "line {line} column {column}: {finding}")
}

fn write_remarks(out: &mut Vec<u8>, remarks: &[Remark]) -> io::Result<()>
    ensures { OnOk result (out.new.items ≡ out.old.items ++ lints.remarks_text remarks.now) }
{
    'remarks: for remark in remarks {
        write_remark(out, remark)?;
    }
    Ok(())
}

// The lines of what is wrong.
fn remarks_text(alloc: Global, remarks: &Sequence<Remark>) -> Result<Vec<u8>, AllocError>
    ensures { IfOk result (λ text. text.items ≡ lints.remarks_text remarks.now) }
{
    let mut text = Vec::new(alloc);
    match write_remarks(&mut text, remarks.as_slice()) {
        Ok(()) => Ok(text),
        Err(_) => Err(AllocError),
    }
}

// What is wrong with a text that is refused.
fn faults(alloc: Global, text: &[u8], refusal: TextRefusal) -> Result<Sequence<Remark>, AllocError>
    ensures { IfOk result (λ remarks. lints.Faults text.now refusal remarks) }
{
    match refusal {
        TextRefusal::NoPolicy { line, refusal } => text_faults(alloc, text, line, refusal),
        TextRefusal::TooLarge(subject) => size_faults(alloc, text, &subject),
    }
}

// ---- a text

/// What is told of a text, and how that ends.
pub(crate) fn output(alloc: Global, text: &[u8]) -> Result<(Vec<u8>, LintEnd), AllocError>
    ensures { IfOk result (λ output. lints.IsOnlyLint text.now output.0.items output.1) }
{
    match judge(alloc, text)? {
        Ok(live) => told(alloc, text, &live),
        Err(refusal) => {
            let remarks = faults(alloc, text, refusal)?;
            let printed = remarks_text(alloc, &remarks)?;
            Ok((printed, LintEnd::Refused))
        }
    }
}

//! What the check of a text prints.

ghost use Rattle.std.specs.Prelude.{◌≡◌, ◌++◌, codes, Ok, IfOk, OnOk};
ghost use Rattle.std.specs.Fmt.{decimal};
ghost use Rattle.tac_review.specs.Check.{count_rules as rules_in, count_lines as lines_in};
ghost use Rattle.tac_review.specs.Check.{lines_text, ok_line, Prints, IsOnlyCheck};
ghost use Rattle.tac_review.specs.Judged.{IsOnly};

use crate::checking::CheckEnd;
use crate::judging::{judge, refusal_line};
use pol_live::Live;
use pol_report::shadows;
use pol_text::Policy;
use std::alloc::{AllocError, Global};
use std::io::Write;
use tac_console::write_shadows;

// The rules of all subjects.
fn count_rules(policy: &Policy) -> usize
    ensures { result ≡ rules_in policy.now }
{
    let mut rules = 0;
    'subjects: for subject in policy.subjects() {
        rules += subject.rules.len();
    }
    rules
}

// The lines about services of all subjects.
fn count_lines(policy: &Policy) -> usize
    ensures { result ≡ lines_in policy.now }
{
    let mut lines = 0;
    'subjects: for subject in policy.subjects() {
        lines += subject.services.len();
    }
    lines
}

// How many lines about services there are, if any. The error means that memory ran out.
fn write_lines(out: &mut Vec<u8>, lines: usize) -> Result<(), AllocError>
    ensures { OnOk result (out.new.items ≡ out.old.items ++ lines_text lines) }
{
    if lines == 0 {
        return Ok(());
    }
    match write!(out, ", {lines} service lines") {
        Ok(()) => Ok(()),
        Err(_) => Err(AllocError),
    }
}

// The counts of subjects and rules. The error means that memory ran out.
fn write_sizes(out: &mut Vec<u8>, subjects: usize, rules: usize) -> Result<(), AllocError>
    ensures { OnOk result (out.new.items ≡ out.old.items ++ (codes "policy ok: "
        ++ decimal subjects ++ codes " subjects, " ++ decimal rules ++ codes " rules")) }
{
    match write!(out, "policy ok: {subjects} subjects, {rules} rules") {
        Ok(()) => Ok(()),
        Err(_) => Err(AllocError),
    }
}

// The error means that memory ran out.
fn write_counts(out: &mut Vec<u8>, policy: &Policy) -> Result<(), AllocError>
    ensures { OnOk result (out.new.items ≡ out.old.items ++ ok_line policy.now) }
{
    write_sizes(out, policy.len(), count_rules(policy))?;
    write_lines(out, count_lines(policy))?;
    out.push(b'\n')?;
    Ok(())
}

// What is reported of a policy that may stand.
fn report(alloc: Global, live: &Live) -> Result<(Vec<u8>, CheckEnd), AllocError>
    ensures { IfOk result (λ output.
        IsOnly (Prints (Ok live.now)) output.0.items output.1) }
{
    let rows = shadows(alloc, live)?;
    let mut text = Vec::new(alloc);
    write_counts(&mut text, live.policy())?;
    write_shadows(alloc, &mut text, rows.as_slice())?;
    Ok((text, CheckEnd::Sound))
}

/// What the check of a policy's text prints, and how it ends.
pub(crate) fn output(alloc: Global, text: &[u8]) -> Result<(Vec<u8>, CheckEnd), AllocError>
    ensures { IfOk result (λ output. IsOnlyCheck text.now output.0.items output.1) }
{
    match judge(alloc, text)? {
        Ok(live) => report(alloc, &live),
        Err(refusal) => {
            let line = refusal_line(alloc, refusal)?;
            Ok((line, CheckEnd::Refused))
        }
    }
}

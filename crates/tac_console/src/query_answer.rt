//! How a question is answered.

ghost use Rattle.std.specs.Prelude.{◌≡◌, ◌++◌, [], ◌∷◌, ℕ, List, IsTrue, IfOk, OnOk, OnErr};
ghost use Rattle.std.specs.Result.{ForOk};
ghost use Rattle.pol_names.specs.Decision as decisions;
ghost use Rattle.pol_names.specs.declared.decision.By.TheVariants as by;
ghost use Rattle.tac_desk.specs.Reporting.{is_report_to};
ghost use Rattle.tac_desk.specs.declared.numbered.Numbered.{Numbered as NumberedValue};
ghost use Rattle.tac_console.specs.Answers as answers;
ghost use Rattle.tac_console.specs.Apart.{HasNoBlank, AreApart};

use crate::adding::{add, refused};
use crate::percent::write_percent;
use crate::rules::{write_reach, write_rows};
use basics::Bytes;
use itoa::Buffer;
use pol_given::{Given, GivenArgument, Grant};
use pol_names::{By, Decision, SubjectId, Verdict};
use std::alloc::{AllocError, Global};
use std::io;
use std::io::Write;
use tac_desk::{Numbered, Query, QueryFault, Report};
use tac_tally::{AcctKind, Tally};

// ---- tallies

fn write_tally(out: &mut Vec<u8>, subject: &SubjectId, tally: &Tally) -> io::Result<()>
    ensures { OnOk result
        (out.new.items ≡ out.old.items ++ answers.tally_line subject.now tally.now) }
{
    let Tally {
        starts,
        stops,
        watchdogs,
        updates,
        open_tasks,
        elapsed,
        drift,
    } = tally;
    write!(out, "tally {subject} starts {starts} stops {stops}")?;
    write!(out, " watchdogs {watchdogs} updates {updates}")?;
    writeln!(out, " open {open_tasks} elapsed {elapsed} drift {drift}")?;
    Ok(())
}

// ---- decisions

fn verdict_text(verdict: Verdict) -> &'static str
    ensures { result.now ≡ decisions.verdict_text verdict }
{
    match verdict {
        Verdict::Permit => "permitted by ",
        Verdict::Deny => "denied by ",
    }
}

// A rule, by its owner and its number there, and the end of the line. Its parts are added as they
// are: formatting takes more instructions than deciding a line.
fn write_rule(out: &mut Vec<u8>, owner: &SubjectId, number: u16) -> io::Result<()>
    ensures { OnOk result (out.new.items
        ≡ out.old.items ++ decisions.by_text (by.Rule owner.now number) ++ 10 ∷ []) }
{
    out.extend_from_slice(owner.kind.keyword().as_bytes())?;
    out.extend_from_slice(owner.name.as_slice())?;
    out.extend_from_slice(b" rule ")?;
    out.extend_from_slice(Buffer::new().format(number).as_bytes())?;
    out.push(b'\n')?;
    Ok(())
}

fn write_why(out: &mut Vec<u8>, decision: Option<Decision>) -> io::Result<()>
    ensures { OnOk result (out.new.items ≡ out.old.items ++ answers.why_line decision) }
{
    let Some(decision) = decision else {
        return writeln!(out, "unknown user");
    };
    out.extend_from_slice(verdict_text(decision.verdict).as_bytes())?;
    match decision.by {
        By::Rule(owner, number) => write_rule(out, &owner, number),
        By::Default => writeln!(out, "default"),
    }
}

// ---- services

fn write_grant(out: &mut Vec<u8>, grant: Grant) -> io::Result<()>
    ensures { OnOk result (out.new.items ≡ out.old.items ++ answers.grant_line grant) }
{
    match grant {
        Grant::UnknownUser => write_why(out, None),
        Grant::Unserved => writeln!(out, "unsupported service"),
        Grant::Refused(owner) => writeln!(out, "refused by {owner}"),
        Grant::Granted(owner) => writeln!(out, "granted by {owner}"),
        Grant::Decided(decision) => write_why(out, Some(decision)),
    }
}

fn write_argument(out: &mut Vec<u8>, given: &GivenArgument) -> io::Result<()>
    ensures { OnOk result (out.new.items ≡ out.old.items ++ answers.argument_line given.now) }
{
    let GivenArgument { owner, argument } = given;
    write!(out, "{owner} gives ")?;
    out.extend_from_slice(argument.as_slice())?;
    out.push(b'\n')?;
    Ok(())
}

fn write_given(out: &mut Vec<u8>, given: &Given) -> io::Result<()>
    ensures { OnOk result (out.new.items ≡ out.old.items ++ answers.given_text given.now) }
{
    write_grant(out, given.grant)?;
    'arguments: for argument in given.arguments.as_slice() {
        write_argument(out, argument)?;
    }
    Ok(())
}

// ---- records

fn kind_text(kind: AcctKind) -> &'static str
    ensures { result.now ≡ answers.kind_text kind }
{
    match kind {
        AcctKind::Begin => "start",
        AcctKind::Stop => "stop",
        AcctKind::Watch => "watchdog",
        AcctKind::Update => "update",
    }
}

// The field of a record's line, where there is one.
fn write_line_field(out: &mut Vec<u8>, line: &Option<Bytes>) -> io::Result<()>
    ensures { OnOk result (out.new.items ≡ out.old.items ++ answers.line_field line.now) }
{
    let Some(line) = line else {
        return Ok(());
    };
    write!(out, " line ")?;
    write_percent(out, line.as_slice())?;
    Ok(())
}

fn write_record(out: &mut Vec<u8>, entry: &Numbered) -> io::Result<()>
    ensures { OnOk result (out.new.items ≡ out.old.items ++ answers.record_line entry.now) }
{
    let Numbered { number, item } = entry;
    let kind = kind_text(item.kind);
    let elapsed = item.elapsed;
    write!(out, "record {number} user ")?;
    write_percent(out, item.user.as_slice())?;
    write!(out, " {kind} task ")?;
    write_percent(out, item.task.as_slice())?;
    write!(out, " elapsed {elapsed}")?;
    write_line_field(out, &item.line)?;
    out.push(b'\n')?;
    Ok(())
}

fn write_records(out: &mut Vec<u8>, records: &[Numbered]) -> io::Result<()>
    ensures { OnOk result (out.new.items ≡ out.old.items ++ answers.records_text records.now) }
{
    if records.is_empty() {
        return writeln!(out, "none");
    }
    'records: for entry in records {
        write_record(out, entry)?;
    }
    Ok(())
}

// ---- all reports

// The room that a line takes, which most answers are.
const LINE: usize = 64;

fn report_text(alloc: Global, query: &Query, report: &Report) -> io::Result<Vec<u8>>
    requires { IsTrue (is_report_to query.now report.now) }
    ensures { IfOk result (λ text. text.items ≡ answers.report_text query.now report.now) }
{
    let mut text = Vec::with_capacity(alloc, LINE)?;
    match (report, query) {
        (Report::Policy(policy), _) => return Ok(policy.print(alloc)?.into_vec()),
        (Report::Shadow(rows), _) => write_rows(&mut text, rows.as_slice())?,
        (Report::Reach(rows), _) => write_reach(&mut text, rows.as_slice())?,
        (Report::Tally(tally), Query::Tally(subject)) => write_tally(&mut text, subject, tally)?,
        (Report::Tally(_), _) => unreachable!(),
        (Report::Why(decision), _) => write_why(&mut text, *decision)?,
        (Report::Given(given), _) => write_given(&mut text, given)?,
        (Report::Records(records), _) => write_records(&mut text, records.as_slice())?,
    }
    Ok(text)
}

/// Adds how a question is answered, or why it isn't. The error means that memory ran out; nothing
/// is added then. Linear in what is added.
#[tactic(auto, using(crate::proofs::Apart::percent_visible, crate::proofs::Apart::records_apart))]
pub fn write_query_answer(
    alloc: Global,
    out: &mut Vec<u8>,
    query: &Query,
    answer: &Result<&Report, QueryFault>,
) -> Result<(), AllocError>
    // The report is one to this question.
    requires { ForOk answer.now (λ report. IsTrue (is_report_to query.now report.now)) }
    ensures ok { OnOk result (out.new.items ≡ out.old.items
        ++ answers.query_answer query.now (answers.answer_lent answer.now)) }
    ensures err { OnErr result (out.new.items ≡ out.old.items) }

    // Records that are printed alike are the same, since a field has no blank and no line end.
    ensures fields { (text : List ℕ) → HasNoBlank text }
    ensures apart { (a b : List NumberedValue) → AreApart a b }
{
    match answer {
        Ok(report) => add(out, report_text(alloc, query, report)),
        Err(fault) => add(out, refused(alloc, fault)),
    }
}

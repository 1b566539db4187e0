//! What a review prints, and how it ends.

ghost use Rattle.std.specs.Prelude.{◌≡◌, ◌++◌, codes, ◌∷◌, [], Ok, IfOk, OnOk};
ghost use Rattle.pol_secrets.specs.Altering.{secret_changes as secrets_between};
ghost use Rattle.tac_console.specs.Answers.{changes_text};
ghost use Rattle.tac_review.specs.Asking as asking;
ghost use Rattle.tac_review.specs.Judged.{IsOnly};
ghost use Rattle.tac_review.specs.Tables as tables;
ghost use Rattle.tac_review.specs.Review as reviews;

use crate::asking::{add_answer, permission, question, service_question};
use crate::judging::{judge, refusal_line};
use crate::loading::load;
use crate::table::tell;
use crate::task::{Input, Review, ReviewEnd, Table};
use basics::Bytes;
use pol_live::{Live, TextRefusal};
use pol_report::{Changes, compare};
use pol_secrets::{SecretChange, secret_changes, write_secret_changes};
use std::alloc::{AllocError, Global};
use std::io::Write;
use tac_console::write_edit_answer;
use tac_desk::Query;

// The line that refuses an input, after the input's name. The review ends so.
fn refused(
    alloc: Global,
    name: &[u8],
    line: &[u8],
    end: ReviewEnd,
) -> Result<(Vec<u8>, ReviewEnd), AllocError>
    ensures { IfOk result (λ output. (output.0.items ≡ reviews.named name.now line.now)
        × (output.1 ≡ end)) }
{
    let mut text = Vec::new(alloc);
    text.extend_from_slice(name)?;
    text.extend_from_slice(b": ")?;
    text.extend_from_slice(line)?;
    Ok((text, end))
}

// What is printed of a text that is refused.
fn refused_text(
    alloc: Global,
    input: Input,
    name: &[u8],
    refusal: TextRefusal,
) -> Result<(Vec<u8>, ReviewEnd), AllocError>
    ensures { IfOk result (λ output.
        reviews.IsRefused input name.now refusal output.0.items output.1) }
{
    let line = refusal_line(alloc, refusal)?;
    refused(alloc, name, line.as_slice(), ReviewEnd::BadPolicy(input))
}

// The lines of changes: those of an edit's answer after its `ok`.
fn lines_of_changes(alloc: Global, changes: &Changes) -> Result<Vec<u8>, AllocError>
    ensures { IfOk result (λ text. text.items ≡ changes_text changes.now) }
{
    let mut answer = Vec::new(alloc);
    write_edit_answer(alloc, &mut answer, &Ok(changes))?;
    let mut text = Vec::new(alloc);
    if let [_, _, _, lines @ ..] = answer.as_slice() {
        text.extend_from_slice(lines)?;
    }
    Ok(text)
}

fn same(alloc: Global) -> Result<Vec<u8>, AllocError>
    ensures { IfOk result (λ text. text.items ≡ codes "same" ++ 10 ∷ []) }
{
    let mut text = Vec::new(alloc);
    text.extend_from_slice(b"same\n")?;
    Ok(text)
}

// What is printed of changes, and of what became of secrets.
fn show(
    alloc: Global,
    changes: &Changes,
    secrets: &[SecretChange],
) -> Result<(Vec<u8>, ReviewEnd), AllocError>
    ensures { IfOk result (λ output.
        (output.0.items ≡ reviews.changes_text changes.now secrets.now)
        × (output.1 ≡ reviews.changes_end changes.now secrets.now)) }
{
    if changes.is_empty() && secrets.is_empty() {
        let text = same(alloc)?;
        return Ok((text, ReviewEnd::Done));
    }
    let mut text = lines_of_changes(alloc, changes)?;
    write_secret_changes(&mut text, secrets)?;
    Ok((text, ReviewEnd::Differs))
}

// What is printed of the changes between two policies.
fn differ(alloc: Global, old: &Live, new: &Live) -> Result<(Vec<u8>, ReviewEnd), AllocError>
    ensures { IfOk result (λ output.
        IsOnly (reviews.ChangesTo old.now new.now) output.0.items output.1) }
{
    let changes = compare(alloc, old, new)?;
    let secrets = secret_changes(alloc, old.policy(), new.policy())?;
    show(alloc, &changes, secrets.as_slice())
}

// What a policy whose text this is changes against the old one.
fn diff(
    alloc: Global,
    old: &Live,
    name: &[u8],
    text: &[u8],
) -> Result<(Vec<u8>, ReviewEnd), AllocError>
    ensures { IfOk result (λ output. IsOnly (reviews.Diffs name.now text.now old.now)
        output.0.items output.1) }
{
    match judge(alloc, text)? {
        Ok(new) => differ(alloc, old, &new),
        Err(refusal) => refused_text(alloc, Input::Second, name, refusal),
    }
}

// The edits that make a policy whose text this is of the old one.
fn edits(
    alloc: Global,
    old: Live,
    name: &[u8],
    text: &[u8],
) -> Result<(Vec<u8>, ReviewEnd), AllocError>
    ensures { IfOk result (λ output.
        reviews.ListsEdits name.now text.now old output.0.items output.1) }
{
    match judge(alloc, text)? {
        Ok(new) => load(alloc, old, new.policy()),
        Err(refusal) => refused_text(alloc, Input::Second, name, refusal),
    }
}

// What a question is answered, or that there is none.
fn explain(
    alloc: Global,
    live: &Live,
    query: Option<Query>,
) -> Result<(Vec<u8>, ReviewEnd), AllocError>
    ensures { IfOk result (λ output.
        reviews.Explains live.now query output.0.items output.1) }
{
    let mut text = Vec::new(alloc);
    match query {
        Some(query) => {
            add_answer(alloc, &mut text, live, &query)?;
            let permission = permission(alloc, live, &query)?;
            Ok((text, ReviewEnd::Answered(permission)))
        }
        None => {
            text.extend_from_slice(b"fault BadQuestion\n")?;
            Ok((text, ReviewEnd::Refused))
        }
    }
}

// What is answered of a line.
fn why(alloc: Global, live: &Live, line: &[u8]) -> Result<(Vec<u8>, ReviewEnd), AllocError>
    ensures { IfOk result (λ output.
        reviews.Explains live.now (asking.question_of line.now) output.0.items output.1) }
{
    let query = question(alloc, line)?;
    explain(alloc, live, query)
}

// What is answered of a service.
fn given(alloc: Global, live: &Live, text: &[u8]) -> Result<(Vec<u8>, ReviewEnd), AllocError>
    ensures { IfOk result (λ output.
        reviews.Explains live.now (asking.service_question_of text.now) output.0.items output.1) }
{
    let query = service_question(alloc, text)?;
    explain(alloc, live, query)
}

// The name of the fault of an invalid line.
fn fault_name(table: Table) -> &'static str
    ensures { result.now ≡ tables.fault_name table }
{
    match table {
        Table::Questions => "BadQuestion",
        Table::Cases => "BadCase",
    }
}

// What is printed of an invalid line of a table.
fn bad_line(alloc: Global, table: Table, number: usize) -> Result<Vec<u8>, AllocError>
    ensures { IfOk result (λ line. line.items ≡ tables.fault table number) }
{
    let mut line = Vec::new(alloc);
    let fault = fault_name(table);
    match writeln!(line, "fault line {number} {fault}") {
        Ok(()) => Ok(line),
        Err(_) => Err(AllocError),
    }
}

// What is printed of a table, and how that ends.
fn told(alloc: Global, table: Table, text: Bytes) -> Result<(Vec<u8>, ReviewEnd), AllocError>
    ensures { IfOk result (λ output. (output.0.items ≡ tables.table_text table text)
        × (output.1 ≡ tables.table_end table text)) }
{
    match table {
        Table::Questions => Ok((text.into_vec(), ReviewEnd::Done)),
        Table::Cases if text.is_empty() => {
            let mut text = Vec::new(alloc);
            text.extend_from_slice(b"ok\n")?;
            Ok((text, ReviewEnd::Done))
        }
        Table::Cases => Ok((text.into_vec(), ReviewEnd::Differs)),
    }
}

// What the lines of a table are answered.
fn each(
    alloc: Global,
    live: &Live,
    table: Table,
    name: &[u8],
    text: &[u8],
) -> Result<(Vec<u8>, ReviewEnd), AllocError>
    ensures { IfOk result (λ output.
        reviews.Tells table name.now text.now live.now output.0.items output.1) }
{
    match tell(alloc, live, table, text)? {
        Ok(text) => told(alloc, table, text),
        Err(number) => {
            let line = bad_line(alloc, table, number)?;
            refused(alloc, name, line.as_slice(), ReviewEnd::Refused)
        }
    }
}

// What is printed once the first policy may stand.
fn second(
    alloc: Global,
    review: Review,
    live: Live,
    name: &[u8],
    text: &[u8],
) -> Result<(Vec<u8>, ReviewEnd), AllocError>
    ensures { IfOk result (λ output. reviews.IsRight review
        (reviews.Continues review name.now text.now live) output.0.items output.1) }
{
    match review {
        Review::Diff => diff(alloc, &live, name, text),
        Review::Edits => edits(alloc, live, name, text),
        Review::Why => why(alloc, &live, text),
        Review::Given => given(alloc, &live, text),
        Review::Each(table) => each(alloc, &live, table, name, text),
    }
}

/// What a review of two inputs prints, each with its name and its text, and how it ends.
pub(crate) fn output(
    alloc: Global,
    review: Review,
    names: (&[u8], &[u8]),
    texts: (&[u8], &[u8]),
) -> Result<(Vec<u8>, ReviewEnd), AllocError>
    ensures { IfOk result (λ output. reviews.IsRight review (reviews.Reviews review
        names.entry.0.now names.entry.1.now texts.entry.0.now texts.entry.1.now)
        output.0.items output.1) }
{
    let (first_name, second_name) = names;
    let (first_text, second_text) = texts;
    match judge(alloc, first_text)? {
        Ok(live) => second(alloc, review, live, second_name, second_text),
        Err(refusal) => refused_text(alloc, Input::First, first_name, refusal),
    }
}

//! The reviews of policies in files.

use crate::policies::open_text;
use clap::ArgMatches;
use std::alloc::{AllocError, Global};
use std::io;
use std::io::Read;
use std::rt::Files;
use tac_command_line::{
    CASES, EDITS, EXIT_CODE, FILE, LINE, NEW, OLD, SERVICE, STATUS, USER, word_of,
};
use tac_review::{Input as Which, Review, ReviewEnd, ReviewFault, Table, review};
use tac_run::{STANDARD_INPUT, Status, complain, name_lint, out_of_memory};

fn name_of<'a>(names: (&'a str, &'a str), input: Which) -> &'a str {
    match input {
        Which::First => names.0,
        Which::Second => names.1,
    }
}

// Reviews a policy's file and another input, each with its name.
fn review_inputs<R, S>(
    rt: &R,
    what: Review,
    names: (&str, &str),
    file: &mut R::File,
    other: &mut S,
) -> Result<ReviewEnd, ReviewFault>
where
    R: Files + Print + Eprint + AllocGlobal,
    S: Read,
{
    let bytes = (names.0.as_bytes(), names.1.as_bytes());
    let outcome = review(rt.alloc(), what, bytes, file, other, &mut io::writer(rt));
    match outcome {
        Ok(ReviewEnd::BadPolicy(input)) => name_lint(rt, name_of(names, input)),
        Ok(_) => {}
        Err(fault) => complain(rt, name_of(names, fault.input), fault.fault),
    }
    outcome
}

// Says how many batches of edits there are, if there are several. It doesn't matter whether this
// could be written.
fn tell_batches<R: Eprint>(rt: &R, batches: usize) {
    if batches > 1 {
        let _ = eprintln!(rt;
            "tacd: {batches} batches; between two of them the policy is neither OLD nor NEW"
        );
    }
}

// Reviews two files, and ends with the given status where they differ.
fn review_files<R>(rt: &R, what: Review, paths: (&str, &str), differs: Status) -> Status
where
    R: Files + Print + Eprint + AllocGlobal,
{
    let mut first = match open_text(rt, paths.0) {
        Ok(file) => file,
        Err(status) => return status,
    };
    let mut second = match open_text(rt, paths.1) {
        Ok(file) => file,
        Err(status) => return status,
    };
    let outcome = review_inputs(rt, what, paths, &mut first, &mut second);
    if let Ok(ReviewEnd::Edited(batches)) = outcome {
        tell_batches(rt, batches);
    }
    Status::of_review(outcome, differs)
}

/// Prints what a new policy changes against an old one, or which edits make it of that.
pub fn diff<R>(rt: &R, matches: &ArgMatches<'_>) -> Status
where
    R: Files + Print + Eprint + AllocGlobal,
{
    let differs = if matches.get_flag(EXIT_CODE) {
        Status::Differs
    } else {
        Status::Done
    };
    let what = if matches.get_flag(EDITS) {
        Review::Edits
    } else {
        Review::Diff
    };
    let files = (word_of(matches, OLD), word_of(matches, NEW));
    review_files(rt, what, files, differs)
}

/// Prints the cases of a table that aren't so.
pub fn test<R>(rt: &R, matches: &ArgMatches<'_>) -> Status
where
    R: Files + Print + Eprint + AllocGlobal,
{
    let files = (word_of(matches, FILE), word_of(matches, CASES));
    review_files(rt, Review::Each(Table::Cases), files, Status::Refused)
}

// `USER`, or `USER LINE`: the words of a line are one blank apart, as a router joins them. A
// service is one word. A user with a blank is none, and then the question is empty, which is no
// question.
fn question_of(alloc: Global, user: &str, words: &[&str]) -> Result<Vec<u8>, AllocError> {
    let mut question = Vec::new(alloc);
    if user.contains(' ') {
        return Ok(question);
    }
    question.extend_from_slice(user.as_bytes())?;
    for word in words {
        question.push(b' ')?;
        question.extend_from_slice(word.as_bytes())?;
    }
    Ok(question)
}

// Prints what one question is answered, which is about a user. The status tells the answer where the
// command line wants that.
fn explain_one<R>(
    rt: &R,
    what: Review,
    matches: &ArgMatches<'_>,
    user: &str,
    words: &[&str],
) -> Status
where
    R: Files + Print + Eprint + AllocGlobal,
{
    let path = word_of(matches, FILE);
    let Ok(question) = question_of(rt.alloc(), user, words) else {
        return out_of_memory(rt);
    };
    let mut file = match open_text(rt, path) {
        Ok(file) => file,
        Err(status) => return status,
    };
    let mut asked = question.as_slice();
    let outcome = review_inputs(rt, what, (path, "the question"), &mut file, &mut asked);
    if matches.get_flag(STATUS) {
        Status::of_question(outcome)
    } else {
        Status::of_review(outcome, Status::Done)
    }
}

// Prints how each line of standard input is decided.
fn explain_all<R>(rt: &R, path: &str) -> Status
where
    R: Files + Input + Print + Eprint + AllocGlobal,
{
    let mut file = match open_text(rt, path) {
        Ok(file) => file,
        Err(status) => return status,
    };
    let what = Review::Each(Table::Questions);
    let names = (path, STANDARD_INPUT);
    let outcome = review_inputs(rt, what, names, &mut file, &mut rt.reader());
    Status::of_review(outcome, Status::Done)
}

/// Prints how lines are decided: that of the command line, or those of standard input.
pub fn why<R>(rt: &R, matches: &ArgMatches<'_>) -> Status
where
    R: Files + Input + Print + Eprint + AllocGlobal,
{
    match (matches.get_str(USER), matches.get_strs(LINE)) {
        (Some(user), Some(words)) => explain_one(rt, Review::Why, matches, user, words),
        (Some(user), None) => explain_one(rt, Review::Why, matches, user, &[]),
        (None, _) => explain_all(rt, word_of(matches, FILE)),
    }
}

/// Prints what a user is given for a service, and by whom.
pub fn given<R>(rt: &R, matches: &ArgMatches<'_>) -> Status
where
    R: Files + Print + Eprint + AllocGlobal,
{
    let user = word_of(matches, USER);
    let service = word_of(matches, SERVICE);
    explain_one(rt, Review::Given, matches, user, &[service])
}

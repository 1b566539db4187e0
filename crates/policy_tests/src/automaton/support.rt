//! What the tests share: cases a line, and policies with their automata.

use basics::Sequence;
use pol_automaton::Meter;
use pol_edit::{Edit, read_edit};
use pol_live::{Live, Prepared};
use pol_names::{By, Decision, Name, SubjectId};
use pol_text::Policy;
use std::alloc::Global;
use std::fmt::Write;
use std::process::Abort;
use std::test::Fail;

/// What tells of a line whether it is so.
pub(crate) trait Judge {
    fn is_so(&mut self, alloc: Global, line: &str) -> Result<bool, Fail>;
}

/// Each line is so. A line that begins with `#` is a comment.
pub(crate) fn judges<R: Abort + AllocGlobal, J: Judge>(
    rt: &R,
    judge: &mut J,
    lines: &str,
) -> Result<(), Fail> {
    for line in lines.lines() {
        let line = line.trim_start();
        if !line.is_empty() && !line.starts_with('#') {
            let is_so = judge.is_so(rt.alloc(), line)?;
            assert!(rt; is_so, "{line}");
        }
    }
    Ok(())
}

/// The name that the text is.
pub(crate) fn name(text: &str) -> Result<Name, Fail> {
    match Name::read(text.as_bytes()) {
        Some(name) => Ok(name),
        None => Err(Fail::from("no name")),
    }
}

/// `group NAME` or `user NAME`.
pub(crate) fn subject(words: &str) -> Result<SubjectId, Fail> {
    match words.split_once(' ') {
        Some(("group", group)) => Ok(SubjectId::group(name(group)?)),
        Some((_, user)) => Ok(SubjectId::user(name(user)?)),
        None => Err(Fail::from("no subject")),
    }
}

/// The policy of this text with its automata.
pub(crate) fn build(alloc: Global, text: &str) -> Result<Live, Fail> {
    let policy = Policy::read(alloc, text.as_bytes())?;
    let mut meter = Meter::new();
    Ok(Live::build(alloc, policy, &mut meter)?)
}

/// The edits of a line, which `; ` parts. An empty line has none.
pub(crate) fn edits(alloc: Global, line: &str) -> Result<Sequence<Edit>, Fail> {
    let mut edits = Sequence::new(alloc);
    if line.is_empty() {
        return Ok(edits);
    }
    for words in line.split("; ") {
        let edit = read_edit(alloc, words.as_bytes())?;
        edits.push(edit)?;
    }
    Ok(edits)
}

/// The edits of a line, made ready together.
pub(crate) fn prepare(alloc: Global, live: &Live, line: &str) -> Result<Prepared, Fail> {
    let edits = edits(alloc, line)?;
    let mut meter = Meter::new();
    Ok(live.prepare_all(alloc, edits.as_slice(), &mut meter)?)
}

/// A decision in words.
pub(crate) fn push_decision(out: &mut String, decision: Option<Decision>) -> Result<(), Fail> {
    let Some(Decision { verdict, by }) = decision else {
        out.push_str("unknown user\n")?;
        return Ok(());
    };
    out.push_str(verdict.keyword())?;
    match by {
        By::Rule(owner, number) => writeln!(out, "by {owner} rule {number}")?,
        By::Default => out.push_str("by default\n")?,
    }
    Ok(())
}

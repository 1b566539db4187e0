//! Rules that make a policy too large, as far as they can be told.

ghost use Rattle.std.specs.Prelude.{◌≡◌, ◌++◌, ◌∷◌, [], All, List, true, IfOk, IfSome, OnOk};
ghost use Rattle.basics.specs.Lines.{lines_of};
ghost use Rattle.pol_faults.specs.Sizes as sizes;
ghost use Rattle.pol_words.specs.declared.remark.Remark.{Remark as RemarkValue};

use crate::chains::{Heading, comes_to, find, headings, subject_of};
use crate::searching::search_found;
use basics::{Lines, Sequence};
use pol_names::SubjectId;
use pol_pattern::Version;
use pol_text::body_of;
use pol_words::{Finding, Found, Keyword, Remark, keyword_of, note, words_in};
use std::alloc::{AllocError, Global};

// Whether the rules of this owner are along the chain of the subject that is too large.
fn is_along(headings: &[Heading], large: &Heading, owner: &SubjectId) -> bool
    ensures { result ≡ sizes.is_along headings.now large.now owner.now }
{
    large.id == *owner || comes_to(headings, owner, large.parent)
}

// The same of the rules after a line, where it is so of those before it.
fn along_after(headings: &[Heading], large: &Heading, along: bool, line: &[u8]) -> bool
    ensures { result ≡ sizes.along_after headings.now large.now along line.now }
{
    match subject_of(line) {
        Some(owner) => is_along(headings, large, &owner),
        None => along,
    }
}

// What is told of a line, if it is a rule along the chain.
fn rule_found(version: Version, along: bool, line: &[u8]) -> Option<Found>
    ensures { IfSome result (λ told. (sizes.is_rule_along along line.now ≡ true)
        × (told.finding ≡ Finding.AfterSearch)) }
{
    let (word, rest) = words_in(line);
    match keyword_of(word) {
        Keyword::Rule if along => search_found(version, line, rest),
        _ => None,
    }
}

// Adds what is told of the rules along the chain of the subject that is too large.
fn note_searches(
    remarks: &mut Sequence<Remark>,
    text: &[u8],
    headings: &[Heading],
    large: &Heading,
) -> Result<(), AllocError>
    ensures { OnOk result ((told : List RemarkValue) × (remarks.new ≡ remarks.old ++ told)
        × All (sizes.IsSearch (sizes.rules_along headings.now large.now (lines_of text.now)))
        told) }
{
    let (version, _) = body_of(text);
    let patterns = version.patterns();
    let mut along = false;
    let mut lines = Lines::new(text);
    'lines: while let Some((number, line)) = lines.take_line() {
        note(remarks, number, rule_found(patterns, along, line))?;
        along = along_after(headings, large, along, line);
    }
    Ok(())
}

/// What is told of a text whose policy is refused since the rules along the chain of this subject
/// have too many states: the line of the subject, and then the rules of that chain which may double
/// them.
///
/// Linear in the text, but for the chains of at most 1,024 subjects. The error means that memory
/// ran out.
pub fn size_faults(
    alloc: Global,
    text: &[u8],
    subject: &SubjectId,
) -> Result<Sequence<Remark>, AllocError>
    // First that there are too many states, and then only rules along the chain.
    ensures { IfOk result (λ remarks. sizes.TellsSize text.now subject.now remarks) }
{
    let headings = headings(alloc, text)?;
    let mut remarks = Sequence::new(alloc);
    if let Some(heading) = find(headings.as_slice(), subject) {
        remarks.push(Remark {
            line: heading.line,
            column: 1,
            finding: Finding::TooManyStates,
        })?;
        note_searches(&mut remarks, text, headings.as_slice(), heading)?;
    }
    Ok(remarks)
}

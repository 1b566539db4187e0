//! What is wrong with the chains of a text's subjects, and all that is wrong with a text.

ghost use Rattle.std.specs.Prelude.{◌≡◌, ◌++◌, length, nat_eq, IfOk, OnOk};
ghost use Rattle.std.specs.Option.{option_copied, option_to_list};
ghost use Rattle.std.specs.List.{list_any};
ghost use Rattle.basics.specs.Lines.{lines_of};
ghost use Rattle.pol_words.specs.Plain.{Alike};
ghost use Rattle.pol_faults.specs.Chains as chains;

use crate::faults::lines_faults;
use basics::{Lines, Sequence};
use pol_names::{Name, SubjectId};
use pol_text::{Policy, PolicyRefusal};
use pol_words::{
    Finding, Found, Keyword, Remark, column_of, keyword_of, note, parent_text, words_in, words_of,
};
use std::alloc::{AllocError, Global};

/// A line that begins a subject, and the column of its parent's name.
#[derive(Clone, Copy)]
pub(crate) struct Heading {
    pub(crate) line: usize,
    column: usize,
    pub(crate) id: SubjectId,
    pub(crate) parent: Option<Name>,
}

/// The subject that a line begins, where it begins one.
pub(crate) fn subject_of(line: &[u8]) -> Option<SubjectId>
    ensures { result ≡ chains.subject_of line.now }
{
    let (word, rest) = words_in(line);
    let Keyword::Opens(kind) = keyword_of(word) else {
        return None;
    };
    let (field, _) = words_of(rest);
    match Name::read(field) {
        Some(name) => Some(SubjectId { kind, name }),
        None => None,
    }
}

// Adds that subject.
fn add_heading(found: &mut Sequence<Heading>, number: usize, line: &[u8]) -> Result<(), AllocError>
    ensures { OnOk result
        (found.new ≡ found.old ++ option_to_list (chains.heading_of number line.now)) }
{
    let Some(id) = subject_of(line) else {
        return Ok(());
    };
    let (_, rest) = words_in(line);
    let parent = parent_text(rest);
    found.push(Heading {
        line: number,
        column: column_of(line, parent),
        id,
        parent: Name::read(parent),
    })?;
    Ok(())
}

/// The subjects that a text's lines begin.
pub(crate) fn headings(alloc: Global, text: &[u8]) -> Result<Sequence<Heading>, AllocError>
    ensures { IfOk result (λ found. found ≡ chains.headings 1 (lines_of text.now)) }
{
    let mut found = Sequence::new(alloc);
    let mut lines = Lines::new(text);
    'lines: while let Some((number, line)) = lines.take_line() {
        add_heading(&mut found, number, line)?;
    }
    Ok(found)
}

/// The subject of this kind and name.
pub(crate) fn find<'a>(headings: &'a [Heading], id: &SubjectId) -> Option<&'a Heading>
    ensures { option_copied result ≡ chains.heading_for headings.now id.now }
{
    headings.iter().find(|heading| heading.id == *id)
}

fn group_of<'a>(headings: &'a [Heading], name: &Name) -> Option<&'a Heading>
    ensures { option_copied result ≡ chains.group_of headings.now name.now }
{
    find(headings, &SubjectId::group(*name))
}

// That the parent isn't there.
fn orphan(headings: &[Heading], heading: &Heading) -> Option<Found>
    ensures { result ≡ chains.orphan headings.now heading.now }
{
    match heading.parent {
        Some(name) if group_of(headings, &name).is_none() => Some(Found {
            column: heading.column,
            finding: Finding::NoParent(name),
        }),
        _ => None,
    }
}

fn parent_of(headings: &[Heading], name: &Name) -> Option<Name>
    ensures { result ≡ chains.parent_of headings.now name.now }
{
    match group_of(headings, name) {
        Some(group) => group.parent,
        None => None,
    }
}

/// Whether the chain from this parent on comes to the goal.
pub(crate) fn comes_to(headings: &[Heading], goal: &SubjectId, first: Option<Name>) -> bool
    ensures { result ≡ chains.comes_to (length headings.now) headings.now goal.now first }
{
    let mut parent = first;
    'steps: for _ in 0..headings.len() {
        let Some(name) = parent else {
            return false;
        };
        if SubjectId::group(name) == *goal {
            return true;
        }
        parent = parent_of(headings, &name);
    }
    false
}

// That the chain comes back to its subject.
fn cycle(headings: &[Heading], heading: &Heading) -> Option<Found>
    ensures { result ≡ chains.cycle headings.now heading.now }
{
    if comes_to(headings, &heading.id, heading.parent) {
        Some(Found {
            column: heading.column,
            finding: Finding::Cycle,
        })
    } else {
        None
    }
}

fn orphans(alloc: Global, headings: &[Heading]) -> Result<Sequence<Remark>, AllocError>
    ensures { IfOk result (λ remarks.
        remarks ≡ chains.told_of (chains.orphan headings.now) headings.now) }
{
    let mut remarks = Sequence::new(alloc);
    'headings: for heading in headings {
        note(&mut remarks, heading.line, orphan(headings, heading))?;
    }
    Ok(remarks)
}

fn cycles(alloc: Global, headings: &[Heading]) -> Result<Sequence<Remark>, AllocError>
    ensures { IfOk result (λ remarks.
        remarks ≡ chains.told_of (chains.cycle headings.now) headings.now) }
{
    let mut remarks = Sequence::new(alloc);
    'headings: for heading in headings {
        note(&mut remarks, heading.line, cycle(headings, heading))?;
    }
    Ok(remarks)
}

// What is wrong with the chains.
fn chain_faults(alloc: Global, headings: &[Heading]) -> Result<Sequence<Remark>, AllocError>
    ensures { IfOk result (λ remarks. remarks ≡ chains.chain_faults headings.now) }
{
    if headings.len() > Policy::MAX_SUBJECTS {
        return Ok(Sequence::new(alloc));
    }
    let remarks = orphans(alloc, headings)?;
    if !remarks.is_empty() {
        return Ok(remarks);
    }
    cycles(alloc, headings)
}

fn found_faults(alloc: Global, text: &[u8]) -> Result<Sequence<Remark>, AllocError>
    ensures { IfOk result (λ remarks. Alike remarks (chains.found_faults text.now)) }
{
    let remarks = lines_faults(alloc, text)?;
    if !remarks.is_empty() {
        return Ok(remarks);
    }
    let headings = headings(alloc, text)?;
    chain_faults(alloc, headings.as_slice())
}

fn is_told(remarks: &[Remark], line: usize) -> bool
    ensures { result ≡ list_any (λ remark. nat_eq remark.line line) remarks.now }
{
    remarks.iter().any(|remark| remark.line == line)
}

/// What is wrong with a text that a check refuses for this, at this line: each line that is refused
/// by itself; where there is none, each parent that isn't there; where there is none of these, each
/// group that its own chain comes back to. The check's refusal comes first, unless its line is told
/// of.
///
/// Linear in the text, but for the chains of at most 1,024 subjects. The error means that memory
/// ran out.
pub fn text_faults(
    alloc: Global,
    text: &[u8],
    line: usize,
    refusal: PolicyRefusal,
) -> Result<Sequence<Remark>, AllocError>
    // They are the remarks that are defined, but for what isn't defined of a remark.
    ensures { IfOk result (λ remarks.
        Alike remarks (chains.text_faults text.now line refusal)) }
{
    let mut remarks = found_faults(alloc, text)?;
    if is_told(remarks.as_slice(), line) {
        return Ok(remarks);
    }
    remarks.insert(
        0,
        Remark {
            line,
            column: 1,
            finding: Finding::Refused(refusal),
        },
    )?;
    Ok(remarks)
}

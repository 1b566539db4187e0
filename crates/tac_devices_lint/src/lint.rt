//! The lint of a devices' file.

ghost use Rattle.std.specs.Prelude.{◌≡◌, ◌≢◌, [], All, Ok, IfOk, IfSome};
ghost use Rattle.tac_devices_lint.specs.Ends.{IsEnd, EndOf};
ghost use Rattle.tac_devices_lint.specs.Places.{InLine, IsPlaced};

use crate::beginning::beginning_of;
use crate::block::lack;
use crate::clash::clash;
use crate::doubts::doubt_remarks;
use crate::finding::Finding;
use crate::odd::odd_finding;
use crate::remark::{Found, Remark, note, placed};
use crate::value::value_finding;
use crate::whole::WholeFault;
use crate::word::{LineWord, words_of};
use basics::{Lines, Sequence, is_text, split_once, without_leading_spaces};
use std::alloc::{AllocError, Global};
use tac_devices::{Devices, DevicesFault, DevicesRefusal, read_devices};

/// How many lines with a fault are told of.
const MOST_FAULTS: usize = 1_000;

/// How the lint of a text ended.
#[derive(Clone, Copy, PartialEq, Eq)]
pub enum DevicesLintEnd {
    /// It may stand, and nothing was told of it.
    Quiet,
    /// It may stand, and something was told of it.
    Told,
    /// It is refused, and why was told.
    Refused,
}

/// What is told of the text of a devices' file.
pub struct DevicesLint {
    /// What is told of its lines, in their order.
    pub remarks: Sequence<Remark>,
    pub end: DevicesLintEnd,
}

// By hand, so that a proof of an owner has one call at each exit, not a drop of each field.
impl Drop for DevicesLint {
    fn drop(self) {
        let DevicesLint { remarks: _, end: _ } = self;
    }
}

// Why a text is refused, and at which line.
#[derive(Clone, Copy)]
struct Fault {
    line: usize,
    refusal: DevicesRefusal,
}

// What keeps a line of symbols, without the spaces that it begins with, from standing by itself.
fn said_finding(alloc: Global, line: &[u8], said: &[u8]) -> Result<Option<Found>, AllocError>
    ensures { IfOk result (λ told. IfSome told (λ found. InLine line.now found.column)) }
{
    if let [] | [b'#', ..] = said {
        return Ok(None);
    }
    let (word, _) = words_of(said);
    match LineWord::read(word) {
        Some(word) => {
            let value = split_once(said, b' ').map(|parts| parts.1);
            Ok(value_finding(line, word, value))
        }
        None => {
            let beginning = beginning_of(alloc, said)?;
            Ok(Some(placed(line, said, Finding::Beginning(beginning))))
        }
    }
}

// What keeps a line from standing by itself, if anything does.
fn line_finding(alloc: Global, number: usize, line: &[u8]) -> Result<Option<Found>, AllocError>
    ensures { IfOk result (λ told. IfSome told (λ found. InLine line.now found.column)) }
{
    if is_text(line) {
        said_finding(alloc, line, without_leading_spaces(line))
    } else {
        Ok(odd_finding(number, line))
    }
}

// How many there are already, which is as many as there may be.
fn limit(line: &[u8]) -> WholeFault {
    match words_of(without_leading_spaces(line)).0 {
        b"device" => WholeFault::TooManyDevices,
        _ => WholeFault::TooManyPrefixes,
    }
}

// Why this line of a text, of this number, is refused, which is right by itself.
fn whole_fault(text: &[u8], number: usize, line: &[u8], refusal: DevicesRefusal) -> WholeFault {
    let known = match refusal {
        DevicesRefusal::NoDevice => Some(WholeFault::NoDevice),
        DevicesRefusal::Repeated => clash(text, number, line),
        DevicesRefusal::Limit => Some(limit(line)),
        DevicesRefusal::NoKey => Some(WholeFault::NoKey),
        DevicesRefusal::NoAddress => Some(WholeFault::NoAddress),
        _ => None,
    };
    let line = number;
    known.unwrap_or(WholeFault::Refused { line, refusal })
}

// What this line's device lacks, which this text follows, where a text is refused since one lacks
// something.
fn lack_of(line: &[u8], rest: &[u8], refusal: DevicesRefusal) -> Option<WholeFault> {
    match refusal {
        DevicesRefusal::NoKey | DevicesRefusal::NoAddress => lack(line, rest),
        _ => None,
    }
}

// What keeps a line of a text from standing, which the rest follows, where the text is refused so.
fn finding_of(
    alloc: Global,
    text: &[u8],
    fault: Fault,
    number: usize,
    line: &[u8],
    rest: &[u8],
) -> Result<Option<Found>, AllocError>
    ensures { IfOk result (λ told. IfSome told (λ found. InLine line.now found.column)) }
{
    if let Some(found) = line_finding(alloc, number, line)? {
        return Ok(Some(found));
    }
    let whole = if number == fault.line {
        Some(whole_fault(text, number, line, fault.refusal))
    } else {
        lack_of(line, rest, fault.refusal)
    };
    match whole {
        Some(whole) => {
            let said = without_leading_spaces(line);
            Ok(Some(placed(line, said, Finding::Whole(whole))))
        }
        None => Ok(None),
    }
}

// What keeps the lines of a text from standing, which is refused so.
fn line_faults(alloc: Global, text: &[u8], fault: Fault) -> Result<Sequence<Remark>, AllocError>
    ensures { IfOk result (All (IsPlaced text.now)) }
{
    let mut lines = Lines::new(text);
    let mut remarks = Sequence::new(alloc);
    'lines: while let Some((number, line)) = lines.take_line() {
        if remarks.len() >= MOST_FAULTS {
            note(
                &mut remarks,
                number,
                Some(placed(line, line, Finding::Enough)),
            )?;
            return Ok(remarks);
        }
        let told = finding_of(alloc, text, fault, number, line, lines.rest())?;
        note(&mut remarks, number, told)?;
    }
    Ok(remarks)
}

// The same, and at least that it is refused.
fn faults(alloc: Global, text: &[u8], fault: Fault) -> Result<Sequence<Remark>, AllocError>
    requires { text.now ≢ [] }
    ensures placed { IfOk result (All (IsPlaced text.now)) }
    ensures told { IfOk result (λ remarks. remarks ≢ []) }
{
    let mut remarks = line_faults(alloc, text, fault)?;
    if !remarks.is_empty() {
        return Ok(remarks);
    }
    let Fault { line, refusal } = fault;
    remarks.push(Remark {
        line: 1,
        column: 1,
        finding: Finding::Whole(WholeFault::Refused { line, refusal }),
    })?;
    Ok(remarks)
}

// What is told of devices that may stand.
fn sound(alloc: Global, text: &[u8], devices: &Devices) -> Result<DevicesLint, AllocError>
    ensures placed { IfOk result (λ lint. All (IsPlaced text.now) lint.remarks) }
    ensures end { IfOk result (λ lint. EndOf (Ok devices.now) lint.end) }
{
    let doubts = devices.remarks(alloc)?;
    let end = if doubts.is_empty() {
        DevicesLintEnd::Quiet
    } else {
        DevicesLintEnd::Told
    };
    let remarks = doubt_remarks(alloc, text, doubts)?;
    Ok(DevicesLint { remarks, end })
}

/// What is told of the text of a devices' file (docs/DEVICES.md): of one that is refused each line
/// that is wrong, at most 1,000 of them, and of one that may stand what is remarked on it.
///
/// Expected time linear in the text, but for a look at all devices for each device. The error means
/// that memory ran out.
pub fn lint_devices(alloc: Global, text: &[u8]) -> Result<DevicesLint, AllocError>
    // Each line and column is one of the text's.
    ensures placed { IfOk result (λ lint. All (IsPlaced text.now) lint.remarks) }
    // The end tells whether the text is refused, and whether anything is remarked on it.
    ensures end { IfOk result (λ lint. IsEnd text.now lint.end) }
    // Of a text that is refused something is told.
    ensures told { IfOk result (λ lint. lint.end ≡ DevicesLintEnd.Refused → lint.remarks ≢ []) }
{
    match read_devices(alloc, text) {
        Ok(devices) => sound(alloc, text, &devices),
        Err(DevicesFault::Refused { line, refusal }) => {
            let remarks = faults(alloc, text, Fault { line, refusal })?;
            Ok(DevicesLint {
                remarks,
                end: DevicesLintEnd::Refused,
            })
        }
        Err(DevicesFault::Memory) => Err(AllocError),
    }
}

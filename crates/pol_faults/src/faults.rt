//! What keeps the lines of a text from being a policy's.

ghost use Rattle.std.specs.Prelude.{◌≡◌, ◌++◌, Option, drop, IfOk, OnOk};
ghost use Rattle.std.specs.Option.{option_map};
ghost use Rattle.std.specs.Str.{is_utf8 as utf8_test};
ghost use Rattle.basics.specs.Lines.{lines_of};
ghost use Rattle.pol_text.specs.Text.{body_of as body_wanted};
ghost use Rattle.pol_words.specs.Places.{noted};
ghost use Rattle.pol_words.specs.Plain.{plain_found, Alike};
ghost use Rattle.pol_words.specs.declared.remark.Found.{Found as FoundValue};
ghost use Rattle.pol_faults.specs.Faults as faults;

use basics::{Sequence, is_symbol, is_text, without_leading_spaces};
use pol_names::Kind;
use pol_pattern::PatternFault;
use pol_text::{Policy, PolicyFault, PolicyRefusal, TextVersion, body_of};
use pol_words::{
    Finding, Found, Keyword, Remark, keyword_of, line_reason, name_found, note, reason_found,
    value_reason, words_in, words_of,
};
use std::alloc::{AllocError, Global};
use std::str;

// The line from its first byte on that is no symbol.
fn from_odd(line: &[u8]) -> &[u8]
    ensures { result.now ≡ faults.from_odd line.now }
{
    let mut rest = line;
    while let [byte, after @ ..] = rest {
        if !is_symbol(*byte) {
            return rest;
        }
        rest = after;
    }
    rest
}

fn is_utf8(line: &[u8]) -> bool
    ensures { result ≡ utf8_test line.now }
{
    str::from_utf8(line).is_ok()
}

fn odd_byte(number: usize, line: &[u8], byte: u8) -> Finding
    ensures { result ≡ faults.odd_byte number line.now byte }
{
    if byte == b'\r' {
        return Finding::CarriageReturn;
    }
    if byte == b'\t' {
        return Finding::Tab;
    }
    if number == 1 && line.starts_with(b"\xEF\xBB\xBF") {
        return Finding::ByteOrderMark;
    }
    if is_utf8(line) {
        Finding::NotSymbol
    } else {
        Finding::NotUtf8
    }
}

// The first byte of the line of this number that is no symbol.
fn odd_found(number: usize, line: &[u8]) -> Option<Found>
    ensures { result ≡ faults.odd_found number line.now (faults.from_odd line.now) }
{
    let rest = from_odd(line);
    match rest {
        [byte, ..] => Some(Found::at(line, rest, odd_byte(number, line, *byte))),
        [] => None,
    }
}

// What a line says if its first word is read in lower case.
fn meant(alloc: Global, line: &[u8]) -> Result<Keyword, AllocError>
    ensures { IfOk result (λ says. says ≡ faults.meant line.now) }
{
    let (word, _) = words_in(line);
    let word = word.to_ascii_lowercase(alloc)?;
    Ok(keyword_of(word.as_slice()))
}

fn is_nothing(says: Keyword) -> bool
    ensures { result ≡ faults.is_nothing says }
{
    matches!(says, Keyword::Nothing)
}

// Whether the first word is a keyword but for its capitals.
fn has_capitals(alloc: Global, line: &[u8]) -> Result<bool, AllocError>
    ensures { IfOk result (λ capitals. capitals ≡ faults.has_capitals line.now) }
{
    let (word, _) = words_in(line);
    let lower = meant(alloc, line)?;
    Ok(is_nothing(keyword_of(word)) && !is_nothing(lower))
}

// The kind of the present subject after one more line.
fn kind_after(alloc: Global, present: Option<Kind>, line: &[u8]) -> Result<Option<Kind>, AllocError>
    ensures { IfOk result (λ next. next ≡ faults.kind_after present line.now) }
{
    match meant(alloc, line)? {
        Keyword::Opens(kind) => Ok(Some(kind)),
        _ if is_text(line) => Ok(present),
        _ => Ok(Some(Kind::User)),
    }
}

// A line that begins such a subject, if the line that says this needs one before it.
fn opening(present: Option<Kind>, says: Keyword) -> &'static str
    ensures { result.now ≡ faults.opening_for present says }
{
    match (says, present) {
        (Keyword::Opens(_), _) | (_, None) => "",
        (_, Some(Kind::Group)) => "group x\n",
        (_, Some(Kind::User)) => "user x\n",
    }
}

// The line before these: one that says version 2 or 3, or an empty one.
fn first_line(version: TextVersion) -> &'static str
    ensures { result.now ≡ faults.first_line version }
{
    match version {
        TextVersion::One => "\n",
        TextVersion::Two => "policy 2\n",
        TextVersion::Three => "policy 3\n",
    }
}

fn own_refusal(refusal: PolicyRefusal) -> Option<PolicyRefusal>
    ensures { result ≡ faults.own_refusal refusal }
{
    match refusal {
        PolicyRefusal::NoSuchParent | PolicyRefusal::Cycle => None,
        refusal => Some(refusal),
    }
}

// What a line by itself is refused for.
fn refusal_of(
    alloc: Global,
    version: TextVersion,
    present: Option<Kind>,
    line: &[u8],
) -> Result<Option<PolicyRefusal>, AllocError>
    ensures { IfOk result (λ refusal. refusal ≡ faults.refusal_of version present line.now) }
{
    let (word, _) = words_in(line);
    let mut text = Vec::new(alloc);
    text.extend_from_slice(first_line(version).as_bytes())?;
    text.extend_from_slice(opening(present, keyword_of(word)).as_bytes())?;
    text.extend_from_slice(line)?;
    match Policy::read(alloc, text.as_slice()) {
        Ok(_) => Ok(None),
        Err(PolicyFault::Refused { refusal, .. }) => Ok(own_refusal(refusal)),
        Err(PolicyFault::Memory) => Err(AllocError),
    }
}

// How many symbols of a pattern stand before what is wrong with it.
fn place_in(fault: PatternFault) -> usize
    ensures { result ≡ faults.place_in fault }
{
    match fault {
        PatternFault::Unprintable(place)
        | PatternFault::Unclosed(place)
        | PatternFault::Unopened(place)
        | PatternFault::NothingToRepeat(place)
        | PatternFault::BadClass(place)
        | PatternFault::BadEscape(place)
        | PatternFault::BadRepeat(place) => place,
        PatternFault::TooLong
        | PatternFault::TooDeep
        | PatternFault::TooLarge
        | PatternFault::Memory => 0,
    }
}

// What comes after so many bytes.
fn after_first(text: &[u8], count: usize) -> &[u8]
    ensures { result.now ≡ drop count text.now }
{
    if count <= text.len() {
        &text[count..]
    } else {
        &[]
    }
}

// What is wrong with a value: told at an attribute, or else at all that comes after the first word.
fn value_found(line: &[u8], says: Keyword, word: &[u8], rest: &[u8]) -> Found
    ensures { plain_found result ≡ plain_found (faults.value_found line.now says rest.now) }
{
    let (_, attribute) = words_of(rest);
    let end = match says {
        Keyword::Service if !attribute.is_empty() => attribute,
        _ => rest,
    };
    Found::at(line, end, Finding::BadValue(value_reason(word, says, rest)))
}

// Why a line that has the form of one is refused: told in the pattern, at the name, at the value,
// or at the first word.
fn other_found(line: &[u8], refusal: PolicyRefusal) -> Found
    ensures { plain_found result ≡ plain_found (faults.other_found line.now refusal) }
{
    let (word, rest) = words_in(line);
    let said = without_leading_spaces(line);
    match refusal {
        PolicyRefusal::BadPattern(fault) => Found::at(
            line,
            after_first(rest, place_in(fault)),
            Finding::Refused(refusal),
        ),
        PolicyRefusal::BadName => name_found(line, keyword_of(word), rest),
        PolicyRefusal::BadValue => value_found(line, keyword_of(word), word, rest),
        PolicyRefusal::NoSubject => Found::at(line, said, Finding::NoSubject),
        refusal => Found::at(line, said, Finding::Refused(refusal)),
    }
}

// Why a line is refused, and where that is told.
fn refusal_found(
    alloc: Global,
    version: TextVersion,
    line: &[u8],
    refusal: PolicyRefusal,
) -> Result<Found, AllocError>
    ensures { IfOk result (λ told.
        plain_found told ≡ plain_found (faults.refusal_found version line.now refusal)) }
{
    match refusal {
        PolicyRefusal::BadLine => {
            let reason = line_reason(alloc, version, without_leading_spaces(line))?;
            Ok(reason_found(line, reason))
        }
        refusal => Ok(other_found(line, refusal)),
    }
}

// What is wrong with a line of symbols by itself.
fn text_found(
    alloc: Global,
    version: TextVersion,
    present: Option<Kind>,
    line: &[u8],
) -> Result<Option<Found>, AllocError>
    ensures { IfOk result (λ told. option_map plain_found told
        ≡ option_map plain_found (faults.text_found version present line.now)) }
{
    if has_capitals(alloc, line)? {
        let said = without_leading_spaces(line);
        return Ok(Some(Found::at(line, said, Finding::Capitals)));
    }
    match refusal_of(alloc, version, present, line)? {
        Some(refusal) => {
            let told = refusal_found(alloc, version, line, refusal)?;
            Ok(Some(told))
        }
        None => Ok(None),
    }
}

// What is wrong with a line by itself.
fn line_found(
    alloc: Global,
    version: TextVersion,
    present: Option<Kind>,
    number: usize,
    line: &[u8],
) -> Result<Option<Found>, AllocError>
    ensures { IfOk result (λ told. option_map plain_found told
        ≡ option_map plain_found (faults.line_found version present number line.now)) }
{
    if is_text(line) {
        text_found(alloc, version, present, line)
    } else {
        Ok(odd_found(number, line))
    }
}

// Adds what is wrong with a line by itself.
fn note_line(
    alloc: Global,
    remarks: &mut Sequence<Remark>,
    version: TextVersion,
    present: Option<Kind>,
    number: usize,
    line: &[u8],
) -> Result<(), AllocError>
    ensures { OnOk result ((told : Option FoundValue) × (remarks.new ≡ remarks.old
        ++ noted number told) × (option_map plain_found told
        ≡ option_map plain_found (faults.line_found version present number line.now))) }
{
    match line_found(alloc, version, present, number, line) {
        Ok(told) => note(remarks, number, told),
        Err(fault) => Err(fault),
    }
}

/// What is wrong with the lines of a text, each by itself.
pub(crate) fn lines_faults(alloc: Global, text: &[u8]) -> Result<Sequence<Remark>, AllocError>
    ensures { IfOk result (λ remarks.
        Alike remarks (faults.body_faults (body_wanted (lines_of text.now)))) }
{
    let (version, mut lines) = body_of(text);
    let mut remarks = Sequence::new(alloc);
    let mut present = None;
    'lines: while let Some((number, line)) = lines.take_line() {
        note_line(alloc, &mut remarks, version, present, number, line)?;
        present = kind_after(alloc, present, line)?;
    }
    Ok(remarks)
}

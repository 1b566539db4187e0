//! Why a line isn't one of a policy.

ghost use Rattle.std.specs.Prelude.{◌≡◌, ◌++◌, Some, IfOk};
ghost use Rattle.pol_words.specs.Reasons as reasons;
ghost use Rattle.pol_words.specs.FindingText.{reason_text, near_text};
ghost use Rattle.pol_words.specs.Plain.{plain_reason};

use crate::finding::Finding;
use crate::near::{Word, nearest};
use crate::remark::Found;
use crate::words::{Keyword, keyword_of, words_of};
use basics::{split_once, without_leading_spaces};
use pol_text::TextVersion;
use std::alloc::{AllocError, Global};
use std::fmt;

/// Why a line isn't one of a policy. Of several reasons the first is told, in this order but for
/// NoValue: a missing parent comes after the spaces.
#[derive(Clone, Copy)]
pub enum LineReason {
    /// It is a line as tac_plus's configuration has them.
    OtherProgram,
    /// It begins with `policy`, and isn't a first line that says a version.
    Version,
    /// No line of a policy begins with its first word, and none with one like it.
    Unknown,
    /// No line of a policy begins with its first word, but lines begin with this one.
    Misspelt(Word),
    /// A hash or what is said of a service, in a text of version 1 or 2.
    OfVersion3,
    /// Nothing follows its first word, or the `in` after a name.
    NoValue,
    /// A secret under a group.
    OfUsers,
    /// It ends with a space.
    BlankAtEnd,
    /// It has two spaces in a row.
    TwoBlanks,
    /// Something else than `in PARENT` follows a subject's name.
    Heading,
    /// More than one word follows `refuse`.
    Refused,
    /// More than one word follows `priv`.
    Level,
}

impl LineReason {
    // How it is told, up to the word that is near.
    fn text(&self) -> &'static str
        ensures { reason_text self.now ≡ result.now ++ near_text self.now }
    {
        match self {
            LineReason::OtherProgram =>
                "this is a line of another program's file, such as tac_plus's",
            LineReason::Version => {
                "only the first line of a text says a version, as 'policy 2' or 'policy 3' exactly"
            }
            LineReason::Unknown => "no line of a policy begins with this word",
            LineReason::Misspelt(_) => "no line of a policy begins with this word: is '",
            LineReason::OfVersion3 => {
                "such lines are of version 3: is 'policy 3' meant as the first line?"
            }
            LineReason::NoValue => "a value is missing at its end",
            LineReason::OfUsers => "this is a setting of users, and it stands under a group",
            LineReason::BlankAtEnd => "it ends with a space",
            LineReason::TwoBlanks => "two spaces in a row, where words are set apart by one",
            LineReason::Heading => "after the name nothing may follow but 'in PARENT'",
            LineReason::Refused => "after 'refuse' one service may follow, and nothing else",
            LineReason::Level => "after 'priv' one number may follow, and nothing else",
        }
    }
}

impl fmt::Display for LineReason {
    ghost output = { λ reason. Some (reason_text reason) };

    fn fmt<W: fmt::Write>(&self, f: &mut fmt::Formatter<W>) -> fmt::Result {
        f.write_str(self.text())?;
        match self {
            LineReason::Misspelt(word) => write!(f, "{word}' meant?"),
            _ => Ok(()),
        }
    }
}

// As tac_plus has it: `KEY=..`, `KEY = ..`, `DEFAULT KEY = ..`, `NAME {` or `}`.
fn is_of_other_program(line: &[u8]) -> bool
    ensures { result ≡ reasons.is_of_other_program line.now }
{
    let (first, rest) = words_of(line);
    let (second, rest) = words_of(rest);
    let (third, _) = words_of(rest);
    split_once(first, b'=').is_some()
        || second == b"=".as_slice()
        || third == b"=".as_slice()
        || line.starts_with(b"}")
        || line.ends_with(b" {")
}

// No line begins with the word, or it is `policy`.
fn unknown_reason(alloc: Global, word: &[u8]) -> Result<LineReason, AllocError>
    ensures { IfOk result (λ reason. plain_reason reason ≡ reasons.unknown_reason word.now) }
{
    if word == b"policy".as_slice() {
        return Ok(LineReason::Version);
    }
    match nearest(alloc, word)? {
        Some(word) => Ok(LineReason::Misspelt(word)),
        None => Ok(LineReason::Unknown),
    }
}

// The line from its first two spaces in a row on.
fn from_two_blanks(line: &[u8]) -> &[u8]
    ensures { result.now ≡ reasons.from_two_blanks line.now }
{
    let mut rest = line;
    while let [byte, after @ ..] = rest {
        if *byte == b' ' && after.starts_with(b" ") {
            return rest;
        }
        rest = after;
    }
    rest
}

// `in` without a parent, or too many fields.
fn form_reason(says: Keyword, rest: &[u8]) -> LineReason
    ensures { plain_reason result ≡ reasons.form_reason says rest.now }
{
    let (_, below) = words_of(rest);
    match says {
        Keyword::Opens(_) if below == b"in".as_slice() => LineReason::NoValue,
        Keyword::Opens(_) => LineReason::Heading,
        Keyword::Service => LineReason::Refused,
        _ => LineReason::Level,
    }
}

fn fields_reason(line: &[u8], says: Keyword, rest: &[u8]) -> LineReason
    ensures { plain_reason result ≡ reasons.fields_reason line.now says rest.now }
{
    if line.ends_with(b" ") {
        return LineReason::BlankAtEnd;
    }
    if from_two_blanks(line).len() == 0 {
        return form_reason(says, rest);
    }
    LineReason::TwoBlanks
}

// Of a line that begins with a keyword.
fn known_reason(line: &[u8], says: Keyword, rest: &[u8]) -> LineReason
    ensures { plain_reason result ≡ reasons.known_reason line.now says rest.now }
{
    if split_once(line, b' ').is_none() {
        return LineReason::NoValue;
    }
    match says {
        Keyword::Secret | Keyword::Hash => LineReason::OfUsers,
        says => fields_reason(line, says, rest),
    }
}

/// Why a line that is refused as BadLine isn't one of a policy of this version. It has no spaces at
/// its beginning. The error means that memory ran out.
pub fn line_reason(
    alloc: Global,
    version: TextVersion,
    line: &[u8],
) -> Result<LineReason, AllocError>
    // It is the reason that is defined. Where no line begins with the word, one that is near may be
    // told beside.
    ensures { IfOk result (λ reason.
        plain_reason reason ≡ reasons.line_reason version line.now) }
{
    if is_of_other_program(line) {
        return Ok(LineReason::OtherProgram);
    }
    let (word, rest) = words_of(line);
    match keyword_of(word) {
        Keyword::Nothing => unknown_reason(alloc, word),
        Keyword::Hash if !version.has_hashes() => Ok(LineReason::OfVersion3),
        Keyword::Service if !version.has_services() => Ok(LineReason::OfVersion3),
        says => Ok(known_reason(line, says, rest)),
    }
}

/// What is told of a line for that reason: at its last space, at two of them, or at its first word.
pub fn reason_found(line: &[u8], reason: LineReason) -> Found
    ensures { result ≡ reasons.reason_found line.now reason }
{
    let said = without_leading_spaces(line);
    let end = match reason {
        LineReason::BlankAtEnd => b" ".as_slice(),
        LineReason::TwoBlanks => from_two_blanks(said),
        _ => said,
    };
    Found::at(line, end, Finding::BadLine(reason))
}

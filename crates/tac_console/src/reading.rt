//! Reading a line of a console.

ghost use Rattle.std.specs.Prelude.{◌≡◌, IsTrue, IfOk, OnErr};
ghost use Rattle.pol_edit.specs.EditText.{kind_of, parted, subject_of};
ghost use Rattle.tac_console.specs.ConsoleText as text;
ghost use Rattle.tac_console.specs.Spelling.{Spells};
ghost use Rattle.tac_console.specs.declared.asked.Asked.{Asked as AskedValue};

use crate::asked::Asked;
use basics::{Bytes, is_text, split_once};
use pol_edit::{EditFault, read_edit};
use pol_names::{Kind, Name, ServiceId, SubjectId};
use std::alloc::{AllocError, Global};
use tac_desk::Query;

// Which kind of subject.
fn kind(word: &[u8]) -> Option<Kind>
    ensures { result ≡ kind_of word.now }
{
    if word == b"group".as_slice() {
        return Some(Kind::Group);
    }
    if word == b"user".as_slice() {
        return Some(Kind::User);
    }
    None
}

// `KIND NAME`.
#[tactic(auto, unfolding(pol_edit::specs::EditText::subject_of))]
fn subject(words: &[u8]) -> Option<SubjectId>
    ensures { result ≡ subject_of words.now }
{
    let (word, name) = split_once(words, b' ')?;
    let kind = kind(word)?;
    let name = Name::read(name)?;
    Some(SubjectId { kind, name })
}

// `NAME` or `NAME LINE`.
fn why(alloc: Global, words: &[u8]) -> Result<Option<Query>, AllocError>
    ensures query { IfOk result (λ query. query ≡ text.why words.now (parted words.now)) }
    ensures memory { OnErr result
        (IsTrue (text.is_why_in (text.why words.now (parted words.now)))) }
{
    let (name, line) = match split_once(words, b' ') {
        Some(parts) => parts,
        None => (words, b"".as_slice()),
    };
    let Some(user) = Name::read(name) else {
        return Ok(None);
    };
    let line = Bytes::from_slice(alloc, line)?;
    Ok(Some(Query::Why { user, line }))
}

// `NAME SERVICE`.
fn given(words: &[u8]) -> Option<Query>
    ensures { result ≡ text.given (parted words.now) }
{
    let (name, service) = split_once(words, b' ')?;
    let user = Name::read(name)?;
    let service = ServiceId::read(service)?;
    Some(Query::Given { user, service })
}

// A question of this first word, which a space follows.
fn worded(alloc: Global, word: &[u8], rest: &[u8]) -> Result<Option<Query>, AllocError>
    ensures query { IfOk result (λ query. query ≡ text.query_by word.now rest.now) }
    ensures memory { OnErr result
        (IsTrue (text.is_why_in (text.query_by word.now rest.now))) }
{
    if word == b"tally".as_slice() {
        return Ok(subject(rest).map(Query::Tally));
    }
    if word == b"reach".as_slice() {
        return Ok(subject(rest).map(Query::Reach));
    }
    if word == b"why".as_slice() {
        return why(alloc, rest);
    }
    if word == b"given".as_slice() {
        return Ok(given(rest));
    }
    Ok(None)
}

// The question that a line says.
#[tactic(auto, unfolding(crate::specs::ConsoleText::query_of))]
fn query(alloc: Global, line: &[u8]) -> Result<Option<Query>, AllocError>
    ensures query { IfOk result (λ query. query ≡ text.query_of line.now) }
    ensures memory { OnErr result (IsTrue (text.is_why_in (text.query_of line.now))) }
{
    if !is_text(line) {
        return Ok(None);
    }
    if line == b"policy".as_slice() {
        return Ok(Some(Query::Policy));
    }
    if line == b"shadow".as_slice() {
        return Ok(Some(Query::Shadow));
    }
    if line == b"records".as_slice() {
        return Ok(Some(Query::Records));
    }
    match split_once(line, b' ') {
        Some((word, rest)) => worded(alloc, word, rest),
        None => Ok(None),
    }
}

// Which word of a batch a line is, if it is one.
fn batch_word(line: &[u8]) -> Option<Asked>
    ensures { result ≡ text.batch_word line.now }
{
    if line == b"begin".as_slice() {
        return Some(Asked::Begin);
    }
    if line == b"commit".as_slice() {
        return Some(Asked::Commit);
    }
    if line == b"abandon".as_slice() {
        return Some(Asked::Abandon);
    }
    None
}

/// Reads a line of a console, without its LF: an edit, a question, a word of a batch, or none of
/// them. The error means that memory ran out.
pub fn read_console(alloc: Global, line: &[u8]) -> Result<Asked, AllocError>
    ensures exact { IfOk result (λ asked. asked ≡ text.asked_by line.now) }

    // What is read is spelled so.
    ensures found { IfOk result (Spells line.now) }

    // What is spelled so is read, unless memory runs out: only the texts of edits and of `why`
    // take any.
    ensures memory { OnErr result (IsTrue (text.may_take_memory (text.asked_by line.now))) }
    ensures only { (asked : AskedValue) → Spells line.now asked →
        IfOk result (λ read. read ≡ asked) }
{
    if let Some(word) = batch_word(line) {
        return Ok(word);
    }
    if let Some(query) = query(alloc, line)? {
        return Ok(Asked::Query(query));
    }
    match read_edit(alloc, line) {
        Ok(edit) => Ok(Asked::Edit(edit)),
        Err(EditFault::BadEdit) => Ok(Asked::Neither),
        Err(_) => Err(AllocError),
    }
}

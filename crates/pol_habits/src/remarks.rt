//! What is right in a policy and probably not meant.

use crate::ending::{lacks_end, names_end};
use crate::habits::{ask_pattern, ask_secret, rounds_habit};
use crate::hidden::hidden_of;
use crate::question;
use crate::question::{Asked, ask};
use crate::services::ask_service;
use crate::settings::{default_habit, enable_habit, level_habit};
use crate::shells::{closed, login_habit, shell_habit};
use basics::{Lines, Sequence};
use indexmap::IndexSet;
use pol_meaning::Shadowed;
use pol_names::{Kind, Name, SubjectId};
use pol_pattern::Version;
use pol_text::{Policy, Subject, body_of};
use pol_words::{Keyword, column_of, keyword_of, words_in, words_of};
use std::alloc::{AllocError, Global};

/// The subject whose lines are read, and how many of its rules were: a rule, by its owner and its
/// number.
#[derive(Clone, Copy, PartialEq, Eq, Hash)]
pub(crate) struct Present {
    pub(crate) owner: SubjectId,
    pub(crate) rules: u16,
}

/// What is known of a policy while its lines are read.
#[derive(Clone, Copy)]
struct Known<'a> {
    version: Version,
    policy: &'a Policy,
    // whether a rule ends in ` <cr>`
    others: bool,
    // the subjects that have users, none of whom may start a shell
    shut: &'a Sequence<SubjectId>,
    // the rules that decide nothing
    hidden: &'a IndexSet<Present>,
}

fn has_end(subject: &Subject) -> bool {
    let rules = subject.rules.as_slice();
    rules
        .iter()
        .any(|rule| names_end(Version::Two, rule.pattern.source()))
}

fn lacks_ends(alloc: Global, subject: &Subject) -> Result<bool, AllocError> {
    let rules = subject.rules.as_slice();
    'rules: for rule in rules {
        if lacks_end(alloc, Version::Two, rule.pattern.source())? {
            return Ok(true);
        }
    }
    Ok(false)
}

// Whether a rule ends in ` <cr>`.
fn has_ends(policy: &Policy) -> bool {
    policy.subjects().iter().any(|subject| has_end(subject))
}

// Whether a rule lacks it.
fn has_lack(alloc: Global, policy: &Policy) -> Result<bool, AllocError> {
    let subjects = policy.subjects();
    'subjects: for subject in subjects {
        if lacks_ends(alloc, subject)? {
            return Ok(true);
        }
    }
    Ok(false)
}

fn policy_habit(alloc: Global, policy: &Policy) -> Result<Option<&'static str>, AllocError> {
    if policy.len() == 0 {
        return Ok(Some(question::NO_SUBJECTS));
    }
    if has_ends(policy) {
        return Ok(None);
    }
    if has_lack(alloc, policy)? {
        return Ok(Some(question::NO_ENDS));
    }
    Ok(None)
}

// The subject that a line begins.
fn opened(kind: Kind, rest: &[u8]) -> Option<Present> {
    let (field, _) = words_of(rest);
    match Name::read(field) {
        Some(name) => Some(Present {
            owner: SubjectId { kind, name },
            rules: 0,
        }),
        None => None,
    }
}

fn with_rule(present: Option<Present>) -> Option<Present> {
    match present {
        Some(present) => Some(Present {
            owner: present.owner,
            rules: present.rules.saturating_add(1),
        }),
        None => None,
    }
}

// The present subject after a line that says this.
fn after(present: Option<Present>, says: Keyword, rest: &[u8]) -> Option<Present> {
    match says {
        Keyword::Opens(kind) => opened(kind, rest),
        Keyword::Rule => with_rule(present),
        _ => present,
    }
}

// A user who isn't there lacks nothing.
fn can_log_in(policy: &Policy, user: &SubjectId) -> bool {
    match policy.find(user) {
        Some(user) => user.login.is_some(),
        None => true,
    }
}

// The login of the subject with this name.
fn subject_login(
    alloc: Global,
    policy: &Policy,
    shut: &Sequence<SubjectId>,
    id: &SubjectId,
) -> Result<Option<&'static str>, AllocError> {
    match policy.find(id) {
        Some(subject) => login_habit(alloc, policy, shut, subject),
        None => Ok(None),
    }
}

fn lacks(
    alloc: Global,
    policy: &Policy,
    shut: &Sequence<SubjectId>,
    owner: &SubjectId,
) -> Result<Option<&'static str>, AllocError> {
    match owner.kind {
        Kind::Group if policy.is_parent(&owner.name) => subject_login(alloc, policy, shut, owner),
        Kind::Group => Ok(Some(question::NO_MEMBERS)),
        Kind::User if can_log_in(policy, owner) => subject_login(alloc, policy, shut, owner),
        Kind::User => Ok(Some(question::NO_LOGIN)),
    }
}

fn subject_habit(
    alloc: Global,
    policy: &Policy,
    shut: &Sequence<SubjectId>,
    present: Option<Present>,
) -> Result<Option<&'static str>, AllocError> {
    match present {
        Some(present) => lacks(alloc, policy, shut, &present.owner),
        None => Ok(None),
    }
}

fn shadow_habit(hidden: &IndexSet<Present>, present: Option<Present>) -> Option<&'static str> {
    match present {
        Some(present) if hidden.contains(&present) => Some(question::SHADOWED),
        _ => None,
    }
}

fn end_habit(
    alloc: Global,
    version: Version,
    others: bool,
    pattern: &[u8],
) -> Result<Option<&'static str>, AllocError> {
    if !others {
        return Ok(None);
    }
    if lacks_end(alloc, version, pattern)? {
        return Ok(Some(question::NO_END));
    }
    Ok(None)
}

// Asks about a rule.
fn ask_rule(
    alloc: Global,
    asked: &mut Sequence<Asked>,
    known: &Known<'_>,
    present: Option<Present>,
    number: usize,
    line: &[u8],
    pattern: &[u8],
) -> Result<(), AllocError> {
    ask_pattern(asked, known.version, number, line, pattern)?;
    let habit = end_habit(alloc, known.version, known.others, pattern)?;
    ask(asked, number, line.len() + 1, habit)?;
    ask(
        asked,
        number,
        column_of(line, pattern),
        shadow_habit(known.hidden, present),
    )
}

// That nobody gets an attribute of a shell that the present subject gives.
fn present_habit(
    shut: &Sequence<SubjectId>,
    present: Option<Present>,
    rest: &[u8],
) -> Option<&'static str> {
    match present {
        Some(present) => shell_habit(shut, &present.owner, rest),
        None => None,
    }
}

// Asks about a line about services.
fn ask_present(
    asked: &mut Sequence<Asked>,
    shut: &Sequence<SubjectId>,
    present: Option<Present>,
    number: usize,
    line: &[u8],
    rest: &[u8],
) -> Result<(), AllocError> {
    let habit = present_habit(shut, present, rest);
    ask(asked, number, column_of(line, rest), habit)?;
    ask_service(asked, number, line, rest)
}

// Asks about the subject whose name is at this column.
fn ask_subject(
    alloc: Global,
    asked: &mut Sequence<Asked>,
    known: &Known<'_>,
    present: &Option<Present>,
    number: usize,
    place: usize,
) -> Result<(), AllocError> {
    ask(asked, number, place, default_habit(*present))?;
    let habit = subject_habit(alloc, known.policy, known.shut, *present)?;
    ask(asked, number, place, habit)
}

// The present subject after a line.
fn after_line(present: &Option<Present>, line: &[u8]) -> Option<Present> {
    let (word, rest) = words_in(line);
    after(*present, keyword_of(word), rest)
}

// Asks about a line, after which this subject is the present one.
fn ask_line(
    alloc: Global,
    asked: &mut Sequence<Asked>,
    known: &Known<'_>,
    present: &Option<Present>,
    number: usize,
    line: &[u8],
) -> Result<(), AllocError> {
    let (word, rest) = words_in(line);
    let place = column_of(line, rest);
    match keyword_of(word) {
        Keyword::Opens(_) => ask_subject(alloc, asked, known, present, number, place),
        Keyword::Secret => {
            let habit = enable_habit(known.policy, *present, line);
            ask(asked, number, place, habit)?;
            ask_secret(asked, number, line, rest)
        }
        Keyword::Hash => {
            let habit = enable_habit(known.policy, *present, line);
            ask(asked, number, place, habit)?;
            ask(asked, number, place, rounds_habit(rest))
        }
        Keyword::Level => ask(asked, number, place, level_habit(known.shut, *present)),
        Keyword::Rule => ask_rule(alloc, asked, known, *present, number, line, rest),
        Keyword::Service => ask_present(asked, known.shut, *present, number, line, rest),
        Keyword::Nothing => Ok(()),
    }
}

// What is told of a policy: under these subjects no shell starts, and these rules decide nothing.
fn told_of<'a>(
    alloc: Global,
    text: &[u8],
    policy: &'a Policy,
    shut: &'a Sequence<SubjectId>,
    hidden: &'a IndexSet<Present>,
) -> Result<Sequence<Asked>, AllocError> {
    let (version, _) = body_of(text);
    let others = has_ends(policy);
    let known = Known {
        version: version.patterns(),
        policy,
        others,
        shut,
        hidden,
    };
    let mut asked = Sequence::new(alloc);
    let habit = policy_habit(alloc, policy)?;
    ask(&mut asked, 1, 1, habit)?;
    let mut present = None;
    let mut lines = Lines::new(text);
    'lines: while let Some((number, line)) = lines.take_line() {
        present = after_line(&present, line);
        ask_line(alloc, &mut asked, &known, &present, number, line)?;
    }
    Ok(asked)
}

/// What is told of a policy with this text, of whose rules these decide nothing: what is right and
/// probably not meant.
///
/// Expected time linear in the text, but for a look at all subjects for each subject. The error
/// means that memory ran out.
pub fn policy_remarks(
    alloc: Global,
    text: &[u8],
    policy: &Policy,
    rows: &[Shadowed],
) -> Result<Sequence<Asked>, AllocError> {
    let shut = closed(alloc, policy)?;
    let hidden = hidden_of(alloc, rows)?;
    told_of(alloc, text, policy, &shut, &hidden)
}

//! What is asked about a subject's name, its level and what it enables with.

use crate::question;
use crate::remarks::Present;
use crate::shells::closed_habit;
use basics::Sequence;
use pol_names::{Kind, SubjectId};
use pol_text::Policy;
use pol_words::words_in;

/// The highest level.
const MOST: u8 = 15;

/// A user of the name that tac_plus has for all other users.
pub(crate) fn default_habit(present: Option<Present>) -> Option<&'static str> {
    let Some(Present { owner, .. }) = present else {
        return None;
    };
    if owner.kind == Kind::User && owner.name.as_slice() == b"DEFAULT".as_slice() {
        return Some(question::DEFAULT_USER);
    }
    None
}

/// A level under which no shell starts.
pub(crate) fn level_habit(
    shut: &Sequence<SubjectId>,
    present: Option<Present>,
) -> Option<&'static str> {
    match present {
        Some(present) => closed_habit(shut, &present.owner),
        None => None,
    }
}

fn sets_enable(line: &[u8]) -> bool {
    let (word, _) = words_in(line);
    word == b"enable".as_slice() || word == b"enable-hash".as_slice()
}

fn is_low(level: Option<u8>) -> bool {
    match level {
        Some(level) => level < MOST,
        None => false,
    }
}

/// A user enables, and the shells' level is below the highest.
pub(crate) fn enable_habit(
    policy: &Policy,
    present: Option<Present>,
    line: &[u8],
) -> Option<&'static str> {
    let Some(Present { owner, .. }) = present else {
        return None;
    };
    if sets_enable(line) && is_low(policy.level_of(&owner)) {
        return Some(question::ENABLES);
    }
    None
}

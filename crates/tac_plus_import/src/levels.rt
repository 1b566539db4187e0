//! The levels of shells.

use crate::chain::shell_of;
use crate::draft::Draft;
use crate::remark::What;
use basics::read_number;
use tac_plus_file::{Attribute, Service, Subject};

/// Whether an attribute says a level of a shell.
pub(crate) fn is_level(attribute: &Attribute) -> bool {
    attribute.name.as_slice() == b"priv-lvl".as_slice()
}

// The level of a shell that an attribute is, of 0 to 15.
fn level_of(attribute: &Attribute) -> Option<u32> {
    match read_number(attribute.value.as_slice(), 4) {
        Some(level) if level <= 15 && is_level(attribute) => Some(level),
        _ => None,
    }
}

// The first level of a shell, and whether it is optional.
fn shell_level(shell: &Service) -> Option<(bool, u32)> {
    'attributes: for attribute in &shell.attributes {
        if let Some(level) = level_of(attribute) {
            return Some((attribute.is_optional, level));
        }
    }
    None
}

// Whether a shell of any of these has a level.
fn have_level(groups: &[&Subject]) -> bool {
    'groups: for group in groups {
        if let Some(shell) = shell_of(group) {
            if shell_level(shell).is_some() {
                return true;
            }
        }
    }
    false
}

// Tells of what looks like a level of a shell and isn't the one that is written.
fn tell_levels(draft: &mut Draft, shell: &Service) {
    let mut is_written = false;
    'attributes: for attribute in &shell.attributes {
        if is_written || level_of(attribute).is_none() {
            if is_level(attribute) {
                draft.tell(attribute.line, What::LEVEL, attribute.value.as_slice());
            }
        } else {
            is_written = true;
        }
    }
}

/// Writes the level of a subject's shells, whose groups are these.
pub(crate) fn write_level(draft: &mut Draft, subject: &Subject, groups: &[&Subject]) {
    let Some(shell) = shell_of(subject) else {
        return;
    };
    tell_levels(draft, shell);
    let level = match shell_level(shell) {
        Some((is_optional, level)) => {
            if is_optional {
                draft.tell(shell.line, What::OPTIONAL_LEVEL, b"exec");
            }
            level
        }
        None => {
            if !have_level(groups) {
                return;
            }
            draft.tell(shell.line, What::LEVEL_ONE, b"exec");
            1
        }
    };
    draft.policy.add(b"priv ");
    draft.policy.add_number(level as usize);
    draft.policy.push(b'\n');
}

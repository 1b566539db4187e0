//! Who is a member of which group, and what is said along a chain of them.

use crate::draft::Draft;
use pol_names::Verdict;
use tac_plus_file::{Configuration, Password, Purpose, Service, Subject};

/// How many subjects a chain has at most.
const MOST_SUBJECTS: usize = 8;

/// How many blocks about commands of a subject are looked at: it has no more rules than these.
pub(crate) const MOST_COMMANDS: usize = 256;

/// The group of this name.
pub(crate) fn find_group<'a>(read: &'a Configuration, name: &[u8]) -> Option<&'a Subject> {
    match read.groups.get(name) {
        Some(place) => read.subjects.get(place.at),
        None => None,
    }
}

// The group that a subject is a member of, if the file has it.
fn parent_of<'a>(read: &'a Configuration, subject: &Subject) -> Option<&'a Subject> {
    match &subject.parent {
        Some(parent) => find_group(read, parent.text.as_slice()),
        None => None,
    }
}

/// A subject, its group, that one's group, and so on; none where these are too many, or have no end.
pub(crate) fn chain_of<'a>(
    draft: &mut Draft,
    read: &'a Configuration,
    subject: &'a Subject,
) -> Option<Vec<&'a Subject>> {
    let mut chain = Vec::new(draft.alloc);
    let mut next = Some(subject);
    'chain: for _ in 0..MOST_SUBJECTS {
        let Some(subject) = next else {
            return Some(chain);
        };
        if chain.push(subject).is_err() {
            draft.policy.cut();
        }
        next = parent_of(read, subject);
    }
    if next.is_some() {
        return None;
    }
    Some(chain)
}

/// What a subject does where nothing is listed.
#[derive(Clone, Copy)]
pub(crate) struct Standing {
    pub(crate) default: Verdict,
    /// Whether its groups may decide nothing, since they have another default.
    pub(crate) is_apart: bool,
}

// What a chain does where no command and no service is listed.
fn default_of(chain: &[&Subject]) -> Verdict {
    'chain: for subject in chain {
        if let Some((_, verdict)) = subject.default {
            return verdict;
        }
    }
    Verdict::Deny
}

impl Standing {
    pub(crate) fn new(chain: &[&Subject], groups: &[&Subject]) -> Standing {
        let default = default_of(chain);
        Standing {
            default,
            is_apart: !groups.is_empty() && default != default_of(groups),
        }
    }
}

/// Whether one of so many first blocks of a subject is about the command.
pub(crate) fn lists(subject: &Subject, most: usize, name: &[u8]) -> bool {
    'commands: for command in subject.commands.iter().take(most) {
        if command.name.as_slice() == name {
            return true;
        }
    }
    false
}

/// Whether any of these has a block about the command.
pub(crate) fn has_command(chain: &[&Subject], name: &[u8]) -> bool {
    'chain: for subject in chain {
        if lists(subject, MOST_COMMANDS, name) {
            return true;
        }
    }
    false
}

/// Whether it is the service of a shell.
pub(crate) fn is_shell(service: &Service) -> bool {
    service.name.as_slice() == b"exec".as_slice()
}

/// The first service of a shell that a subject has.
pub(crate) fn shell_of(subject: &Subject) -> Option<&Service> {
    'services: for service in &subject.services {
        if is_shell(service) {
            return Some(service);
        }
    }
    None
}

/// The nearest shell along a chain.
pub(crate) fn nearest_shell<'a>(chain: &[&'a Subject]) -> Option<&'a Service> {
    'chain: for subject in chain {
        if let Some(shell) = shell_of(subject) {
            return Some(shell);
        }
    }
    None
}

// The first password for this that a subject has.
fn password_of(subject: &Subject, purpose: Purpose) -> Option<&Password> {
    'passwords: for password in &subject.passwords {
        if password.purpose == purpose {
            return Some(password);
        }
    }
    None
}

fn nearest_for<'a>(chain: &[&'a Subject], purpose: Purpose) -> Option<&'a Password> {
    'chain: for subject in chain {
        if let Some(password) = password_of(subject, purpose) {
            return Some(password);
        }
    }
    None
}

/// The password that is used along a chain: the nearest for this, and else the nearest that takes
/// its place.
pub(crate) fn nearest_password<'a>(
    chain: &[&'a Subject],
    purposes: &[Purpose],
) -> Option<&'a Password> {
    'purposes: for purpose in purposes {
        if let Some(password) = nearest_for(chain, *purpose) {
            return Some(password);
        }
    }
    None
}

//! A whole file, as a policy.

use crate::chain::{chain_of, find_group};
use crate::draft::Draft;
use crate::hosts::{devices_of, tell_hosts};
use crate::names::{MOST_IN_POLICY, is_name};
use crate::remark::{Remark, What, told_of};
use crate::secrets::is_secret;
use crate::subjects::write_subject;
use pol_names::Kind;
use posix_expression::Text;
use std::alloc::Global;
use tac_plus_file::{Configuration, FileFault, Subject, read_configuration};

/// What is wanted beside the policy.
#[derive(Clone, Copy, Debug)]
pub struct Wanted {
    pub key: bool,
    pub devices: bool,
}

/// What a file becomes.
pub struct Import {
    pub policy: Vec<u8>,
    /// The first line of a key's file, and a devices' file, if they are wanted and the file has
    /// them.
    pub key: Option<Vec<u8>>,
    pub devices: Option<Vec<u8>>,
    /// What was left out and what was decided, by line.
    pub remarks: Vec<Remark>,
}

// By hand, so that a proof of an owner has one call at each exit, not a drop of each field.
impl Drop for Import {
    fn drop(self) {
        let Import {
            policy: _,
            key: _,
            devices: _,
            remarks: _,
        } = self;
    }
}

impl Import {
    /// Whether something isn't said.
    pub fn leaves_out(&self) -> bool {
        'remarks: for remark in &self.remarks {
            if remark.is_left_out {
                return true;
            }
        }
        false
    }
}

// Why a user isn't in the policy.
fn user_finding(name: &[u8]) -> Option<What> {
    if name == b"DEFAULT".as_slice() {
        Some(What::DEFAULT_USER)
    } else if name.starts_with(b"$enab") {
        Some(What::ENABLE_USER)
    } else if is_name(name) {
        None
    } else {
        Some(What::USER_NAME)
    }
}

// Why there is no room for a group. What it takes over from a group above it can't be left out, so
// it goes with that one.
fn group_finding(group: &Subject, chain: &[&Subject]) -> Option<What> {
    if group.number >= MOST_IN_POLICY {
        return Some(What::TOO_MANY_SUBJECTS);
    }
    'chain: for above in chain {
        if above.number >= MOST_IN_POLICY {
            return Some(What::GROUP_LEFT_OUT);
        }
    }
    None
}

// Takes room for one more user, or answers what is told where there is none.
fn take_room(draft: &mut Draft) -> Option<What> {
    match draft.room.checked_sub(1) {
        Some(left) => {
            draft.room = left;
            None
        }
        None => Some(What::TOO_MANY_SUBJECTS),
    }
}

// Tells of a subject's own name and of its group's.
fn tell_names(draft: &mut Draft, read: &Configuration, subject: &Subject) {
    let name = subject.name.as_slice();
    if subject.kind == Kind::Group && !is_name(name) {
        draft.tell(subject.line, What::RENAMED, name);
    }
    if let Some(parent) = &subject.parent {
        let name = parent.text.as_slice();
        if find_group(read, name).is_none() {
            draft.tell(parent.line, What::NO_GROUP, name);
        }
    }
}

// Writes a subject, or tells why it isn't in the policy.
fn add_subject(draft: &mut Draft, read: &Configuration, subject: &Subject) {
    let name = subject.name.as_slice();
    if subject.kind == Kind::User {
        if let Some(what) = user_finding(name) {
            return draft.tell(subject.line, what, name);
        }
    }
    let Some(chain) = chain_of(draft, read, subject) else {
        return draft.tell(subject.line, What::TOO_DEEP, name);
    };
    let found = match subject.kind {
        Kind::User => take_room(draft),
        Kind::Group => group_finding(subject, chain.as_slice()),
    };
    if let Some(what) = found {
        return draft.tell(subject.line, what, name);
    }
    tell_names(draft, read, subject);
    write_subject(draft, chain.as_slice());
}

// What a policy says of the users and groups.
fn add_subjects(draft: &mut Draft, read: &Configuration) {
    draft.call_groups(read);
    'subjects: for subject in &read.subjects {
        add_subject(draft, read, subject);
    }
}

fn tell_extras(draft: &mut Draft, read: &Configuration) {
    'extras: for extra in &read.extras {
        let (word, text) = told_of(extra.setting);
        draft.remark(extra.line, "", word.as_bytes(), &[text], true);
    }
}

// The first line of a key's file, if the key may stand.
fn key_text(draft: &mut Draft, read: &Configuration, wanted: Wanted) -> Option<Vec<u8>> {
    let Some(key) = &read.key else {
        return None;
    };
    let text = key.text.as_slice();
    if !wanted.key && !wanted.devices {
        draft.tell(key.line, What::KEY_UNASKED, b"key");
    } else if !is_secret(text) {
        draft.tell(key.line, What::SECRET, b"key");
    } else if wanted.key {
        let mut line = Text::new(draft.alloc);
        line.add(text);
        line.push(b'\n');
        return Some(draft.bytes_of(line));
    }
    None
}

// The text of a devices' file, if it is wanted.
fn devices_text(draft: &mut Draft, read: &Configuration, wanted: Wanted) -> Option<Vec<u8>> {
    if wanted.devices {
        let devices = devices_of(draft, read);
        return Some(draft.bytes_of(devices));
    }
    tell_hosts(draft, read);
    None
}

/// What a file of tac_plus F4.0.4 becomes, and what is told of it; or the first line that isn't one
/// of its files.
///
/// A policy says of commands what the file does, but for what is told. Linear in the file, but for
/// the look-up of names and the sorting of remarks.
pub fn import_file(alloc: Global, text: &[u8], wanted: Wanted) -> Result<Import, FileFault> {
    let read = read_configuration(alloc, text)?;
    let mut draft = Draft::new(alloc);
    add_subjects(&mut draft, &read);
    tell_extras(&mut draft, &read);
    let key = key_text(&mut draft, &read, wanted);
    let devices = devices_text(&mut draft, &read, wanted);
    draft.finish(key, devices)
}

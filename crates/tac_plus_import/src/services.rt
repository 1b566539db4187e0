//! Services and their attributes.

use crate::chain::{is_shell, nearest_shell};
use crate::draft::{Draft, add_line};
use crate::levels::is_level;
use crate::remark::What;
use basics::Bytes;
use pol_names::{ServiceId, Verdict};
use posix_expression::Text;
use tac_plus_file::{Attribute, Service, Subject};

/// How many lines about services a subject has at most.
const MOST_LINES: usize = 64;

// Whether a shell has attributes beside its level.
fn has_attributes(shell: &Service) -> bool {
    'attributes: for attribute in &shell.attributes {
        if !is_level(attribute) {
            return true;
        }
    }
    false
}

// Whether the service gives the attribute before this place, too. Beyond the first that a subject
// may have it doesn't matter.
fn is_given_before(service: &Service, at: usize, attribute: &Attribute) -> bool {
    'attributes: for given in service.attributes.iter().take(at.min(MOST_LINES)) {
        if given.is_optional == attribute.is_optional
            && given.name == attribute.name
            && given.value == attribute.value
        {
            return true;
        }
    }
    false
}

// Whether it is the same service.
fn is_same(one: &Service, other: &Service) -> bool {
    if is_shell(one) || is_shell(other) {
        return is_shell(one) && is_shell(other);
    }
    one.name == other.name && one.protocol == other.protocol
}

// Whether a subject has the service before this place.
fn is_second(subject: &Subject, at: usize, service: &Service) -> bool {
    'services: for earlier in subject.services.iter().take(at) {
        if is_same(earlier, service) {
            return true;
        }
    }
    false
}

// What a policy calls a service.
fn service_name(draft: &Draft, service: &Service) -> Text {
    let mut name = Text::new(draft.alloc);
    if is_shell(service) {
        name.add(b"shell");
        return name;
    }
    name.add(service.name.as_slice());
    if let Some(protocol) = &service.protocol {
        name.push(b'/');
        name.add(protocol.as_slice());
    }
    name
}

// One more line, if the subject may have it.
fn push_line(draft: &mut Draft, line: usize, parts: &[&[u8]], word: &[u8]) {
    if draft.lines >= MOST_LINES {
        return draft.tell(line, What::TOO_MANY_LINES, word);
    }
    draft.lines = draft.lines.saturating_add(1);
    draft.policy.add(b"service ");
    add_line(&mut draft.policy, parts);
}

// Whether a policy's line about a service may give the attribute.
fn may_give(draft: &mut Draft, id: &ServiceId, parts: &[&[u8]]) -> bool {
    let mut text = Text::new(draft.alloc);
    'parts: for part in parts {
        text.add(part);
    }
    let given = Some(Bytes::from(draft.bytes_of(text)));
    id.may_give(&given)
}

// The line of an attribute of a service.
fn push_attribute(draft: &mut Draft, id: &ServiceId, name: &[u8], attribute: &Attribute) {
    let word = attribute.name.as_slice();
    let value = attribute.value.as_slice();
    let sign: &[u8] = if attribute.is_optional { b"*" } else { b"=" };
    if may_give(draft, id, &[word, sign, value]) {
        push_line(
            draft,
            attribute.line,
            &[name, b" ", word, sign, value],
            word,
        );
    } else {
        draft.tell(attribute.line, What::ATTRIBUTE, word);
    }
}

// The lines of a service's attributes, but for a shell's level.
fn push_attributes(draft: &mut Draft, id: &ServiceId, name: &[u8], service: &Service) {
    let is_shell = is_shell(service);
    'attributes: for (at, attribute) in service.attributes.iter().enumerate() {
        let is_written = is_shell && is_level(attribute);
        if !is_written && !is_given_before(service, at, attribute) {
            push_attribute(draft, id, name, attribute);
        }
    }
}

// Whether a service without attributes has a line: a shell only where its groups give it some.
fn is_wanted(service: &Service, groups: &[&Subject]) -> bool {
    if !is_shell(service) {
        return true;
    }
    match nearest_shell(groups) {
        Some(shell) => has_attributes(shell),
        None => false,
    }
}

// Tells that a service refuses what it doesn't list, where it does.
fn tell_default(draft: &mut Draft, service: &Service) {
    match service.default {
        Some((_, Verdict::Permit)) => {}
        _ => draft.tell(service.line, What::CLOSED_SERVICE, service.name.as_slice()),
    }
}

// The lines of a service.
fn push_service(draft: &mut Draft, service: &Service, groups: &[&Subject]) {
    if service.name.as_slice() == b"shell".as_slice() {
        return draft.tell(service.line, What::SHELL_SERVICE, b"shell");
    }
    let name = service_name(draft, service);
    let name = name.as_slice();
    let Some(id) = ServiceId::read(name) else {
        return draft.tell(service.line, What::SERVICE_NAME, name);
    };
    let before = draft.lines;
    push_attributes(draft, &id, name, service);
    if draft.lines == before && is_wanted(service, groups) {
        push_line(draft, service.line, &[name], name);
    }
    if draft.lines > before || is_shell(service) {
        tell_default(draft, service);
    }
}

/// Writes the lines of a subject's services, whose groups are these.
pub(crate) fn write_services(draft: &mut Draft, subject: &Subject, groups: &[&Subject]) {
    'services: for (at, service) in subject.services.iter().enumerate() {
        let name = service.name.as_slice();
        if at > MOST_LINES {
            draft.tell(service.line, What::TOO_MANY_LINES, name);
        } else if is_second(subject, at, service) {
            draft.tell(service.line, What::SECOND_SERVICE, name);
        } else {
            push_service(draft, service, groups);
        }
    }
    draft.is_third |= draft.lines > 0;
}

//! What a policy says of a user or a group.

use crate::chain::{MOST_COMMANDS, Standing, has_command, lists, nearest_shell};
use crate::draft::Draft;
use crate::levels::write_level;
use crate::remark::What;
use crate::secrets::write_secrets;
use crate::services::write_services;
use basics::is_text;
use pol_names::Verdict;
use tac_plus_file::Subject;

// Whether it may be the first word of a line.
fn is_word(name: &[u8]) -> bool {
    !name.is_empty() && is_text(name) && !name.contains(&b' ')
}

// Why a block of a subject decides nothing, if it does.
fn idle_finding(subject: &Subject, at: usize, name: &[u8]) -> Option<What> {
    if !is_word(name) {
        return Some(What::COMMAND_NAME);
    }
    if lists(subject, at, name) {
        return Some(What::SECOND_COMMAND);
    }
    None
}

// The rules of a subject's blocks, but for those that decide nothing, and those about commands that
// one of the nearer subjects has a block about.
fn push_blocks(
    draft: &mut Draft,
    subject: &Subject,
    nearer: &[&Subject],
    groups: &[&Subject],
    standing: Standing,
) {
    'commands: for (at, command) in subject.commands.iter().take(MOST_COMMANDS).enumerate() {
        let name = command.name.as_slice();
        if let Some(what) = idle_finding(subject, at, name) {
            draft.tell(command.line, what, name);
        } else if !has_command(nearer, name) {
            let is_decided_below = standing.default == Verdict::Permit
                || (!standing.is_apart && has_command(groups, name));
            draft.push_command(command, is_decided_below);
        }
    }
}

// The rules of the blocks of all of these. Of all but the first, which are repeated, nothing is told
// again.
fn push_all(draft: &mut Draft, own: &[&Subject], groups: &[&Subject], standing: Standing) {
    'chain: for (at, subject) in own.iter().enumerate() {
        draft.is_quiet = at > 0;
        push_blocks(draft, subject, &own[..at], groups, standing);
    }
    draft.is_quiet = false;
}

// Whether one of these has more blocks than are looked at.
fn have_too_many(own: &[&Subject]) -> bool {
    'subjects: for subject in own {
        if subject.commands.len() > MOST_COMMANDS {
            return true;
        }
    }
    false
}

// Writes the rules of a chain's first subject. Where its groups have another default, their rules
// are repeated, and then the last rule decides what nothing before it does.
fn write_rules(draft: &mut Draft, chain: &[&Subject], groups: &[&Subject], standing: Standing) {
    let own = if standing.is_apart {
        chain
    } else {
        &chain[..chain.len().min(1)]
    };
    if nearest_shell(own).is_some() {
        draft.push_rule(Verdict::Permit, b"()");
    }
    push_all(draft, own, groups, standing);
    if have_too_many(own) {
        draft.deny_rest(What::TOO_MANY_RULES);
    } else if standing.is_apart || (groups.is_empty() && standing.default == Verdict::Permit) {
        draft.push_rule(standing.default, b".*");
    }
}

// Tells of a subject as a whole.
fn tell_whole(draft: &mut Draft, subject: &Subject, is_apart: bool) {
    let name = subject.name.as_slice();
    if let Some((line, Verdict::Permit)) = subject.default {
        draft.tell(line, What::ALL_SERVICES, b"default service");
    }
    if is_apart {
        draft.tell(subject.line, What::COPIED, name);
    }
    if draft.is_full {
        draft.tell(subject.line, draft.full, name);
    }
}

// The line that begins a subject.
fn write_heading(draft: &mut Draft, subject: &Subject, groups: &[&Subject]) {
    draft.policy.add(subject.kind.keyword().as_bytes());
    draft.write_name(subject);
    if let Some(group) = groups.first() {
        draft.policy.add(b" in ");
        draft.write_name(group);
    }
    draft.policy.push(b'\n');
}

/// Writes what a policy says of the first subject of a chain.
pub(crate) fn write_subject(draft: &mut Draft, chain: &[&Subject]) {
    let Some((subject, groups)) = chain.split_first() else {
        return;
    };
    draft.begin();
    write_heading(draft, subject, groups);
    write_secrets(draft, chain, subject);
    write_level(draft, subject, groups);
    write_services(draft, subject, groups);
    let standing = Standing::new(chain, groups);
    write_rules(draft, chain, groups, standing);
    tell_whole(draft, subject, standing.is_apart);
}

//! What a user may do: what the policy says of a command line.

ghost use Rattle.std.specs.Prelude.{◌≡◌, [], false, IsOk, IfOk};
ghost use Rattle.tac_desk.specs.Asking as asking;
ghost use Rattle.tac_desk.specs.Asking.{gives_arguments};
ghost use Rattle.tac_desk.specs.Reporting as reporting;

use crate::serving::{gives_any, push_attributes, push_level};
use basics::is_text;
use pol_given::{shell, speaking};
use pol_names::{Decision, Name, SubjectId, Verdict};
use pol_text::Policy;
use std::alloc::{AllocError, Global};
use tac_conn::{Answer, Arguments};

// What a user's shell starts with.
fn shell_answer(alloc: Global, policy: &Policy, user: &Name) -> Result<Answer, AllocError>
    ensures answer { IfOk result (λ answer.
        answer ≡ asking.permitted policy.now user.now []) }
    ensures sure { gives_arguments (asking.permitted policy.now user.now []) ≡ false
        → IsOk result }
{
    let level = policy.level_of(&SubjectId::user(*user));
    let service = shell();
    let Some(owner) = speaking(policy, user, &service) else {
        return Ok(Answer::Permitted(level));
    };
    if !gives_any(owner, &service) {
        return Ok(Answer::Permitted(level));
    }
    let mut arguments = Arguments::new(alloc);
    push_level(&mut arguments, level)?;
    push_attributes(&mut arguments, owner, &service)?;
    Ok(Answer::Granted(arguments))
}

// The answer to a permitted line: only the empty one, which asks for a shell, looks at services.
fn permitted(alloc: Global, policy: &Policy, user: &Name, line: &[u8]) -> Result<Answer, AllocError>
    ensures answer { IfOk result (λ answer.
        answer ≡ asking.permitted policy.now user.now line.now) }
    ensures sure { gives_arguments (asking.permitted policy.now user.now line.now) ≡ false
        → IsOk result }
{
    match line {
        [] => shell_answer(alloc, policy, user),
        _ => Ok(Answer::Permitted(None)),
    }
}

/// The answer to a user's line where this is the policy's decision. Takes memory only for a shell's
/// attributes; the error means that there was none.
pub(crate) fn decided(
    alloc: Global,
    policy: &Policy,
    user: &Name,
    line: &[u8],
    decision: Decision,
) -> Result<Answer, AllocError>
    ensures answer { IfOk result (λ answer.
        answer ≡ asking.decided policy.now user.now line.now decision) }
    ensures sure { gives_arguments (asking.decided policy.now user.now line.now decision) ≡ false
        → IsOk result }
{
    match decision.verdict {
        Verdict::Permit => permitted(alloc, policy, user, line),
        Verdict::Deny => Ok(Answer::Denied(decision.by)),
    }
}

/// Whether the user of this name may run this line. Takes memory only for a shell's attributes; the
/// error means that there was none.
pub(crate) fn authorisation(
    alloc: Global,
    policy: &Policy,
    name: &[u8],
    line: &[u8],
) -> Result<Answer, AllocError>
    ensures answer { IfOk result (λ answer.
        answer ≡ asking.authorisation policy.now name.now line.now) }
    ensures sure { gives_arguments (asking.authorisation policy.now name.now line.now) ≡ false
        → IsOk result }
{
    let Some(user) = Name::read(name) else {
        return Ok(Answer::UnknownUser);
    };
    let Ok(Some(decision)) = policy.plain_decide(&user, line) else {
        return Ok(Answer::UnknownUser);
    };
    if !is_text(line) {
        return Ok(Answer::Unprintable);
    }
    decided(alloc, policy, &user, line, decision)
}

/// Whether the policy denies this line to this user. Takes no memory.
pub(crate) fn denies(policy: &Policy, name: &[u8], line: &[u8]) -> bool
    ensures { result ≡ reporting.denies policy.now name.now line.now }
{
    let Some(user) = Name::read(name) else {
        return true;
    };
    match policy.plain_decide(&user, line) {
        Ok(Some(decision)) => decision.verdict == Verdict::Deny,
        _ => true,
    }
}

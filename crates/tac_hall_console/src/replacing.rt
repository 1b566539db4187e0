//! Another policy in the place of the present one.

ghost use Rattle.std.specs.Prelude.{◌≡◌, ◌++◌, IfOk, OnOk, OnErr};
ghost use Rattle.std.specs.Option.{option_copied};
ghost use Rattle.pol_secrets.specs.Telling.{secrets_text};
ghost use Rattle.tac_hall.specs.Calls.{IsOfKind};
ghost use Rattle.tac_hall_console.specs.Operated as operated;
ghost use Rattle.tac_hall_console.specs.Operated.{Replaces};
ghost use Rattle.tac_hall_console.specs.Operating as operating;
ghost use Rattle.tac_hall_console.specs.Users.{gone_line};

use crate::answering::{write_answer, write_refusal};
use crate::reloading::Source;
use crate::users::Turnover;
use pol_secrets::{secret_changes, write_secret_changes};
use pol_text::Policy;
use std::alloc::{AllocError, Global};
use std::io::Write;
use std::sync::Wait;
use tac_desk::{Desk, Query, Report};
use tac_hall::{Call, CallAnswer, Hall, Run, Seat};

// What is told of a policy that has no user, where the present one has some.
const NO_USER: &[u8] = b"fault NoUser\n";

// The policy that a question for it is answered.
fn policy_in(answer: &CallAnswer) -> Option<&Policy>
    ensures { option_copied result ≡ operated.policy_in answer.now }
{
    match answer {
        CallAnswer::Query(Ok(report)) => match report.get() {
            Report::Policy(policy) => Some(policy),
            _ => None,
        },
        _ => None,
    }
}

// The line that says how many users are gone.
fn gone_text(alloc: Global, between: Turnover) -> Result<Vec<u8>, AllocError>
    ensures { IfOk result (λ line. line.items ≡ gone_line between) }
{
    let Turnover { had, gone, .. } = between;
    let mut line = Vec::new(alloc);
    match writeln!(line, "{gone} of {had} users are gone") {
        Ok(()) => Ok(line),
        Err(_) => Err(AllocError),
    }
}

// Adds how many users are gone, and has the source say it too, if most of them are.
fn tell_of_gone<S: Source>(
    alloc: Global,
    source: &S,
    between: Turnover,
    out: &mut Vec<u8>,
) -> Result<(), AllocError>
    ensures { OnOk result (out.new.items ≡ out.old.items ++ operated.gone_text between) }
{
    if !between.most_are_gone() {
        return Ok(());
    }
    let line = gone_text(alloc, between)?;
    source.warn(line.as_slice());
    out.extend_from_slice(line.as_slice())
}

// Adds which secrets aren't what they were, without a secret.
fn tell_of_secrets(
    alloc: Global,
    old: &Policy,
    new: &Policy,
    out: &mut Vec<u8>,
) -> Result<(), AllocError>
    ensures { OnOk result (out.new.items ≡ out.old.items ++ secrets_text old.now new.now) }
{
    let changes = secret_changes(alloc, old, new)?;
    write_secret_changes(out, changes.as_slice())
}

// Adds what is told of users where the new policy was loaded.
fn tell_of_users<S: Source>(
    alloc: Global,
    source: &S,
    old: &Policy,
    new: &Policy,
    answer: &CallAnswer,
    out: &mut Vec<u8>,
) -> Result<(), AllocError>
    ensures { OnOk result
        (out.new.items ≡ out.old.items ++ operated.users_text old.now new.now answer.now) }
{
    match answer {
        CallAnswer::Edit(Ok(_)) => {
            tell_of_secrets(alloc, old, new, out)?;
            tell_of_gone(alloc, source, Turnover::between(old, new), out)
        }
        _ => Ok(()),
    }
}

// Adds how the call for a policy is answered.
fn write_load<S: Source>(
    alloc: Global,
    source: &S,
    old: &Policy,
    call: &Call,
    answer: &CallAnswer,
    out: &mut Vec<u8>,
) -> Result<(), AllocError>
    requires { IsOfKind call.now answer.now }
    ensures { OnOk result
        (out.new.items ≡ out.old.items ++ operated.load_text old.now call.now answer.now) }
{
    write_answer(alloc, out, call, answer)?;
    match call {
        Call::Load(new) => tell_of_users(alloc, source, old, new, answer, out),
        _ => Ok(()),
    }
}

/// Puts a policy in the place of the present one, which the desk is asked for, and adds what came
/// of it. A policy without a user isn't called for where the present one has users. Takes a few
/// hash look-ups for each subject, but for what the desk takes.
pub(crate) fn replace<H: Wait, J: Run, D: Desk, S: Source>(
    rt: &H,
    alloc: Global,
    desk: &Hall<J, D>,
    source: &S,
    seat: &mut Seat<J>,
    policy: Policy,
    out: &mut Vec<u8>,
) -> Result<(), AllocError>
    ensures ok { OnOk result (operating.Adds (Replaces J.opening seat.old policy) seat.new
        out.old.items out.new.items) }
    ensures err { OnErr result (operating.IsUntold (Replaces J.opening seat.old policy)
        seat.old seat.new) }
{
    let question = Call::Query(Query::Policy);
    let asked = match desk.call(rt, seat, &question) {
        Ok(receipt) => receipt,
        Err(fault) => return write_refusal(out, fault),
    };
    let Some(present) = policy_in(&asked.answer) else {
        return write_answer(alloc, out, &question, &asked.answer);
    };
    let between = Turnover::between(present, &policy);
    if between.shuts_out() {
        return out.extend_from_slice(NO_USER);
    }
    let load = Call::Load(policy);
    match desk.call(rt, seat, &load) {
        Ok(receipt) => write_load(alloc, source, present, &load, &receipt.answer, out),
        Err(fault) => write_refusal(out, fault),
    }
}

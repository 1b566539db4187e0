//! What a user may do, by the automata that a policy has.

ghost use Rattle.std.specs.Prelude.{◌≡◌, false, IsOk, IfOk};
ghost use Rattle.tac_tally.specs.Recount.{is_denied as denied_test};
ghost use Rattle.tac_desk.specs.Asking as asking;
ghost use Rattle.tac_desk.specs.Asking.{gives_arguments};
ghost use Rattle.tac_desks.specs.Remembered.{AreDecisionsBy};
ghost use Rattle.tac_desk.specs.Reporting as reporting;

use crate::authorisation::decided;
use crate::remembering::Remembered;
use basics::is_text;
use pol_live::Live;
use pol_names::{Name, Verdict};
use std::alloc::{AllocError, Global};
use tac_conn::Answer;
use tac_tally::Record;

/// Whether the user of this name may run this line, by what is remembered, or else by a walk along
/// the line. Without memory nothing new is remembered; the error means that there was none for a
/// shell's attributes.
pub(crate) fn authorisation_by(
    alloc: Global,
    live: &Live,
    remembered: &mut Remembered,
    name: &[u8],
    line: &[u8],
) -> Result<Answer, AllocError>
    requires { AreDecisionsBy live.now remembered.old.kept.entries }
    ensures answer { IfOk result (λ answer.
        answer ≡ asking.authorisation live.now name.now line.now) }
    ensures sure { gives_arguments (asking.authorisation live.now name.now line.now) ≡ false
        → IsOk result }
    ensures right { AreDecisionsBy live.now remembered.new.kept.entries }
{
    let Some(user) = Name::read(name) else {
        return Ok(Answer::UnknownUser);
    };
    let Some(decision) = remembered.decide(alloc, live, &user, line) else {
        return Ok(Answer::UnknownUser);
    };
    if !is_text(line) {
        return Ok(Answer::Unprintable);
    }
    decided(alloc, live.policy(), &user, line, decision)
}

// Whether the policy denies this line to this user.
fn denies_by(live: &Live, name: &[u8], line: &[u8]) -> bool
    ensures { result ≡ reporting.denies live.now name.now line.now }
{
    let Some(user) = Name::read(name) else {
        return true;
    };
    match live.decide(&user, line) {
        Some(decision) => decision.verdict == Verdict::Deny,
        None => true,
    }
}

/// Whether the policy denies the record's line; a record without one isn't denied. Takes no memory.
pub(crate) fn is_denied(live: &Live, item: &Record) -> bool
    ensures { result ≡ denied_test (reporting.denies live.now) item.now }
{
    match &item.line {
        Some(line) => denies_by(live, item.user.as_slice(), line.as_slice()),
        None => false,
    }
}

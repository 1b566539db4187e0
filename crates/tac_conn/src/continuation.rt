//! The reading and the outcome of an answer of the client within an authentication.

ghost use Rattle.std.specs.Prelude.{◌≡◌, is_ok, IsTrue, IfOk, OnErr};
ghost use Rattle.std.specs.Result.{result_ok};
ghost use Rattle.tac_authen.specs.Continue.{continue_of};
ghost use Rattle.tac_conn.specs.Asker.{unnamed};
ghost use Rattle.tac_conn.specs.Judging as judging;
ghost use Rattle.tac_conn.specs.Reading.{judged_as, answer_as, continue_as};
ghost use Rattle.tac_conn.specs.declared.ask.Ask.TheVariants.{Authenticate};
ghost use Rattle.tac_conn.specs.declared.ask.Proof.TheVariants.{Plain};
ghost use Rattle.tac_conn.specs.declared.outcome.Outcome.TheVariants.{Asks};
ghost use Rattle.tac_conn.specs.declared.reading.Reading.TheVariants.{Login};

use crate::ask::{Ask, Proof, Slot};
use crate::outcome::{Outcome, breaks, ends, reply_in};
use crate::reading::{Asker, Reading};
use crate::reply::{fail, secret_question};
use crate::session::Session;
use crate::typed::Typed;
use basics::Bytes;
use std::alloc::{AllocError, Global};
use tac_authen::{Continue, Service, read_continue};
use tac_wire::well_formed;

// The client gives up: nothing is sent.
fn aborted(slot: Slot) -> Outcome
    ensures { result ≡ judging.aborted slot }
{
    if slot.single {
        Outcome::Silent
    } else {
        Outcome::Close
    }
}

// The name that was asked for: the empty text is no name.
fn told_name(slot: Slot, session: &Session, asker: Asker, name: Bytes) -> (Reading, Outcome)
    requires { asker ≡ session.now.asker }
    ensures { result
        ≡ judged_as (judging.name_outcome slot session.now name) (Login session.now.asker) }
{
    if name.is_empty() {
        return (Reading::Login(asker), ends(slot, fail()));
    }
    let next = Session {
        id: session.id,
        last_seq: slot.header.seq,
        asker: asker.named(name),
    };
    let question = reply_in(slot, secret_question());
    (Reading::GoesOn, Outcome::Question(question, next))
}

// The password of this user.
fn told_password(alloc: Global, slot: Slot, asker: Asker, text: Bytes) -> (Reading, Outcome)
    ensures { result ≡ (
      Login (unnamed asker),
      Asks (Authenticate asker.user (record { 0 = asker.service }) (Plain text)) slot,
    ) }
{
    let service = Service(asker.service);
    let (asker, user) = asker.parted(alloc);
    let ask = Ask::Authenticate {
        user,
        service,
        proof: Proof::Plain(Typed::new(text)),
    };
    (Reading::Login(asker), Outcome::Asks(ask, slot))
}

// What was typed in this session.
#[tactic(auto, using(crate::proofs::ReadingFacts::given_none, crate::proofs::ReadingFacts::given_some))]
fn typed(
    alloc: Global,
    slot: Slot,
    session: &Session,
    text: Bytes,
) -> Result<(Reading, Outcome), AllocError>
    ensures { let asker = session.now.asker in IfOk result (λ taken. taken ≡ judged_as
        (judging.typed_outcome slot session.now (judging.given asker.user) text) (Login asker)) }
{
    let asker = session.asker.copy(alloc)?;
    if asker.user.is_empty() {
        return Ok(told_name(slot, session, asker, text));
    }
    Ok(told_password(alloc, slot, asker, text))
}

// A valid CONTINUE.
fn answered(
    alloc: Global,
    slot: Slot,
    session: &Session,
    answer: Continue,
) -> Result<(Reading, Outcome), AllocError>
    ensures { IfOk result (λ taken. taken ≡ judged_as
        (judging.continue_outcome slot session.now answer) (answer_as session.now.asker answer)) }
{
    if answer.is_abort() {
        return Ok((Reading::Aborted, aborted(slot)));
    }
    typed(alloc, slot, session, answer.user_msg)
}

/// What the body of a CONTINUE in this session is read as, and its outcome.
pub(crate) fn judge_continue(
    alloc: Global,
    slot: Slot,
    session: &Session,
    body: &[u8],
) -> Result<(Reading, Outcome), AllocError>
    ensures taken { let answer = result_ok (continue_of body.now) in
        IfOk result (λ taken. taken ≡ judged_as
        (judging.continue_read slot session.now answer) (continue_as session.now.asker answer)) }
    ensures memory { OnErr result (IsTrue (is_ok (continue_of body.now))) }
{
    match well_formed(read_continue(alloc, body))? {
        Some(answer) => answered(alloc, slot, session, answer),
        None => Ok(breaks(slot)),
    }
}

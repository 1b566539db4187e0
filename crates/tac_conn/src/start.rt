//! The reading and the outcome of a START.

ghost use Rattle.std.specs.Prelude.{◌≡◌, ◌≤◌, length, is_ok, IsTrue, IfOk, OnErr};
ghost use Rattle.std.specs.Result.{result_ok};
ghost use Rattle.tac_authen.specs.Start.{start_of};
ghost use Rattle.tac_conn.specs.Asker.{start_asker, unnamed};
ghost use Rattle.tac_conn.specs.Judging as judging;
ghost use Rattle.tac_conn.specs.Reading.{judged_as, start_as};
ghost use Rattle.tac_conn.specs.declared.ask.Ask.TheVariants.{Authenticate};
ghost use Rattle.tac_conn.specs.declared.outcome.Outcome.TheVariants.{Asks};
ghost use Rattle.tac_conn.specs.declared.reading.Reading.TheVariants.{Login};

use crate::ask::{Ask, Proof, Slot};
use crate::outcome::{Outcome, breaks, ends, reply_in};
use crate::reading::{Asker, Reading, asker_of};
use crate::reply::{ReplyBody, authen_error, fail, question_to};
use crate::session::Session;
use crate::typed::Typed;
use basics::Bytes;
use std::alloc::{AllocError, Global};
use tac_authen::{Action, AuthenType, Service, Start, read_start};
use tac_wire::well_formed;

/// How many sessions of a connection are open at once at most.
const MAX_SESSIONS: usize = 16;

// Whether this action is served, by this way of authentication.
fn is_supported(start: &Start) -> bool
    ensures { result ≡ judging.is_supported start.now }
{
    start.action == Action::LOGIN
        && (start.authen_type == AuthenType::ASCII
            || start.authen_type == AuthenType::PAP
            || start.authen_type == AuthenType::CHAP)
}

// What is answered at once: no question, and nothing is asked.
fn refused(slot: Slot, start: Start, body: ReplyBody) -> (Reading, Outcome)
    ensures { result ≡ (Login (start_asker start), judging.ends slot body) }
{
    let (asker, _) = asker_of(start);
    (Reading::Login(asker), ends(slot, body))
}

// ASCII: the name is asked for, or the password.
fn ascii(count: usize, slot: Slot, start: Start) -> (Reading, Outcome)
    ensures { result
        ≡ judged_as (judging.ascii_outcome count slot start) (Login (start_asker start)) }
{
    if count >= MAX_SESSIONS {
        return refused(slot, start, authen_error(b"too many sessions"));
    }
    let question = question_to(start.user.as_slice());
    let (asker, _) = asker_of(start);
    let session = Session {
        id: slot.header.session,
        last_seq: slot.header.seq,
        asker,
    };
    let outcome = Outcome::Question(reply_in(slot, question), session);
    (Reading::GoesOn, outcome)
}

// The id, the challenge, and the response in the last 16 bytes.
fn chap_proof(alloc: Global, extra: &[u8]) -> Result<Proof, AllocError>
    requires { 17 ≤ length extra.now }
    ensures { IfOk result (λ proof. proof ≡ judging.chap_proof extra.now) }
{
    let response_at = extra.len() - 16;
    let challenge = Bytes::from_slice(alloc, &extra[1..response_at])?;
    let mut response = [0; 16];
    response.copy_from_slice(&extra[response_at..]);
    Ok(Proof::Chap {
        id: extra[0],
        challenge,
        response,
    })
}

// This proof of who logs in is asked about.
fn proven(alloc: Global, slot: Slot, asker: Asker, proof: Proof) -> (Reading, Outcome)
    ensures { result ≡ (
      Login (unnamed asker),
      Asks (Authenticate asker.user (record { 0 = asker.service }) proof) slot,
    ) }
{
    let service = Service(asker.service);
    let (asker, user) = asker.parted(alloc);
    let ask = Ask::Authenticate {
        user,
        service,
        proof,
    };
    (Reading::Login(asker), Outcome::Asks(ask, slot))
}

fn chap(alloc: Global, slot: Slot, start: Start) -> Result<(Reading, Outcome), AllocError>
    ensures { IfOk result (λ taken. taken
        ≡ judged_as (judging.chap_outcome slot start) (Login (start_asker start))) }
{
    if start.extra.len() < 17 {
        return Ok(refused(slot, start, fail()));
    }
    let (asker, extra) = asker_of(start);
    let proof = chap_proof(alloc, extra.as_slice())?;
    Ok(proven(alloc, slot, asker, proof))
}

fn pap(alloc: Global, slot: Slot, start: Start) -> (Reading, Outcome)
    ensures { result ≡ judged_as (judging.pap_outcome slot start) (Login (start_asker start)) }
{
    let (asker, extra) = asker_of(start);
    proven(alloc, slot, asker, Proof::Plain(Typed::new(extra)))
}

// PAP and CHAP, which need the minor version 1.
fn at_once(alloc: Global, slot: Slot, start: Start) -> Result<(Reading, Outcome), AllocError>
    ensures { IfOk result (λ taken. taken
        ≡ judged_as (judging.at_once_outcome slot start) (Login (start_asker start))) }
{
    if slot.header.version % 16 == 0 {
        return Ok(refused(slot, start, authen_error(b"unsupported")));
    }
    if start.authen_type == AuthenType::PAP {
        return Ok(pap(alloc, slot, start));
    }
    chap(alloc, slot, start)
}

// A valid START, with so many sessions open.
fn started(
    alloc: Global,
    count: usize,
    slot: Slot,
    start: Start,
) -> Result<(Reading, Outcome), AllocError>
    ensures { IfOk result (λ taken. taken
        ≡ judged_as (judging.start_outcome count slot start) (Login (start_asker start))) }
{
    if !is_supported(&start) {
        return Ok(refused(slot, start, authen_error(b"unsupported")));
    }
    if start.authen_type == AuthenType::ASCII {
        return Ok(ascii(count, slot, start));
    }
    at_once(alloc, slot, start)
}

/// What the body of a START is read as, and its outcome, with so many sessions open.
pub(crate) fn judge_start(
    alloc: Global,
    count: usize,
    slot: Slot,
    body: &[u8],
) -> Result<(Reading, Outcome), AllocError>
    ensures taken { let start = result_ok (start_of body.now) in
        IfOk result
        (λ taken. taken ≡ judged_as (judging.start_read count slot start) (start_as start)) }
    ensures memory { OnErr result (IsTrue (is_ok (start_of body.now))) }
{
    match well_formed(read_start(alloc, body))? {
        Some(start) => started(alloc, count, slot, start),
        None => Ok(breaks(slot)),
    }
}

//! Cases: what each wants to be so, whether it is, and what is so in place of it.

ghost use Rattle.std.specs.Prelude.{◌≡◌, ◌++◌, Some, IfOk, OnOk};
ghost use Rattle.basics.specs.Lines.{split_at_first};
ghost use Rattle.tac_console.specs.Answers.{grant_line};
ghost use Rattle.tac_console.specs.ConsoleText.{given as given_query};
ghost use Rattle.tac_review.specs.Asking as asking;
ghost use Rattle.tac_review.specs.Cases as cases;
ghost use Rattle.tac_review.specs.declared.want.Want.TheVariants as wants;

use crate::asking::{add_answer, add_given, decision, given_to, question, service_question};
use crate::want::Want;
use basics::{Bytes, Sequence, is_text, split_once};
use pol_given::{Given, Grant};
use pol_live::Live;
use pol_names::{Decision, Name, ServiceId, Verdict};
use std::alloc::{AllocError, Global};
use tac_desk::Query;

// ---- reading a case

fn wanting(want: Want, query: Option<Query>) -> Option<(Want, Query)>
    ensures { result ≡ cases.wanting want query }
{
    match query {
        Some(query) => Some((want, query)),
        None => None,
    }
}

// The question of `USER` and `SERVICE`.
fn named(user: &[u8], service: &[u8]) -> Option<Query>
    ensures { result ≡ given_query (Some (user.now, service.now)) }
{
    let user = Name::read(user)?;
    let service = ServiceId::read(service)?;
    Some(Query::Given { user, service })
}

// A case of `USER SERVICE ATTRIBUTE`.
fn argument(alloc: Global, rest: &[u8]) -> Result<Option<(Want, Query)>, AllocError>
    ensures { IfOk result (λ case. case ≡ cases.argument_in (split_at_first 32 rest.now)) }
{
    let Some((user, rest)) = split_once(rest, b' ') else {
        return Ok(None);
    };
    let Some((service, attribute)) = split_once(rest, b' ') else {
        return Ok(None);
    };
    if !is_text(attribute) {
        return Ok(None);
    }
    let attribute = Bytes::from_slice(alloc, attribute)?;
    Ok(wanting(Want::Argument(attribute), named(user, service)))
}

// A case about a line, of this verdict.
fn decided(
    alloc: Global,
    verdict: Verdict,
    rest: &[u8],
) -> Result<Option<(Want, Query)>, AllocError>
    ensures { IfOk result (λ case.
        case ≡ cases.wanting (wants.Verdict verdict) (asking.question_of rest.now)) }
{
    let query = question(alloc, rest)?;
    Ok(wanting(Want::Verdict(verdict), query))
}

// A case about a service, which is to be granted, or not.
fn granted(alloc: Global, want: Want, rest: &[u8]) -> Result<Option<(Want, Query)>, AllocError>
    ensures { IfOk result (λ case.
        case ≡ cases.wanting want (asking.service_question_of rest.now)) }
{
    let query = service_question(alloc, rest)?;
    Ok(wanting(want, query))
}

/// What a case says, and of which question. Nothing of a line that is no case.
pub(crate) fn case(alloc: Global, line: &[u8]) -> Result<Option<(Want, Query)>, AllocError>
    ensures { IfOk result (λ case. case ≡ cases.case_of line.now) }
{
    let Some((word, rest)) = split_once(line, b' ') else {
        return Ok(None);
    };
    if word == b"permit".as_slice() {
        return decided(alloc, Verdict::Permit, rest);
    }
    if word == b"deny".as_slice() {
        return decided(alloc, Verdict::Deny, rest);
    }
    if word == b"grant".as_slice() {
        return granted(alloc, Want::Grant, rest);
    }
    if word == b"refuse".as_slice() {
        return granted(alloc, Want::Refusal, rest);
    }
    if word == b"give".as_slice() {
        return argument(alloc, rest);
    }
    Ok(None)
}

// ---- whether it is so

// Of who isn't in the policy, it says neither.
fn is_decided(wanted: Verdict, decision: Option<Decision>) -> bool
    ensures { result ≡ cases.is_decided wanted decision }
{
    match decision {
        Some(decision) => decision.verdict == wanted,
        None => false,
    }
}

fn is_granted(grant: Grant) -> bool
    ensures { result ≡ cases.is_granted grant }
{
    match grant {
        Grant::Granted(_) => true,
        Grant::Decided(decision) => decision.verdict == Verdict::Permit,
        Grant::UnknownUser | Grant::Unserved | Grant::Refused(_) => false,
    }
}

fn is_refused(grant: Grant) -> bool
    ensures { result ≡ cases.is_refused grant }
{
    match grant {
        Grant::UnknownUser => false,
        _ => !is_granted(grant),
    }
}

fn has_argument(wanted: &Bytes, given: &Given) -> bool
    ensures { result ≡ cases.has_argument wanted.now given.now }
{
    given
        .arguments
        .as_slice()
        .iter()
        .any(|gives| gives.argument == *wanted)
}

fn is_as(want: &Want, given: &Given) -> bool
    ensures { result ≡ cases.is_as want.now given.now }
{
    match want {
        Want::Verdict(_) => false,
        Want::Grant => is_granted(given.grant),
        Want::Refusal => is_refused(given.grant),
        Want::Argument(argument) => has_argument(argument, given),
    }
}

/// Whether what a case wants is so.
pub(crate) fn is_so(
    alloc: Global,
    live: &Live,
    want: &Want,
    query: &Query,
) -> Result<bool, AllocError>
    ensures { IfOk result (λ so. so ≡ cases.is_so live.now want.now query.now) }
{
    match (want, query) {
        (Want::Verdict(verdict), _) => Ok(is_decided(*verdict, decision(live, query))),
        (_, Query::Given { user, service }) => {
            let given = given_to(alloc, live, user, service)?;
            Ok(is_as(want, &given))
        }
        _ => Ok(false),
    }
}

// ---- what is so in place of it

// Adds who grants the service to the user, or why it isn't granted.
fn add_grant(
    alloc: Global,
    out: &mut Vec<u8>,
    user: Name,
    service: ServiceId,
    grant: Grant,
) -> Result<(), AllocError>
    ensures { OnOk result (out.new.items ≡ out.old.items ++ grant_line grant) }
{
    let arguments = Sequence::new(alloc);
    add_given(alloc, out, user, service, Given { grant, arguments })
}

fn add_given_instead(
    alloc: Global,
    out: &mut Vec<u8>,
    want: &Want,
    user: Name,
    service: ServiceId,
    given: &Given,
) -> Result<(), AllocError>
    ensures { OnOk result
        (out.new.items ≡ out.old.items ++ cases.given_instead want.now given.now) }
{
    match want {
        Want::Argument(_) if is_granted(given.grant) => {
            out.extend_from_slice(b"not given\n")?;
            Ok(())
        }
        _ => add_grant(alloc, out, user, service, given.grant),
    }
}

/// Adds what is so in place of what a case wants, with the line's end.
pub(crate) fn add_instead(
    alloc: Global,
    out: &mut Vec<u8>,
    live: &Live,
    want: &Want,
    query: &Query,
) -> Result<(), AllocError>
    ensures { OnOk result
        (out.new.items ≡ out.old.items ++ cases.found_instead live.now want.now query.now) }
{
    match (want, query) {
        (Want::Verdict(_), _) => add_answer(alloc, out, live, query),
        (_, Query::Given { user, service }) => {
            let given = given_to(alloc, live, user, service)?;
            add_given_instead(alloc, out, want, *user, *service, &given)
        }
        _ => Ok(()),
    }
}

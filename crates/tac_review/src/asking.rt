//! How a policy answers the questions of the console's `why` and `given`.

ghost use Rattle.std.specs.Prelude.{◌≡◌, ◌++◌, IfOk, OnOk};
ghost use Rattle.tac_console.specs.Answers.{given_text};
ghost use Rattle.tac_review.specs.Asking as asking;

use crate::task::Permission;
use pol_given::{Given, Grant, given};
use pol_live::Live;
use pol_names::{Decision, Name, ServiceId, Verdict};
use std::alloc::{AllocError, Global};
use tac_console::{Asked, read_console, write_query_answer};
use tac_desk::{Query, Report};

/// The question that `USER` or `USER LINE` asks, read as what comes after `why ` at the console.
pub(crate) fn question(alloc: Global, line: &[u8]) -> Result<Option<Query>, AllocError>
    ensures { IfOk result (λ query. query ≡ asking.question_of line.now) }
{
    let mut asked = Vec::new(alloc);
    asked.extend_from_slice(b"why ")?;
    asked.extend_from_slice(line)?;
    match read_console(alloc, asked.as_slice())? {
        Asked::Query(query) => Ok(Some(query)),
        _ => Ok(None),
    }
}

/// The question that `USER SERVICE` asks, read as what comes after `given ` at the console.
pub(crate) fn service_question(alloc: Global, text: &[u8]) -> Result<Option<Query>, AllocError>
    ensures { IfOk result (λ query. query ≡ asking.service_question_of text.now) }
{
    let mut asked = Vec::new(alloc);
    asked.extend_from_slice(b"given ")?;
    asked.extend_from_slice(text)?;
    match read_console(alloc, asked.as_slice())? {
        Asked::Query(query) => Ok(Some(query)),
        _ => Ok(None),
    }
}

/// How the policy decides what is asked. Nothing where it has no such user.
pub(crate) fn decision(live: &Live, query: &Query) -> Option<Decision>
    ensures { result ≡ asking.decision_on live.now query.now }
{
    match query {
        Query::Why { user, line } => live.decide(user, line.as_slice()),
        _ => None,
    }
}

/// What the policy gives to the user for the service.
pub(crate) fn given_to(
    alloc: Global,
    live: &Live,
    user: &Name,
    service: &ServiceId,
) -> Result<Given, AllocError>
    ensures { IfOk result (λ given. given ≡ asking.given_to live.now user.now service.now) }
{
    let decision = live.decide(user, b"");
    given(alloc, live.policy(), user, service, decision)
}

fn verdict_permission(verdict: Verdict) -> Permission
    ensures { result ≡ asking.verdict_permission verdict }
{
    match verdict {
        Verdict::Permit => Permission::Permitted,
        Verdict::Deny => Permission::Denied,
    }
}

fn line_permission(decision: Option<Decision>) -> Permission
    ensures { result ≡ asking.line_permission decision }
{
    match decision {
        Some(decision) => verdict_permission(decision.verdict),
        None => Permission::Unknown,
    }
}

fn grant_permission(grant: Grant) -> Permission
    ensures { result ≡ asking.grant_permission grant }
{
    match grant {
        Grant::UnknownUser => Permission::Unknown,
        Grant::Granted(_) => Permission::Permitted,
        Grant::Decided(decision) => verdict_permission(decision.verdict),
        Grant::Refused(_) | Grant::Unserved => Permission::Denied,
    }
}

/// Whether what is asked is permitted, or given.
pub(crate) fn permission(
    alloc: Global,
    live: &Live,
    query: &Query,
) -> Result<Permission, AllocError>
    ensures { IfOk result (λ permission.
        permission ≡ asking.permission_of live.now query.now) }
{
    match query {
        Query::Why { .. } => Ok(line_permission(decision(live, query))),
        Query::Given { user, service } => {
            let given = given_to(alloc, live, user, service)?;
            Ok(grant_permission(given.grant))
        }
        _ => Ok(Permission::Denied),
    }
}

/// Adds what the console answers where this is given to the user for the service.
pub(crate) fn add_given(
    alloc: Global,
    out: &mut Vec<u8>,
    user: Name,
    service: ServiceId,
    given: Given,
) -> Result<(), AllocError>
    ensures { OnOk result (out.new.items ≡ out.old.items ++ given_text given) }
{
    let query = Query::Given { user, service };
    let report = Report::Given(given);
    write_query_answer(alloc, out, &query, &Ok(&report))
}

/// Adds what the console answers to the question, with the line's end.
pub(crate) fn add_answer(
    alloc: Global,
    out: &mut Vec<u8>,
    live: &Live,
    query: &Query,
) -> Result<(), AllocError>
    ensures { OnOk result
        (out.new.items ≡ out.old.items ++ asking.answer_to live.now query.now) }
{
    match query {
        Query::Why { .. } => {
            let report = Report::Why(decision(live, query));
            write_query_answer(alloc, out, query, &Ok(&report))
        }
        Query::Given { user, service } => {
            let given = given_to(alloc, live, user, service)?;
            add_given(alloc, out, *user, *service, given)
        }
        _ => Ok(()),
    }
}

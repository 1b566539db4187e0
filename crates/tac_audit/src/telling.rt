//! What a reply says.

ghost use Rattle.std.specs.Prelude.{◌≡◌, Some, IfOk};
ghost use Rattle.std.specs.Option.{option_copied};
ghost use Rattle.tac_conn.specs.declared.reply.ReplyBody.TheVariants as bodies;
ghost use Rattle.tac_audit.specs.Telling as telling;

use crate::event::{Said, Status};
use basics::{Bytes, Sequence};
use std::alloc::{AllocError, Global};
use tac_authen::{AuthenReply, AuthenStatus};
use tac_conn::{Reply, ReplyBody};
use tac_request::{AcctReply, AcctStatus, AuthorReply, AuthorStatus};

// The status of a last reply; questions have none.
fn authen_status(status: AuthenStatus) -> Option<Status>
    ensures { result ≡ telling.authen_status status.0 }
{
    match status {
        AuthenStatus::PASS => Some(Status::Pass),
        AuthenStatus::FAIL => Some(Status::Fail),
        AuthenStatus::ERROR => Some(Status::Error),
        _ => None,
    }
}

fn author_status(status: AuthorStatus) -> Status
    ensures { result ≡ telling.author_status status.0 }
{
    match status {
        AuthorStatus::PASS_ADD => Status::PassAdd,
        AuthorStatus::FAIL => Status::Fail,
        _ => Status::Error,
    }
}

fn acct_status(status: AcctStatus) -> Status
    ensures { result ≡ telling.acct_status status.0 }
{
    match status {
        AcctStatus::SUCCESS => Status::Success,
        _ => Status::Error,
    }
}

// A last reply with these arguments.
fn said(
    alloc: Global,
    status: Status,
    text: &[u8],
    given: Sequence<Bytes>,
) -> Result<Option<Said>, AllocError>
    ensures { IfOk result (λ said. said ≡ Some (telling.said status text.now given)) }
{
    let text = Bytes::from_slice(alloc, text)?;
    Ok(Some(Said {
        status,
        text,
        given,
    }))
}

// What a reply of authentication says.
fn authenticated(alloc: Global, reply: &AuthenReply) -> Result<Option<Said>, AllocError>
    ensures { IfOk result
        (λ said. said ≡ telling.said_by (bodies.Authentication reply.now)) }
{
    match authen_status(reply.status) {
        Some(status) => {
            let none = Sequence::new(alloc);
            said(alloc, status, reply.msg.as_slice(), none)
        }
        None => Ok(None),
    }
}

// What a reply of authorisation says.
fn authorised(alloc: Global, reply: &AuthorReply) -> Result<Option<Said>, AllocError>
    ensures { IfOk result
        (λ said. said ≡ telling.said_by (bodies.Authorisation reply.now)) }
{
    let given = reply.args.to_list(alloc)?;
    said(
        alloc,
        author_status(reply.status),
        reply.msg.as_slice(),
        given,
    )
}

// What a reply of accounting says.
fn accounted(alloc: Global, reply: &AcctReply) -> Result<Option<Said>, AllocError>
    ensures { IfOk result
        (λ said. said ≡ telling.said_by (bodies.Accounting reply.now)) }
{
    let none = Sequence::new(alloc);
    said(alloc, acct_status(reply.status), reply.msg.as_slice(), none)
}

/// What this reply says, if there is one, and it is a last one. The error means that memory ran
/// out.
pub(crate) fn said_in(alloc: Global, reply: Option<&Reply>) -> Result<Option<Said>, AllocError>
    ensures { IfOk result (λ said. said ≡ telling.said_in (option_copied reply.entry)) }
{
    let Some(reply) = reply else {
        return Ok(None);
    };
    match &reply.body {
        ReplyBody::Empty => Ok(None),
        ReplyBody::Authentication(reply) => authenticated(alloc, reply),
        ReplyBody::Authorisation(reply) => authorised(alloc, reply),
        ReplyBody::Accounting(reply) => accounted(alloc, reply),
    }
}

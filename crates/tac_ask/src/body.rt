//! Bodies of packets that a client sends.

ghost use Rattle.std.specs.Prelude.{◌≡◌, ◌≤◌, ◌++◌, false, length, IfOk, OnOk, Ok};
ghost use Rattle.std.specs.List.{list_any};
ghost use Rattle.basics.specs.Memory.{GivesUnlessMemory};
ghost use Rattle.tac_authen.specs.Start.{start_bytes, start_of};
ghost use Rattle.tac_authen.specs.Continue.{continue_bytes, continue_of};
ghost use Rattle.tac_request.specs.AuthorRequest.{author_request, author_request_of};
ghost use Rattle.tac_request.specs.AcctRequest.{acct_request_of, with_flags};
ghost use Rattle.tac_ask.specs.Bodies as bodies;
ghost use Rattle.tac_ask.specs.Bodies.{is_memory};

use crate::fault::AskFault;
use basics::Bytes;
use std::alloc::{AllocError, Global};
use tac_authen::{Continue, Start};
use tac_request::{Arguments, AuthorRequest};

/// The longest field whose length is one byte, and the most arguments.
const FIELD_MAX: usize = 255;

/// The longest field of a CONTINUE.
const TYPED_MAX: usize = 65535;

fn is_long(text: &Bytes) -> bool
    ensures { result ≡ bodies.is_long text.now }
{
    text.len() > FIELD_MAX
}

fn is_long_start(start: &Start) -> bool
    ensures { result ≡ bodies.is_long_start start.now }
{
    is_long(&start.user)
        || is_long(&start.port)
        || is_long(&start.rem_addr)
        || is_long(&start.extra)
}

// The body of a start whose fields aren't too long.
fn spell_start(alloc: Global, start: &Start) -> Result<Bytes, AllocError>
    requires { bodies.is_long_start start.now ≡ false }
    ensures { IfOk result (λ body. body ≡ start_bytes start.now) }
{
    let user = start.user.as_slice();
    let port = start.port.as_slice();
    let rem_addr = start.rem_addr.as_slice();
    let extra = start.extra.as_slice();
    let fixed = [
        start.action.0,
        start.priv_lvl,
        start.authen_type.0,
        start.service.0,
        user.len() as u8,
        port.len() as u8,
        rem_addr.len() as u8,
        extra.len() as u8,
    ];
    let mut body = Bytes::from_slice(alloc, &fixed)?;
    body.extend_from_slice(user)?;
    body.extend_from_slice(port)?;
    body.extend_from_slice(rem_addr)?;
    body.extend_from_slice(extra)?;
    Ok(body)
}

// The body, or why there is none.
fn start_or_fault(alloc: Global, start: &Start) -> Result<Bytes, AskFault>
    ensures { GivesUnlessMemory is_memory (λ body. body) result (bodies.start_body start.now) }
{
    if is_long_start(start) {
        return Err(AskFault::Unsendable);
    }
    let body = spell_start(alloc, start)?;
    Ok(body)
}

/// The body of a START (RFC 8907, section 5.1); `Unsendable` where a field is over 255 bytes long.
pub(crate) fn start_body(alloc: Global, start: &Start) -> Result<Bytes, AskFault>
    ensures exact { GivesUnlessMemory is_memory (λ body. body) result
        (bodies.start_body start.now) }
    // The server reads the same start.
    ensures read { IfOk result (λ body. start_of body ≡ Ok start.now) }
{
    start_or_fault(alloc, start)
}

fn is_long_continue(answer: &Continue) -> bool
    ensures { result ≡ bodies.is_long_continue answer.now }
{
    answer.user_msg.len() > TYPED_MAX || answer.extra.len() > TYPED_MAX
}

// The body of an answer whose fields aren't too long.
fn spell_continue(alloc: Global, answer: &Continue) -> Result<Bytes, AllocError>
    requires { bodies.is_long_continue answer.now ≡ false }
    ensures { IfOk result (λ body. body ≡ continue_bytes answer.now) }
{
    let user_msg = answer.user_msg.as_slice();
    let extra = answer.extra.as_slice();
    let [user_msg_high, user_msg_low] = (user_msg.len() as u16).to_be_bytes();
    let [data_high, data_low] = (extra.len() as u16).to_be_bytes();
    let fixed = [
        user_msg_high,
        user_msg_low,
        data_high,
        data_low,
        answer.flags,
    ];
    let mut body = Bytes::from_slice(alloc, &fixed)?;
    body.extend_from_slice(user_msg)?;
    body.extend_from_slice(extra)?;
    Ok(body)
}

// The body, or why there is none.
fn continue_or_fault(alloc: Global, answer: &Continue) -> Result<Bytes, AskFault>
    ensures { GivesUnlessMemory is_memory (λ body. body) result
        (bodies.continue_body answer.now) }
{
    if is_long_continue(answer) {
        return Err(AskFault::Unsendable);
    }
    let body = spell_continue(alloc, answer)?;
    Ok(body)
}

/// The body of a CONTINUE (RFC 8907, section 5.3); `Unsendable` where a field is over 65,535 bytes
/// long.
pub(crate) fn continue_body(alloc: Global, answer: &Continue) -> Result<Bytes, AskFault>
    ensures exact { GivesUnlessMemory is_memory (λ body. body) result
        (bodies.continue_body answer.now) }
    // The server reads the same answer.
    ensures read { IfOk result (λ body. continue_of body ≡ Ok answer.now) }
{
    continue_or_fault(alloc, answer)
}

fn has_long(texts: &[Bytes]) -> bool
    ensures { result ≡ list_any bodies.is_long texts.now }
{
    texts.iter().any(|text| is_long(text))
}

fn is_long_request(request: &AuthorRequest) -> bool
    ensures { result ≡ bodies.is_long_request request.now }
{
    is_long(&request.user)
        || is_long(&request.port)
        || is_long(&request.rem_addr)
        || request.args.len() > FIELD_MAX
        || has_long(request.args.as_slice())
}

// The arguments, as they lie in a body.
fn packed(alloc: Global, texts: &[Bytes]) -> Result<Arguments, AllocError>
    requires few { length texts.now ≤ 255 }
    requires short { list_any bodies.is_long texts.now ≡ false }
    ensures { IfOk result (λ args. args ≡ texts.now) }
{
    let mut args = Arguments::new(alloc);
    for text in texts {
        args.push(text.as_slice())?;
    }
    Ok(args)
}

// Adds the body of a request whose fields aren't too long.
fn spell_request(alloc: Global, body: &mut Bytes, request: &AuthorRequest) -> Result<(), AllocError>
    requires { bodies.is_long_request request.now ≡ false }
    ensures { OnOk result (body.new ≡ body.old ++ author_request request.now) }
{
    let packed = packed(alloc, request.args.as_slice())?;
    let (lengths, joined) = packed.parts();
    let user = request.user.as_slice();
    let port = request.port.as_slice();
    let rem_addr = request.rem_addr.as_slice();
    let fixed = [
        request.authen_method,
        request.priv_lvl,
        request.authen_type,
        request.authen_service,
        user.len() as u8,
        port.len() as u8,
        rem_addr.len() as u8,
        lengths.len() as u8,
    ];
    body.extend_from_slice(&fixed)?;
    body.extend_from_slice(lengths)?;
    body.extend_from_slice(user)?;
    body.extend_from_slice(port)?;
    body.extend_from_slice(rem_addr)?;
    body.extend_from_slice(joined)
}

// The body with these bytes before it, or why there is none.
fn request_or_fault(
    alloc: Global,
    before: &[u8],
    request: &AuthorRequest,
) -> Result<Bytes, AskFault>
    ensures { GivesUnlessMemory is_memory (λ body. body) result
        (bodies.body_or_fault (bodies.is_long_request request.now)
        (before.now ++ author_request request.now)) }
{
    if is_long_request(request) {
        return Err(AskFault::Unsendable);
    }
    let mut body = Bytes::from_slice(alloc, before)?;
    spell_request(alloc, &mut body, request)?;
    Ok(body)
}

/// The body of an authorisation REQUEST (RFC 8907, section 6.1); `Unsendable` where a field is over
/// 255 bytes long, or there are over 255 arguments.
pub(crate) fn author_body(alloc: Global, request: &AuthorRequest) -> Result<Bytes, AskFault>
    ensures exact { GivesUnlessMemory is_memory (λ body. body) result
        (bodies.author_body request.now) }
    // The server reads the same request.
    ensures read { IfOk result (λ body. author_request_of body ≡ Ok request.now) }
{
    request_or_fault(alloc, &[], request)
}

/// The body of an accounting REQUEST with these flags (RFC 8907, section 7.1); `Unsendable` where a
/// field is over 255 bytes long, or there are over 255 arguments.
pub(crate) fn acct_body(
    alloc: Global,
    flags: u8,
    request: &AuthorRequest,
) -> Result<Bytes, AskFault>
    ensures exact { GivesUnlessMemory is_memory (λ body. body) result
        (bodies.acct_body flags request.now) }
    // The server reads the same request.
    ensures read { IfOk result (λ body. acct_request_of body ≡ Ok (with_flags flags request.now)) }
{
    request_or_fault(alloc, &[flags], request)
}

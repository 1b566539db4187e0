//! How well a packet fits a key.

ghost use Rattle.std.specs.Prelude.{◌≡◌, IfOk, OnErr, IsTrue, if◌then◌else◌};
ghost use Rattle.tac_wire.specs.Pad.{padded};
ghost use Rattle.tac_authen.specs.Start.{start_of};
ghost use Rattle.tac_request.specs.AuthorRequest.{author_request_of};
ghost use Rattle.tac_request.specs.AcctRequest.{acct_request_of};
ghost use Rattle.tac_first.specs.InRange as values;
ghost use Rattle.tac_first.specs.Choice.{grade, fits, is_served};

use crate::in_range::{is_acct_request_in_range, is_author_request_in_range, is_start_in_range};
use std::alloc::{AllocError, Global};
use tac_authen::read_start;
use tac_request::{read_acct_request, read_author_request};
use tac_wire::{BodyFault, Frame, KeyDoor, PacketType};

/// The body isn't one of its type.
const NONE: u8 = 0;

/// The body is one of its type.
const VALID: u8 = 1;

/// The body is one of its type, and its fixed fields have values that mean something.
pub(crate) const IN_RANGE: u8 = 2;

// The grade of a body that is one of its type.
fn grade_of(is_in_range: bool) -> u8
    ensures { result ≡ (if is_in_range then 2 else 1) }
{
    if is_in_range { IN_RANGE } else { VALID }
}

// The body without the pad of this key.
fn clear_body(alloc: Global, key: &KeyDoor, frame: &Frame) -> Result<Vec<u8>, AllocError>
    ensures { IfOk result (λ body. body.items ≡ padded frame.now.header key.now frame.now.body) }
{
    let mut body = Vec::from_slice(alloc, frame.body.as_slice())?;
    key.door().open(&frame.header, &mut body);
    Ok(body)
}

fn grade_start(alloc: Global, body: &[u8]) -> Result<u8, AllocError>
    ensures { IfOk result (λ fit. fit ≡ grade values.is_start_in_range (start_of body.now)) }
{
    match read_start(alloc, body) {
        Ok(start) => Ok(grade_of(is_start_in_range(&start))),
        Err(BodyFault::Memory) => Err(AllocError),
        Err(_) => Ok(NONE),
    }
}

fn grade_author_request(alloc: Global, body: &[u8]) -> Result<u8, AllocError>
    ensures { IfOk result (λ fit.
        fit ≡ grade values.is_author_request_in_range (author_request_of body.now)) }
{
    match read_author_request(alloc, body) {
        Ok(request) => Ok(grade_of(is_author_request_in_range(&request))),
        Err(BodyFault::Memory) => Err(AllocError),
        Err(_) => Ok(NONE),
    }
}

fn grade_acct_request(alloc: Global, body: &[u8]) -> Result<u8, AllocError>
    ensures { IfOk result (λ fit.
        fit ≡ grade values.is_acct_request_in_range (acct_request_of body.now)) }
{
    match read_acct_request(alloc, body) {
        Ok(request) => Ok(grade_of(is_acct_request_in_range(&request))),
        Err(BodyFault::Memory) => Err(AllocError),
        Err(_) => Ok(NONE),
    }
}

/// How well a packet fits a key. The error means that memory ran out.
pub(crate) fn fit_of(alloc: Global, key: &KeyDoor, frame: &Frame) -> Result<u8, AllocError>
    ensures exact { IfOk result (λ fit. fit ≡ fits key.now frame.now) }
    ensures memory { OnErr result (IsTrue (is_served frame.now.header.kind.0)) }
{
    match frame.header.kind {
        PacketType::AUTHENTICATION => {
            grade_start(alloc, clear_body(alloc, key, frame)?.as_slice())
        }
        PacketType::AUTHORISATION => {
            grade_author_request(alloc, clear_body(alloc, key, frame)?.as_slice())
        }
        PacketType::ACCOUNTING => {
            grade_acct_request(alloc, clear_body(alloc, key, frame)?.as_slice())
        }
        _ => Ok(NONE),
    }
}

//! Bodies of accounting requests.

ghost use Rattle.std.specs.Prelude.{◌≡◌, IfOk, IsOk, Ok, Err};
ghost use Rattle.basics.specs.Memory.{GivesUnlessMemory};
ghost use Rattle.tac_wire.specs.declared.body.BodyFault.TheVariants.{Memory};
ghost use Rattle.tac_wire.specs.Body.{is_memory};
ghost use Rattle.tac_request.specs.AcctRequest.{acct_request, acct_request_of};

use crate::author_request::{AuthorRequest, read_author_request};
use basics::{Bytes, Sequence};
use std::alloc::Global;
use tac_wire::BodyFault;

/// An accounting request (RFC 8907, section 7.1), as written: no value is refused here.
#[derive(Debug, Drop)]
pub struct AcctRequest {
    pub flags: u8,
    pub authen_method: u8,
    pub priv_lvl: u8,
    pub authen_type: u8,
    pub authen_service: u8,
    pub user: Bytes,
    pub port: Bytes,
    pub rem_addr: Bytes,
    pub args: Sequence<Bytes>,
}

// The flags, followed by the fields that an authorisation request has too.
fn read_fields(alloc: Global, body: &[u8]) -> Result<AcctRequest, BodyFault>
    ensures exact { GivesUnlessMemory is_memory (λ body. body) result (acct_request_of body.now) }
    ensures memory { result ≡ Err Memory → IsOk (acct_request_of body.now) }
{
    let Some((flags, rest)) = body.split_first() else {
        return Err(BodyFault::Short);
    };
    let AuthorRequest {
        authen_method,
        priv_lvl,
        authen_type,
        authen_service,
        user,
        port,
        rem_addr,
        args,
    } = read_author_request(alloc, rest)?;
    Ok(AcctRequest {
        flags: *flags,
        authen_method,
        priv_lvl,
        authen_type,
        authen_service,
        user,
        port,
        rem_addr,
        args,
    })
}

/// The request that a body spells (RFC 8907, section 7.1).
///
/// `Short` where the fixed part, with the lengths of the arguments, isn't whole; `LengthSum` where
/// the lengths don't add up to the body's; `Memory` where memory ran out for the fields of a valid
/// body.
pub fn read_acct_request(alloc: Global, body: &[u8]) -> Result<AcctRequest, BodyFault>
    ensures exact { GivesUnlessMemory is_memory (λ body. body) result (acct_request_of body.now) }
    // Only a valid body takes memory, so an invalid one is refused in any case.
    ensures memory { result ≡ Err Memory → IsOk (acct_request_of body.now) }
    // No byte is lost, and none ignored.
    ensures found { IfOk result (λ request. body.now ≡ acct_request request) }
    // Each body that spells a request is read, unless memory runs out.
    ensures only { (request : AcctRequest) → body.now ≡ acct_request request →
        GivesUnlessMemory is_memory (λ body. body) result (Ok request) }
{
    read_fields(alloc, body)
}

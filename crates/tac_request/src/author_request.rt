//! Bodies of authorisation requests.

ghost use Rattle.std.specs.Prelude.{◌≡◌, ◌≤◌, length, sum, IfOk, IsOk, Ok, Err};
ghost use Rattle.basics.specs.Memory.{GivesUnlessMemory};
ghost use Rattle.tac_wire.specs.declared.body.BodyFault.TheVariants.{Memory};
ghost use Rattle.tac_wire.specs.Body.{is_memory};
ghost use Rattle.tac_request.specs.AuthorRequest.{author_request, author_request_of};

use basics::{Bytes, Sequence};
use std::alloc::Global;
use std::marker::Model;
use tac_wire::{BodyFault, cut};

/// An authorisation request (RFC 8907, section 6.1), as written: no value is refused here.
#[derive(Debug, Drop)]
pub struct AuthorRequest {
    pub authen_method: u8,
    pub priv_lvl: u8,
    pub authen_type: u8,
    pub authen_service: u8,
    pub user: Bytes,
    pub port: Bytes,
    pub rem_addr: Bytes,
    pub args: Sequence<Bytes>,
}

// What these lengths, at most as many as one byte counts, add up to.
pub(crate) fn total(lengths: &[u8]) -> u32
    requires { length lengths.now ≤ 255 }
    ensures { result ≡ sum lengths.now }
{
    lengths.iter().map(|len| u32::from(*len)).sum()
}

// A request whose fields still lie in its body. Contracts see the request.
#[derive(Drop)]
struct LentRequest<'a> {
    authen_method: u8,
    priv_lvl: u8,
    authen_type: u8,
    authen_service: u8,
    user: &'a [u8],
    port: &'a [u8],
    rem_addr: &'a [u8],
    // Those of the arguments, which lie one after another.
    lengths: &'a [u8],
    args: &'a [u8],
}

impl<'a> Model for LentRequest<'a> {
    ghost use Rattle.std.specs.Prelude.{◌≡◌, length, sum};
    ghost use Rattle.tac_wire.specs.Cut.{cut as cut_fields};
    ghost use Rattle.tac_request.specs.declared.author_request.AuthorRequest.{AuthorRequest};

    ghost Value = { AuthorRequest };

    ghost view = { λ lent. record {
      authen_method = lent.authen_method;
      priv_lvl = lent.priv_lvl;
      authen_type = lent.authen_type;
      authen_service = lent.authen_service;
      user = lent.user.now;
      port = lent.port.now;
      rem_addr = lent.rem_addr.now;
      args = cut_fields lent.lengths.now lent.args.now;
    } };

    ghost invariant = { λ lent. sum lent.lengths.now ≡ length lent.args.now };
}

impl<'a> LentRequest<'a> {
    // Each fault in its order. Takes no memory.
    fn read(body: &'a [u8]) -> Result<LentRequest<'a>, BodyFault>
        ensures { result ≡ author_request_of body.now }
    {
        if body.len() < 8 {
            return Err(BodyFault::Short);
        }
        let (fixed, rest) = body.split_at(8);
        let arg_cnt = fixed[7] as usize;
        if rest.len() < arg_cnt {
            return Err(BodyFault::Short);
        }
        let (lengths, fields) = rest.split_at(arg_cnt);
        let user_len = fixed[4] as usize;
        let port_len = fixed[5] as usize;
        let rem_addr_len = fixed[6] as usize;
        if fields.len() != user_len + port_len + rem_addr_len + total(lengths) as usize {
            return Err(BodyFault::LengthSum);
        }
        let (user, fields) = fields.split_at(user_len);
        let (port, fields) = fields.split_at(port_len);
        let (rem_addr, args) = fields.split_at(rem_addr_len);
        Ok(LentRequest {
            authen_method: fixed[0],
            priv_lvl: fixed[1],
            authen_type: fixed[2],
            authen_service: fixed[3],
            user,
            port,
            rem_addr,
            lengths,
            args,
        })
    }

    // Copies the fields.
    fn into_owned(self, alloc: Global) -> Result<AuthorRequest, BodyFault>
        ensures { GivesUnlessMemory is_memory (λ request. request) result (Ok self.entry) }
    {
        let user = Bytes::from_slice(alloc, self.user)?;
        let port = Bytes::from_slice(alloc, self.port)?;
        let rem_addr = Bytes::from_slice(alloc, self.rem_addr)?;
        let args = cut(alloc, self.lengths, self.args)?;
        Ok(AuthorRequest {
            authen_method: self.authen_method,
            priv_lvl: self.priv_lvl,
            authen_type: self.authen_type,
            authen_service: self.authen_service,
            user,
            port,
            rem_addr,
            args,
        })
    }
}

fn read_fields(alloc: Global, body: &[u8]) -> Result<AuthorRequest, BodyFault>
    ensures exact { GivesUnlessMemory is_memory (λ body. body) result (author_request_of body.now) }
    ensures memory { result ≡ Err Memory → IsOk (author_request_of body.now) }
{
    LentRequest::read(body)?.into_owned(alloc)
}

/// The request that a body spells (RFC 8907, section 6.1).
///
/// `Short` where the fixed part, with the lengths of the arguments, isn't whole; `LengthSum` where
/// the lengths don't add up to the body's; `Memory` where memory ran out for the fields of a valid
/// body.
pub fn read_author_request(alloc: Global, body: &[u8]) -> Result<AuthorRequest, BodyFault>
    ensures exact { GivesUnlessMemory is_memory (λ body. body) result (author_request_of body.now) }
    // Only a valid body takes memory, so an invalid one is refused in any case.
    ensures memory { result ≡ Err Memory → IsOk (author_request_of body.now) }
    // No byte is lost, and none ignored.
    ensures found { IfOk result (λ request. body.now ≡ author_request request) }
    // Each body that spells a request is read, unless memory runs out.
    ensures only { (request : AuthorRequest) → body.now ≡ author_request request →
        GivesUnlessMemory is_memory (λ body. body) result (Ok request) }
{
    read_fields(alloc, body)
}

//! Starts of an authentication.

ghost use Rattle.std.specs.Prelude.{◌≡◌, IfOk, IsOk, Ok, Err};
ghost use Rattle.basics.specs.Memory.{GivesUnlessMemory};
ghost use Rattle.tac_wire.specs.declared.body.BodyFault.TheVariants.{Memory};
ghost use Rattle.tac_wire.specs.Body.{is_memory};
ghost use Rattle.tac_authen.specs.Start.{start_bytes, start_of};

use basics::Bytes;
use std::alloc::Global;
use std::marker::Model;
use tac_wire::BodyFault;

/// What the client wants. Numbers without a name are actions that aren't served.
#[derive(Clone, Copy, Debug, PartialEq, Eq)]
pub struct Action(pub u8);

impl Action {
    pub const LOGIN: Action = Action(1);
}

/// How the user is to be authenticated. Numbers without a name are types that aren't served.
#[derive(Clone, Copy, Debug, PartialEq, Eq)]
pub struct AuthenType(pub u8);

impl AuthenType {
    pub const ASCII: AuthenType = AuthenType(1);

    pub const PAP: AuthenType = AuthenType(2);

    pub const CHAP: AuthenType = AuthenType(3);
}

/// What the user is authenticated for. Numbers without a name are read as they are.
#[derive(Clone, Copy, Debug, PartialEq, Eq)]
pub struct Service(pub u8);

impl Service {
    pub const NONE: Service = Service(0);

    pub const LOGIN: Service = Service(1);

    pub const ENABLE: Service = Service(2);

    pub const PPP: Service = Service(3);
}

/// The start of an authentication (RFC 8907, section 5.1), as written: no value is refused here.
#[derive(Drop)]
pub struct Start {
    pub action: Action,
    pub priv_lvl: u8,
    pub authen_type: AuthenType,
    /// The field authen_service.
    pub service: Service,
    pub user: Bytes,
    pub port: Bytes,
    pub rem_addr: Bytes,
    /// The field data.
    pub extra: Bytes,
}

// A start whose fields still lie in its body. Contracts see the start.
#[derive(Drop)]
struct LentStart<'a> {
    action: Action,
    priv_lvl: u8,
    authen_type: AuthenType,
    service: Service,
    user: &'a [u8],
    port: &'a [u8],
    rem_addr: &'a [u8],
    extra: &'a [u8],
}

impl<'a> Model for LentStart<'a> {
    ghost use Rattle.tac_authen.specs.declared.start.Start.{Start};

    ghost Value = { Start };

    ghost view = { λ lent. record {
      action = lent.action;
      priv_lvl = lent.priv_lvl;
      authen_type = lent.authen_type;
      service = lent.service;
      user = lent.user.now;
      port = lent.port.now;
      rem_addr = lent.rem_addr.now;
      extra = lent.extra.now;
    } };
}

impl<'a> LentStart<'a> {
    // Each fault in its order. Takes no memory.
    fn read(body: &'a [u8]) -> Result<LentStart<'a>, BodyFault>
        ensures { result ≡ start_of body.now }
    {
        if body.len() < 8 {
            return Err(BodyFault::Short);
        }
        let (fixed, fields) = body.split_at(8);
        let user_len = fixed[4] as usize;
        let port_len = fixed[5] as usize;
        let rem_addr_len = fixed[6] as usize;
        let data_len = fixed[7] as usize;
        if fields.len() != user_len + port_len + rem_addr_len + data_len {
            return Err(BodyFault::LengthSum);
        }
        let (user, fields) = fields.split_at(user_len);
        let (port, fields) = fields.split_at(port_len);
        let (rem_addr, extra) = fields.split_at(rem_addr_len);
        Ok(LentStart {
            action: Action(fixed[0]),
            priv_lvl: fixed[1],
            authen_type: AuthenType(fixed[2]),
            service: Service(fixed[3]),
            user,
            port,
            rem_addr,
            extra,
        })
    }

    // Copies the fields.
    fn into_owned(self, alloc: Global) -> Result<Start, BodyFault>
        ensures { GivesUnlessMemory is_memory (λ start. start) result (Ok self.entry) }
    {
        let user = Bytes::from_slice(alloc, self.user)?;
        let port = Bytes::from_slice(alloc, self.port)?;
        let rem_addr = Bytes::from_slice(alloc, self.rem_addr)?;
        let extra = Bytes::from_slice(alloc, self.extra)?;
        Ok(Start {
            action: self.action,
            priv_lvl: self.priv_lvl,
            authen_type: self.authen_type,
            service: self.service,
            user,
            port,
            rem_addr,
            extra,
        })
    }
}

fn read_fields(alloc: Global, body: &[u8]) -> Result<Start, BodyFault>
    ensures exact { GivesUnlessMemory is_memory (λ body. body) result (start_of body.now) }
    ensures memory { result ≡ Err Memory → IsOk (start_of body.now) }
{
    LentStart::read(body)?.into_owned(alloc)
}

/// The start that a body spells (RFC 8907, section 5.1).
///
/// `Short` where the fixed part isn't whole; `LengthSum` where the lengths don't add up to the
/// body's; `Memory` where memory ran out for the fields of a valid body.
pub fn read_start(alloc: Global, body: &[u8]) -> Result<Start, BodyFault>
    ensures exact { GivesUnlessMemory is_memory (λ body. body) result (start_of body.now) }
    // Only a valid body takes memory, so an invalid one is refused in any case.
    ensures memory { result ≡ Err Memory → IsOk (start_of body.now) }
    // No byte is lost, and none ignored.
    ensures found { IfOk result (λ start. body.now ≡ start_bytes start) }
    // Each body that spells a start is read, unless memory runs out.
    ensures only { (start : Start) → body.now ≡ start_bytes start →
        GivesUnlessMemory is_memory (λ body. body) result (Ok start) }
{
    read_fields(alloc, body)
}

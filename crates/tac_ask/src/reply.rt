//! Bodies of replies, from any server.

ghost use Rattle.std.specs.Prelude.{◌≡◌, ◌≤◌, length, sum, IfOk, Ok};
ghost use Rattle.basics.specs.Memory.{GivesUnlessMemory};
ghost use Rattle.tac_wire.specs.Body.{is_memory};
ghost use Rattle.tac_ask.specs.Reply as replies;

use basics::{Bytes, Sequence};
use std::alloc::Global;
use tac_wire::{BodyFault, PacketType, cut};

/// What a reply says, of whichever type it is (RFC 8907, sections 5.2, 6.2 and 7.2).
pub struct ReplyFields {
    pub status: u8,
    /// The flags of an authentication reply; others have none.
    pub flags: u8,
    pub server_msg: Bytes,
    /// The field data.
    pub extra: Bytes,
    /// The arguments of an authorisation reply; others have none.
    pub args: Sequence<Bytes>,
}

// By hand, so that a proof of an owner has one call at each exit, not a drop of each field.
impl Drop for ReplyFields {
    fn drop(self) {
        let ReplyFields {
            status: _,
            flags: _,
            server_msg: _,
            extra: _,
            args: _,
        } = self;
    }
}

// What stands before the texts.
#[derive(Clone, Copy)]
pub struct ReplyHead {
    status: u8,
    flags: u8,
    msg_len: u16,
    data_len: u16,
}

// What these lengths, at most as many as one byte counts, add up to.
fn total(lengths: &[u8]) -> u32
    requires { length lengths.now ≤ 255 }
    ensures { result ≡ sum lengths.now }
{
    lengths.iter().map(|len| u32::from(*len)).sum()
}

// The texts, and arguments of these lengths, that follow one after another.
fn read_fields(
    alloc: Global,
    head: ReplyHead,
    lengths: &[u8],
    fields: &[u8],
) -> Result<ReplyFields, BodyFault>
    requires { length lengths.now ≤ 255 }
    ensures { GivesUnlessMemory is_memory (λ reply. reply) result
        (replies.fields_of head lengths.now fields.now) }
{
    let msg_len = head.msg_len as usize;
    let data_len = head.data_len as usize;
    if fields.len() != msg_len + data_len + total(lengths) as usize {
        return Err(BodyFault::LengthSum);
    }
    let (server_msg, rest) = fields.split_at(msg_len);
    let (extra, joined) = rest.split_at(data_len);
    let server_msg = Bytes::from_slice(alloc, server_msg)?;
    let extra = Bytes::from_slice(alloc, extra)?;
    let args = cut(alloc, lengths, joined)?;
    Ok(ReplyFields {
        status: head.status,
        flags: head.flags,
        server_msg,
        extra,
        args,
    })
}

// Each fault in its order.
fn authen_fields(alloc: Global, body: &[u8]) -> Result<ReplyFields, BodyFault>
    ensures { GivesUnlessMemory is_memory (λ reply. reply) result
        (replies.authen_reply_of body.now) }
{
    if body.len() < 6 {
        return Err(BodyFault::Short);
    }
    let (fixed, fields) = body.split_at(6);
    let head = ReplyHead {
        status: fixed[0],
        flags: fixed[1],
        msg_len: u16::from_be_bytes([fixed[2], fixed[3]]),
        data_len: u16::from_be_bytes([fixed[4], fixed[5]]),
    };
    read_fields(alloc, head, &[], fields)
}

/// The authentication reply that a body spells (RFC 8907, section 5.2).
///
/// `Short` where the fixed part isn't whole; `LengthSum` where the lengths don't add up to the
/// body's; `Memory` where memory ran out.
pub(crate) fn read_authen_reply(alloc: Global, body: &[u8]) -> Result<ReplyFields, BodyFault>
    ensures exact { GivesUnlessMemory is_memory (λ reply. reply) result
        (replies.authen_reply_of body.now) }
    // No byte is lost, and none ignored.
    ensures found { IfOk result (λ reply. body.now ≡ replies.authen_reply_bytes reply) }
    // A reply is read as what was written, unless memory runs out.
    ensures only { (reply : ReplyFields) → replies.IsAuthenReply reply →
        body.now ≡ replies.authen_reply_bytes reply →
        GivesUnlessMemory is_memory (λ reply. reply) result (Ok reply) }
{
    authen_fields(alloc, body)
}

// Each fault in its order.
fn author_fields(alloc: Global, body: &[u8]) -> Result<ReplyFields, BodyFault>
    ensures { GivesUnlessMemory is_memory (λ reply. reply) result
        (replies.author_reply_of body.now) }
{
    if body.len() < 6 {
        return Err(BodyFault::Short);
    }
    let (fixed, rest) = body.split_at(6);
    let arg_cnt = fixed[1] as usize;
    if rest.len() < arg_cnt {
        return Err(BodyFault::Short);
    }
    let (lengths, fields) = rest.split_at(arg_cnt);
    let head = ReplyHead {
        status: fixed[0],
        flags: 0,
        msg_len: u16::from_be_bytes([fixed[2], fixed[3]]),
        data_len: u16::from_be_bytes([fixed[4], fixed[5]]),
    };
    read_fields(alloc, head, lengths, fields)
}

/// The authorisation reply that a body spells (RFC 8907, section 6.2), with the faults of
/// [`read_authen_reply`]; the fixed part has the lengths of the arguments.
pub(crate) fn read_author_reply(alloc: Global, body: &[u8]) -> Result<ReplyFields, BodyFault>
    ensures exact { GivesUnlessMemory is_memory (λ reply. reply) result
        (replies.author_reply_of body.now) }
    // No byte is lost, and none ignored.
    ensures found { IfOk result (λ reply. body.now ≡ replies.author_reply_bytes reply) }
    // A reply is read as what was written, unless memory runs out.
    ensures only { (reply : ReplyFields) → replies.IsAuthorReply reply →
        body.now ≡ replies.author_reply_bytes reply →
        GivesUnlessMemory is_memory (λ reply. reply) result (Ok reply) }
{
    author_fields(alloc, body)
}

// Each fault in its order.
fn acct_fields(alloc: Global, body: &[u8]) -> Result<ReplyFields, BodyFault>
    ensures { GivesUnlessMemory is_memory (λ reply. reply) result
        (replies.acct_reply_of body.now) }
{
    if body.len() < 5 {
        return Err(BodyFault::Short);
    }
    let (fixed, fields) = body.split_at(5);
    let head = ReplyHead {
        status: fixed[4],
        flags: 0,
        msg_len: u16::from_be_bytes([fixed[0], fixed[1]]),
        data_len: u16::from_be_bytes([fixed[2], fixed[3]]),
    };
    read_fields(alloc, head, &[], fields)
}

/// The accounting reply that a body spells (RFC 8907, section 7.2), with the faults of
/// [`read_authen_reply`].
pub(crate) fn read_acct_reply(alloc: Global, body: &[u8]) -> Result<ReplyFields, BodyFault>
    ensures exact { GivesUnlessMemory is_memory (λ reply. reply) result
        (replies.acct_reply_of body.now) }
    // No byte is lost, and none ignored.
    ensures found { IfOk result (λ reply. body.now ≡ replies.acct_reply_bytes reply) }
    // A reply is read as what was written, unless memory runs out.
    ensures only { (reply : ReplyFields) → replies.IsAcctReply reply →
        body.now ≡ replies.acct_reply_bytes reply →
        GivesUnlessMemory is_memory (λ reply. reply) result (Ok reply) }
{
    acct_fields(alloc, body)
}

/// The reply of a packet of this type that a body spells.
pub(crate) fn read_reply(
    alloc: Global,
    kind: PacketType,
    body: &[u8],
) -> Result<ReplyFields, BodyFault>
    ensures { GivesUnlessMemory is_memory (λ reply. reply) result
        (replies.reply_of kind.0 body.now) }
{
    if kind == PacketType::AUTHENTICATION {
        read_authen_reply(alloc, body)
    } else if kind == PacketType::AUTHORISATION {
        read_author_reply(alloc, body)
    } else {
        read_acct_reply(alloc, body)
    }
}

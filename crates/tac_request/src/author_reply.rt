//! Bodies of authorisation replies.

ghost use Rattle.std.specs.Prelude.{◌≡◌, ◌+◌, ◌≤◌, ◌++◌, ◌∷◌, [], length, IfOk};
ghost use Rattle.std.specs.Prelude.{IsOk, Ok, Err, vec_len, vec_capacity};
ghost use Rattle.std.specs.Int.{w16, to_be_bytes};
ghost use Rattle.basics.specs.Memory.{GivesUnlessMemory};
ghost use Rattle.tac_wire.specs.Body.{is_memory};
ghost use Rattle.tac_wire.specs.declared.body.BodyFault.TheVariants.{Memory};
ghost use Rattle.tac_request.specs.AuthorReply.{author_reply, author_reply_of};

use crate::arguments::{Arguments, ReplyArguments, level_argument};
use crate::author_request::total;
use std::alloc::Global;
use tac_wire::{BodyFault, MESSAGE_MAX, Message, message_of};

/// What is decided (RFC 8907, section 6.2). Numbers without a name are read as they are.
#[derive(Clone, Copy, Debug, PartialEq, Eq)]
pub struct AuthorStatus(pub u8);

impl AuthorStatus {
    /// Allowed, with the arguments of the reply in addition to those asked for.
    pub const PASS_ADD: AuthorStatus = AuthorStatus(0x01);

    pub const FAIL: AuthorStatus = AuthorStatus(0x10);

    pub const ERROR: AuthorStatus = AuthorStatus(0x11);
}

/// An authorisation reply (RFC 8907, section 6.2), of those that this server sends: with no data.
#[derive(Drop)]
pub struct AuthorReply {
    pub status: AuthorStatus,
    /// The field server_msg.
    pub msg: Message,
    pub args: ReplyArguments,
}

/// How many bytes the body of an authorisation reply has at most: the fixed part, the lengths of
/// 255 arguments, the text, and the arguments.
pub const AUTHOR_REPLY_MAX: usize = 65350;

// Adds the body of a reply whose arguments have these lengths and lie one after another.
fn put_reply(out: &mut Vec<u8>, status: AuthorStatus, msg: &[u8], lengths: &[u8], joined: &[u8])
    requires few { length lengths.now ≤ 255 }
    requires text { length msg.now ≤ MESSAGE_MAX }
    requires room { vec_len out.old + (6 + length lengths.now + length msg.now + length joined.now)
        ≤ vec_capacity out.old }
    ensures { out.new.items ≡ out.old.items ++ ((status.0 ∷ length lengths.now ∷ [])
        ++ to_be_bytes w16 (length msg.now) ++ to_be_bytes w16 0
        ++ lengths.now ++ msg.now ++ joined.now) }
{
    let [high, low] = (msg.len() as u16).to_be_bytes();
    // No data.
    out.extend_from_slice(&[status.0, lengths.len() as u8, high, low, 0, 0])
        .unwrap();
    out.extend_from_slice(lengths).unwrap();
    out.extend_from_slice(msg).unwrap();
    out.extend_from_slice(joined).unwrap();
}

// Adds the spelling, with what the types of a reply say of it.
fn spell(reply: &AuthorReply, out: &mut Vec<u8>)
    requires room { vec_len out.old + AUTHOR_REPLY_MAX ≤ vec_capacity out.old }
    ensures value { out.new.items ≡ out.old.items ++ author_reply reply.now }
    ensures fits { length (author_reply reply.now) ≤ AUTHOR_REPLY_MAX }
    ensures short { length reply.now.msg.items ≤ MESSAGE_MAX }
{
    let msg = reply.msg.as_slice();
    match (&reply.args.list, reply.args.level) {
        (Some(list), _) => {
            let (lengths, joined) = list.parts();
            put_reply(out, reply.status, msg, lengths, joined);
        }
        (None, Some(level)) => {
            let argument = level_argument(level);
            let lengths = [argument.len() as u8];
            put_reply(out, reply.status, msg, &lengths, argument.as_slice());
        }
        (None, None) => put_reply(out, reply.status, msg, &[], &[]),
    }
}

/// Adds the one spelling of a reply (RFC 8907, section 6.2) to bytes that have room for it. Takes
/// no memory.
pub fn write_author_reply(reply: &AuthorReply, out: &mut Vec<u8>)
    requires room { vec_len out.old + AUTHOR_REPLY_MAX ≤ vec_capacity out.old }
    ensures value { out.new.items ≡ out.old.items ++ author_reply reply.now }
    ensures fits { length (author_reply reply.now) ≤ AUTHOR_REPLY_MAX }
    // What was written is read again.
    ensures again { author_reply_of (author_reply reply.now) ≡ Ok reply.now }
{
    spell(reply, out)
}

// Each fault in its order.
fn read_fields(alloc: Global, body: &[u8]) -> Result<AuthorReply, BodyFault>
    ensures exact { GivesUnlessMemory is_memory (λ reply. reply) result (author_reply_of body.now) }
    ensures memory { result ≡ Err Memory → IsOk (author_reply_of body.now) }
{
    if body.len() < 6 {
        return Err(BodyFault::Short);
    }
    let (fixed, rest) = body.split_at(6);
    let arg_cnt = fixed[1] as usize;
    if rest.len() < arg_cnt {
        return Err(BodyFault::Short);
    }
    let (lengths, fields) = rest.split_at(arg_cnt);
    let msg_len = u16::from_be_bytes([fixed[2], fixed[3]]) as usize;
    let data_len = u16::from_be_bytes([fixed[4], fixed[5]]) as usize;
    if fields.len() != msg_len + data_len + total(lengths) as usize {
        return Err(BodyFault::LengthSum);
    }
    if msg_len > MESSAGE_MAX || data_len > 0 {
        return Err(BodyFault::TooLong);
    }
    let (text, joined) = fields.split_at(msg_len);
    let args = Arguments::of_parts(alloc, lengths, joined)?;
    Ok(AuthorReply {
        status: AuthorStatus(fixed[0]),
        msg: message_of(text),
        args: ReplyArguments::of_list(args),
    })
}

/// The reply that a body spells (RFC 8907, section 6.2).
///
/// `Short` where the fixed part, with the lengths of the arguments, isn't whole; `LengthSum` where
/// the lengths don't add up to the body's; `TooLong` for a reply that this server never sends:
/// over 64 bytes of server_msg, or any data; `Memory` where memory ran out for the arguments of a
/// valid body.
pub fn read_author_reply(alloc: Global, body: &[u8]) -> Result<AuthorReply, BodyFault>
    ensures exact { GivesUnlessMemory is_memory (λ reply. reply) result (author_reply_of body.now) }
    // Only a valid body takes memory, so an invalid one is refused in any case.
    ensures memory { result ≡ Err Memory → IsOk (author_reply_of body.now) }
    // No byte is lost, and none ignored.
    ensures found { IfOk result (λ reply. body.now ≡ author_reply reply) }
    // Each body that spells a reply of this server is read, unless memory runs out.
    ensures only { (reply : AuthorReply) → length reply.msg.items ≤ MESSAGE_MAX →
        body.now ≡ author_reply reply →
        GivesUnlessMemory is_memory (λ reply. reply) result (Ok reply) }
{
    read_fields(alloc, body)
}

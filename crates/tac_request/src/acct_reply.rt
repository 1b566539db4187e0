//! Bodies of accounting replies.

ghost use Rattle.std.specs.Prelude.{◌≡◌, ◌≤◌, length, IfOk, Ok};
ghost use Rattle.tac_request.specs.AcctReply.{acct_reply, acct_reply_of};

use arrayvec::ArrayVec;
use tac_wire::{BodyFault, MESSAGE_MAX, Message, REPLY_MAX, message_of};

/// Whether a record was taken (RFC 8907, section 7.2). Numbers without a name are read as they are.
#[derive(Clone, Copy, Debug, PartialEq, Eq)]
pub struct AcctStatus(pub u8);

impl AcctStatus {
    pub const SUCCESS: AcctStatus = AcctStatus(1);

    pub const ERROR: AcctStatus = AcctStatus(2);
}

/// An accounting reply (RFC 8907, section 7.2), of those that this server sends: with no data.
#[derive(Debug, Drop, PartialEq, Eq)]
pub struct AcctReply {
    pub status: AcctStatus,
    /// The field server_msg.
    pub msg: Message,
}

// The spelling, with what the type of a text says of it.
fn spelled(reply: &AcctReply) -> ArrayVec<u8, 96>
    ensures value { result.items ≡ acct_reply reply.now }
    ensures fits { length result.items ≤ REPLY_MAX }
    ensures short { length reply.now.msg.items ≤ MESSAGE_MAX }
{
    let msg = reply.msg.as_slice();
    let [high, low] = (msg.len() as u16).to_be_bytes();
    let mut body = ArrayVec::new();
    // No data.
    body.try_extend_from_slice(&[high, low, 0, 0, reply.status.0])
        .unwrap();
    body.try_extend_from_slice(msg).unwrap();
    body
}

/// The one spelling of a reply (RFC 8907, section 7.2). Takes no memory.
pub fn write_acct_reply(reply: &AcctReply) -> ArrayVec<u8, 96>
    ensures value { result.items ≡ acct_reply reply.now }
    ensures fits { length result.items ≤ REPLY_MAX }
    // What was written is read again.
    ensures again { acct_reply_of result.items ≡ Ok reply.now }
{
    spelled(reply)
}

// Each fault in its order.
fn read_fields(body: &[u8]) -> Result<AcctReply, BodyFault>
    ensures { result ≡ acct_reply_of body.now }
{
    if body.len() < 5 {
        return Err(BodyFault::Short);
    }
    let (fixed, fields) = body.split_at(5);
    let msg_len = u16::from_be_bytes([fixed[0], fixed[1]]) as usize;
    let data_len = u16::from_be_bytes([fixed[2], fixed[3]]) as usize;
    if fields.len() != msg_len + data_len {
        return Err(BodyFault::LengthSum);
    }
    if msg_len > MESSAGE_MAX || data_len > 0 {
        return Err(BodyFault::TooLong);
    }
    Ok(AcctReply {
        status: AcctStatus(fixed[4]),
        msg: message_of(fields),
    })
}

/// The reply that a body spells (RFC 8907, section 7.2). Takes no memory.
///
/// `Short` where the fixed part isn't whole; `LengthSum` where the lengths don't add up to the
/// body's; `TooLong` for a reply that this server never sends: over 64 bytes of server_msg, or any
/// data.
pub fn read_acct_reply(body: &[u8]) -> Result<AcctReply, BodyFault>
    ensures exact { result ≡ acct_reply_of body.now }
    // No byte is lost, and none ignored.
    ensures found { IfOk result (λ reply. body.now ≡ acct_reply reply) }
    // Each body that spells a reply of this server is read.
    ensures only { (reply : AcctReply) → length reply.msg.items ≤ MESSAGE_MAX →
        body.now ≡ acct_reply reply → result ≡ Ok reply }
{
    read_fields(body)
}

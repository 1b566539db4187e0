//! Bodies of authentication replies.

ghost use Rattle.std.specs.Prelude.{◌≡◌, ℕ, ◌≤◌, length, slice_index, IfOk, Ok};
ghost use Rattle.tac_authen.specs.Reply.{is_noecho, bytes_with, reply_bytes, reply_of};

use arrayvec::ArrayVec;
use tac_wire::{BodyFault, MESSAGE_MAX, Message, REPLY_MAX, message_of};

/// The result of an authentication, or what is asked next (RFC 8907, section 5.2). Numbers without
/// a name are read as they are.
#[derive(Clone, Copy, Debug, PartialEq, Eq)]
pub struct AuthenStatus(pub u8);

impl AuthenStatus {
    /// The user has passed.
    pub const PASS: AuthenStatus = AuthenStatus(1);

    /// The user has failed.
    pub const FAIL: AuthenStatus = AuthenStatus(2);

    /// The name of the user is asked for.
    pub const GETUSER: AuthenStatus = AuthenStatus(4);

    /// The password is asked for.
    pub const GETPASS: AuthenStatus = AuthenStatus(5);

    /// The server can't tell.
    pub const ERROR: AuthenStatus = AuthenStatus(7);
}

/// An authentication reply (RFC 8907, section 5.2), of those that this server sends: with no data.
#[derive(Debug, Drop, PartialEq, Eq)]
pub struct AuthenReply {
    pub status: AuthenStatus,
    /// Whether the client is not to show what the user types.
    pub noecho: bool,
    /// The field server_msg.
    pub msg: Message,
}

/// The flag of a reply whose answer is not to be shown.
const NOECHO: u8 = 0x01;

// The spelling, with what the type of a text says of it.
fn spelled(reply: &AuthenReply) -> ArrayVec<u8, 96>
    ensures value { result.items ≡ reply_bytes reply.now }
    ensures short { length reply.now.msg.items ≤ MESSAGE_MAX }
    ensures fits { length result.items ≤ REPLY_MAX }
{
    let msg = reply.msg.as_slice();
    let [high, low] = (msg.len() as u16).to_be_bytes();
    let flags = if reply.noecho { NOECHO } else { 0 };
    let mut body = ArrayVec::new();
    // No data.
    body.try_extend_from_slice(&[reply.status.0, flags, high, low, 0, 0])
        .unwrap();
    body.try_extend_from_slice(msg).unwrap();
    body
}

/// The spelling of a reply with no other flag than NOECHO (RFC 8907, section 5.2). Takes no memory.
pub fn write_reply(reply: &AuthenReply) -> ArrayVec<u8, 96>
    ensures value { result.items ≡ reply_bytes reply.now }
    ensures fits { length result.items ≤ REPLY_MAX }
    // What was written is read again.
    ensures again { reply_of result.items ≡ Ok reply.now }
{
    spelled(reply)
}

// Each fault in its order.
fn read_fields(body: &[u8]) -> Result<AuthenReply, BodyFault>
    ensures { result ≡ reply_of body.now }
{
    if body.len() < 6 {
        return Err(BodyFault::Short);
    }
    let (fixed, fields) = body.split_at(6);
    let msg_len = u16::from_be_bytes([fixed[2], fixed[3]]) as usize;
    let data_len = u16::from_be_bytes([fixed[4], fixed[5]]) as usize;
    if fields.len() != msg_len + data_len {
        return Err(BodyFault::LengthSum);
    }
    if msg_len > MESSAGE_MAX || data_len > 0 {
        return Err(BodyFault::TooLong);
    }
    Ok(AuthenReply {
        status: AuthenStatus(fixed[0]),
        noecho: fixed[1] & NOECHO != 0,
        msg: message_of(fields),
    })
}

/// The reply that a body spells (RFC 8907, section 5.2), with any flags. Takes no memory.
///
/// `Short` where the fixed part isn't whole; `LengthSum` where the lengths don't add up to the
/// body's; `TooLong` for a reply that this server never sends: over 64 bytes of server_msg, or any
/// data.
pub fn read_reply(body: &[u8]) -> Result<AuthenReply, BodyFault>
    ensures exact { result ≡ reply_of body.now }
    // No byte is lost but for the flags other than NOECHO, and none ignored.
    ensures found { IfOk result (λ reply. body.now ≡ bytes_with (slice_index body.now 1) reply) }
    ensures noecho { IfOk result (λ reply. reply.noecho ≡ is_noecho (slice_index body.now 1)) }
    // Each body that spells a reply of this server is read, whatever the flags other than NOECHO.
    ensures only { (flags : ℕ) → (reply : AuthenReply) → length reply.msg.items ≤ MESSAGE_MAX →
        reply.noecho ≡ is_noecho flags → body.now ≡ bytes_with flags reply →
        result ≡ Ok reply }
{
    read_fields(body)
}

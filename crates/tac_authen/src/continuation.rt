//! Answers of the client within an authentication.

ghost use Rattle.std.specs.Prelude.{◌≡◌, ◌<◌, length, IfOk, IsOk, Ok, Err};
ghost use Rattle.basics.specs.Memory.{GivesUnlessMemory};
ghost use Rattle.tac_wire.specs.declared.body.BodyFault.TheVariants.{Memory};
ghost use Rattle.tac_wire.specs.Body.{is_memory};
ghost use Rattle.tac_wire.specs.Flag.{has_flag};
ghost use Rattle.tac_authen.specs.Continue.{continue_bytes, continue_of};

use basics::Bytes;
use std::alloc::Global;
use tac_wire::BodyFault;

/// What the client answers to a question (RFC 8907, section 5.3), as written: no value is refused
/// here.
#[derive(Drop)]
pub struct Continue {
    /// What the user typed.
    pub user_msg: Bytes,
    /// The field data.
    pub extra: Bytes,
    pub flags: u8,
}

impl Continue {
    /// The flag of a client that gives up.
    pub const ABORT: u8 = 0x01;

    /// Whether the client gives up; the other flags don't matter.
    pub fn is_abort(&self) -> bool
        ensures { result ≡ has_flag 0x01 self.now.flags }
    {
        self.flags & Self::ABORT != 0
    }
}

// Each fault in its order.
fn read_fields(alloc: Global, body: &[u8]) -> Result<Continue, BodyFault>
    ensures exact { GivesUnlessMemory is_memory (λ body. body) result (continue_of body.now) }
    ensures memory { result ≡ Err Memory → IsOk (continue_of body.now) }
{
    if body.len() < 5 {
        return Err(BodyFault::Short);
    }
    let (fixed, fields) = body.split_at(5);
    let user_msg_len = u16::from_be_bytes([fixed[0], fixed[1]]) as usize;
    let data_len = u16::from_be_bytes([fixed[2], fixed[3]]) as usize;
    if fields.len() != user_msg_len + data_len {
        return Err(BodyFault::LengthSum);
    }
    let (user_msg, extra) = fields.split_at(user_msg_len);
    Ok(Continue {
        user_msg: Bytes::from_slice(alloc, user_msg)?,
        extra: Bytes::from_slice(alloc, extra)?,
        flags: fixed[4],
    })
}

/// The answer that a body spells (RFC 8907, section 5.3).
///
/// `Short` where the fixed part isn't whole; `LengthSum` where the lengths don't add up to the
/// body's; `Memory` where memory ran out for the fields of a valid body.
pub fn read_continue(alloc: Global, body: &[u8]) -> Result<Continue, BodyFault>
    ensures exact { GivesUnlessMemory is_memory (λ body. body) result (continue_of body.now) }
    // Only a valid body takes memory, so an invalid one is refused in any case.
    ensures memory { result ≡ Err Memory → IsOk (continue_of body.now) }
    // No byte is lost, and none ignored.
    ensures found { IfOk result (λ answer. body.now ≡ continue_bytes answer) }
    // Each body that spells an answer is read, unless memory runs out.
    ensures only { (answer : Continue) → length answer.user_msg < 65536 →
        length answer.extra < 65536 → body.now ≡ continue_bytes answer →
        GivesUnlessMemory is_memory (λ body. body) result (Ok answer) }
{
    read_fields(alloc, body)
}

//! What the readers of bodies share.

ghost use Rattle.std.specs.Prelude.{◌≡◌, ◌↔◌, ◌≤◌, length, sum, Result, Err, IfOk, IsErr};
ghost use Rattle.std.specs.Result.{result_ok};
ghost use Rattle.basics.specs.Memory.{GivesUnlessMemory};
ghost use Rattle.tac_wire.specs.declared.body.BodyFault.{BodyFault as Fault};
ghost use Rattle.tac_wire.specs.declared.body.BodyFault.TheVariants.{Memory};
ghost use Rattle.tac_wire.specs.Body.{is_memory};
ghost use Rattle.tac_wire.specs.Cut.{cut as fields_of, CutLaws};

use arrayvec::ArrayVec;
use basics::{Bytes, Sequence};
use std::alloc::{AllocError, Global};

/// Why a body could not be read.
#[derive(Clone, Copy, Debug, PartialEq, Eq)]
pub enum BodyFault {
    /// The fixed part isn't whole.
    Short,
    /// The lengths of the fields don't add up to the length of the body.
    LengthSum,
    /// Memory ran out for the fields of a valid body.
    Memory,
    /// A reply that this server never sends: over 64 bytes of text, or any data.
    TooLong,
}

impl From<AllocError> for BodyFault {
    ghost from_gives = { λ _ fault. fault ≡ Memory };

    fn from(_error: AllocError) -> BodyFault {
        BodyFault::Memory
    }
}

/// What was read of a body; nothing for an invalid one. The error means that memory ran out.
pub fn well_formed<T>(read: Result<T, BodyFault>) -> Result<Option<T>, AllocError>
    ensures told { (wanted : Result T Fault)
        → GivesUnlessMemory is_memory (λ body. body) read wanted
        → IfOk result (λ body. body ≡ result_ok wanted) }
    ensures err { IsErr result ↔ (read ≡ Err Memory) }
{
    match read {
        Ok(body) => Ok(Some(body)),
        Err(BodyFault::Memory) => Err(AllocError),
        Err(_) => Ok(None),
    }
}

/// How many bytes the field server_msg of a reply has at most.
pub const MESSAGE_MAX: usize = 64;

/// How many bytes the body of a reply of this server has at most that carries no arguments.
pub const REPLY_MAX: usize = 84;

/// The field server_msg of a reply.
pub type Message = ArrayVec<u8, MESSAGE_MAX>;

/// The text as a message.
pub fn message_of(text: &[u8]) -> Message
    requires { length text.now ≤ MESSAGE_MAX }
    ensures { result.items ≡ text.now }
{
    let mut message = ArrayVec::new();
    message.try_extend_from_slice(text).unwrap();
    message
}

/// Copies the fields of these lengths that the bytes begin with, one after another. The lengths
/// add up to no more than there are bytes. The error means that memory ran out.
pub fn cut(alloc: Global, lengths: &[u8], bytes: &[u8]) -> Result<Sequence<Bytes>, AllocError>
    requires { sum lengths.now ≤ length bytes.now }
    ensures { IfOk result (λ fields. fields ≡ fields_of lengths.now bytes.now) }
{
    let mut fields = Sequence::new(alloc);
    let mut rest = bytes;
    for len in lengths {
        let (field, after) = rest.split_at(*len as usize);
        fields.push(Bytes::from_slice(alloc, field)?)?;
        rest = after;
    }
    Ok(fields)
}

/// Does nothing. The clause is true of all cut fields, for callers that don't call [`cut`].
pub fn cut_laws()
    ensures { CutLaws }
{}

//! Reading to the end.

ghost use Rattle.std.specs.Prelude.{◌≡◌, ◌≤◌, ◌<◌, length, take, vec_len, Some};
ghost use Rattle.std.specs.Prelude.{IfOk, IfErr, OnOk, IfSome, MatchOption, IsErrOf};
ghost use Rattle.std.specs.Io.KnownBytes.{Consumes, IsAtEnd, Keeps};
ghost use Rattle.tac_io.specs.FaultText.{fault_text};
ghost use Rattle.tac_io.specs.declared.reading.InputFault.TheVariants.{Memory};

use std::alloc::{AllocError, AllocFailed, Global};
use std::error::Error;
use std::fmt;
use std::io::{ErrorKind, Read};

/// What is read at once.
const CHUNK: usize = 8192;

/// Why an input was not read.
#[derive(Clone, Copy, Debug, PartialEq, Eq)]
pub enum InputFault {
    /// The reader failed.
    Failed,
    /// The input is longer than the bound.
    TooLong,
    /// Memory ran out.
    Memory,
}

impl fmt::Display for InputFault {
    ghost output = { λ fault. Some (fault_text fault) };

    fn fmt<W: fmt::Write>(&self, f: &mut fmt::Formatter<W>) -> fmt::Result {
        match self {
            InputFault::Failed => write!(f, "the input could not be read"),
            InputFault::TooLong => write!(f, "the input is too long"),
            InputFault::Memory => write!(f, "memory ran out"),
        }
    }
}

impl Error for InputFault {}

impl From<AllocError> for InputFault {
    ghost from_gives = { λ _ fault. fault ≡ Memory };

    fn from(_error: AllocError) -> InputFault {
        InputFault::Memory
    }
}

impl<T: Drop> From<AllocFailed<T>> for InputFault {
    ghost from_gives = { λ _ fault. fault ≡ Memory };

    fn from(_error: AllocFailed<T>) -> InputFault {
        InputFault::Memory
    }
}

/// Reads once into the chunk, and answers how many bytes came: none at the end, and nothing where
/// the read was interrupted. The only fault is Failed, at which nothing was read.
pub fn read_piece<R: Read>(reader: &mut R, chunk: &mut [u8]) -> Result<Option<usize>, InputFault>
    // Of a chunk without room no read would tell the end.
    requires { 0 < length chunk.old }
    ensures bound { IfOk result (λ piece. IfSome piece (λ n. n ≤ length chunk.new)) }
    ensures bytes { IfOk result (λ piece. MatchOption piece
        (Keeps (R.remaining reader.old) (R.remaining reader.new))
        (λ n. Consumes (R.remaining reader.old) (R.remaining reader.new) (take n chunk.new)
        × (n ≡ 0 → IsAtEnd (R.remaining reader.new)))) }
    ensures fault { IfErr result (λ fault. (fault ≡ InputFault.Failed)
        × Keeps (R.remaining reader.old) (R.remaining reader.new)) }
    ensures len { length chunk.new ≡ length chunk.old }
{
    match reader.read(chunk) {
        Ok(n) => Ok(Some(n)),
        Err(e) => {
            if e.kind() == ErrorKind::Interrupted {
                return Ok(None);
            }
            Err(InputFault::Failed)
        }
    }
}

/// All bytes that the reader gives, if they are at most so many. An interrupted read is tried
/// again. At a fault some bytes may have been read: no more than a read above the bound.
pub fn read_whole<R: Read>(
    alloc: Global,
    reader: &mut R,
    bound: usize,
) -> Result<Vec<u8>, InputFault>
    ensures bytes { IfOk result (λ input.
        Consumes (R.remaining reader.old) (R.remaining reader.new) input.items) }
    ensures end { OnOk result (IsAtEnd (R.remaining reader.new)) }
    ensures bound { IfOk result (λ input. vec_len input ≤ bound) }

    // An input that is refused as too long is.
    ensures too_long { IsErrOf result InputFault.TooLong →
        IfSome (R.remaining reader.old) (λ input. bound < length input) }
{
    let mut input = Vec::new(alloc);
    let mut chunk = [0; CHUNK];
    'reads: for _ in 0..u64::MAX {
        let Some(n) = read_piece(reader, &mut chunk)? else {
            continue;
        };
        if n == 0 {
            return Ok(input);
        }
        if n > bound - input.len() {
            return Err(InputFault::TooLong);
        }
        input.extend_from_slice(&chunk[..n])?;
    }
    Err(InputFault::Failed)
}

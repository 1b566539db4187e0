//! Reading what comes on a connection.

ghost use Rattle.tac_worker.specs.Working.{Heard, Noted};

use crate::end::End;
use crate::notes::Pieces;
use std::io::Read;
use tac_io::read_piece;
use tac_stream::Stream;

/// How many bytes are read at once.
pub const CHUNK: usize = 4096;

/// What a read reads into.
pub type Chunk = [u8; CHUNK];

/// Reads once, hands on what came, and notes it. An interrupted read is tried at the next turn.
pub(crate) fn hear<R: Read>(
    reader: &mut R,
    chunk: &mut Chunk,
    stream: &mut Stream,
    pieces: &mut Pieces,
) -> Result<(), End>
    ensures heard { Heard result (R.remaining reader.old) (R.remaining reader.new)
        stream.old stream.new }
    ensures noted { Noted result (R.remaining reader.old) (R.remaining reader.new)
        pieces.old pieces.new stream.old stream.new }
{
    let n = match read_piece(reader, chunk) {
        Ok(Some(n)) => n,
        Ok(None) => return Ok(()),
        Err(_) => return Err(End::ReadFault),
    };
    pieces.add(chunk, n);
    if n == 0 {
        return Err(End::Finished);
    }
    stream.feed(&chunk[..n])?;
    Ok(())
}

//! A line of an operator, as it comes.

ghost use Rattle.std.specs.Prelude.{◌≡◌, OnOk, OnErr};
ghost use Rattle.tac_operators.specs.Begun as begun;

use basics::Bytes;
use std::alloc::{AllocError, Global};
use std::mem;

/// The most bytes of a line, without its LF.
const LONGEST: usize = 131_072;

/// What has come of a line. Nothing is kept of one that is too long.
#[derive(Drop)]
pub(crate) struct Begun {
    text: Bytes,
    is_long: bool,
}

impl Begun {
    /// That of a line of which nothing has come.
    pub(crate) fn new(alloc: Global) -> Begun
        ensures { result ≡ begun.nothing }
    {
        Begun {
            text: Bytes::new(alloc),
            is_long: false,
        }
    }

    /// More of the line has come.
    pub(crate) fn add(&mut self, alloc: Global, piece: &[u8]) -> Result<(), AllocError>
        ensures ok { OnOk result (self.new ≡ begun.added self.old piece.now) }
        ensures err { OnErr result (self.new ≡ self.old) }
    {
        if self.is_long {
            return Ok(());
        }
        if piece.len() > LONGEST.saturating_sub(self.text.len()) {
            self.text = Bytes::new(alloc);
            self.is_long = true;
            return Ok(());
        }
        self.text.extend_from_slice(piece)
    }

    /// The whole line, unless it is too long. The next one begins.
    pub(crate) fn take(&mut self, alloc: Global) -> Option<Bytes>
        ensures line { result ≡ begun.line self.old }
        ensures next { self.new ≡ begun.nothing }
    {
        let text = mem::replace(&mut self.text, Bytes::new(alloc));
        if mem::replace(&mut self.is_long, false) {
            return None;
        }
        Some(text)
    }
}

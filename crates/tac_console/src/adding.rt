//! Adding a text that is made first, so that nothing is added of one that can't be made.

ghost use Rattle.std.specs.Prelude.{◌≡◌, ◌++◌, IsOkAnd, IfOk, IfSome, OnOk, OnErr};
ghost use Rattle.tac_console.specs.Answers as answers;

use std::alloc::{AllocError, Global};
use std::fmt::Display;
use std::io;
use std::io::Write;

/// Adds the text, if it was made.
pub(crate) fn add(out: &mut Vec<u8>, text: io::Result<Vec<u8>>) -> Result<(), AllocError>
    ensures ok { OnOk result (IsOkAnd text (λ text. out.new.items ≡ out.old.items ++ text.items)) }
    ensures err { OnErr result (out.new.items ≡ out.old.items) }
{
    match text {
        Ok(text) => out.extend_from_slice(text.as_slice()),
        Err(_) => Err(AllocError),
    }
}

/// The line that says why something is refused.
pub(crate) fn refused<F: Display>(alloc: Global, fault: &F) -> io::Result<Vec<u8>>
    ensures { IfOk result (λ text. IfSome (F.output fault.now)
        (λ shown. text.items ≡ answers.refused shown)) }
{
    let mut text = Vec::new(alloc);
    writeln!(text, "refused {fault}")?;
    Ok(text)
}

//! The new source of a pattern of version 1.

ghost use Rattle.std.specs.Prelude.{◌≡◌, IfOk};
ghost use Rattle.pol_pattern.specs.Upgrading.{in_class_after as class_goes_on};
ghost use Rattle.pol_pattern.specs.Upgrading.{quoted_after as quotes_next};
ghost use Rattle.pol_pattern.specs.Upgrading.{needs_mark as wants_mark};
ghost use Rattle.pol_pattern.specs.Upgrading.{upgraded as upgraded_bytes};

use basics::Bytes;
use std::alloc::{AllocError, Global};

/// Whether what follows the byte stands in a class.
fn in_class_after(in_class: bool, quoted: bool, byte: u8) -> bool
    ensures { result ≡ class_goes_on in_class quoted byte }
{
    if quoted {
        return in_class;
    }
    byte == b'[' || in_class && byte != b']'
}

/// Whether the byte is a `\` that quotes what follows.
fn quoted_after(quoted: bool, byte: u8) -> bool
    ensures { result ≡ quotes_next quoted byte }
{
    !quoted && byte == b'\\'
}

/// Whether the byte is a brace that represents itself by version 1 alone.
fn needs_mark(in_class: bool, quoted: bool, byte: u8) -> bool
    ensures { result ≡ wants_mark in_class quoted byte }
{
    if in_class || quoted {
        return false;
    }
    byte == b'{' || byte == b'}'
}

/// The bytes with a `\` before each brace that represents itself by version 1 alone.
pub(crate) fn upgraded(alloc: Global, bytes: &[u8]) -> Result<Bytes, AllocError>
    ensures { IfOk result (λ source. source ≡ upgraded_bytes bytes.now) }
{
    let mut source = Bytes::new(alloc);
    let mut in_class = false;
    let mut quoted = false;
    'bytes: for byte in bytes {
        if needs_mark(in_class, quoted, *byte) {
            source.push(b'\\')?;
        }
        source.push(*byte)?;
        in_class = in_class_after(in_class, quoted, *byte);
        quoted = quoted_after(quoted, *byte);
    }
    Ok(source)
}

//! Bytes that are no symbols.

ghost use Rattle.std.specs.Prelude.{◌≡◌, IfSome};
ghost use Rattle.tac_devices_lint.specs.Odd as odd;
ghost use Rattle.tac_devices_lint.specs.Places.{InLine};

use crate::finding::Finding;
use crate::remark::{Found, Remark, placed};
use basics::is_symbol;
use std::fmt;

/// A byte that is no symbol, by what was probably done.
#[derive(Clone, Copy)]
pub enum OddByte {
    /// Lines end in CR LF.
    CarriageReturn,
    /// A tab.
    Tab,
    /// The file begins with a byte order mark.
    ByteOrderMark,
    /// Another one.
    Other,
}

impl fmt::Display for OddByte {
    fn fmt<W: fmt::Write>(&self, f: &mut fmt::Formatter<W>) -> fmt::Result {
        f.write_str(match self {
            OddByte::CarriageReturn => "a carriage return: lines end in LF alone",
            OddByte::Tab => "a tab: is a space meant?",
            OddByte::ByteOrderMark => "a byte order mark: save the file without one",
            OddByte::Other => "a byte that isn't printable ASCII",
        })
    }
}

// The line from its first byte on that is no symbol.
fn from_odd(line: &[u8]) -> &[u8]
    ensures { result.now ≡ odd.from_odd line.now }
{
    let mut rest = line;
    while let [byte, after @ ..] = rest {
        if !is_symbol(*byte) {
            return rest;
        }
        rest = after;
    }
    rest
}

fn odd_byte(number: usize, line: &[u8], byte: u8) -> OddByte
    ensures { result ≡ odd.odd_byte number line.now byte }
{
    if byte == b'\r' {
        return OddByte::CarriageReturn;
    }
    if byte == b'\t' {
        return OddByte::Tab;
    }
    if number == 1 && line.starts_with(b"\xEF\xBB\xBF") {
        return OddByte::ByteOrderMark;
    }
    OddByte::Other
}

/// The first byte of the line of this number that is no symbol.
pub(crate) fn odd_finding(number: usize, line: &[u8]) -> Option<Found>
    ensures { IfSome result (λ found. InLine line.now found.column) }
{
    let rest = from_odd(line);
    match rest {
        [byte, ..] => {
            let byte = odd_byte(number, line, *byte);
            Some(placed(line, rest, Finding::Odd(byte)))
        }
        [] => None,
    }
}

/// The first byte that keeps the first line of a key's file from being a key, if one does.
pub fn key_remark(line: &[u8]) -> Option<Remark>
    ensures { IfSome result (λ remark. (remark.line ≡ 1) × InLine line.now remark.column) }
{
    match odd_finding(1, line) {
        Some(found) => Some(Remark {
            line: 1,
            column: found.column,
            finding: found.finding,
        }),
        None => None,
    }
}

//! How tests write packets: in hexadecimal digits, with dots between them where these help to read
//! them, and with texts in single quotes, which represent their bytes. So a login goes on by
//! `c0010304.00000001.0000000b.0006000000'secret'`.
#![tactic(auto)]

use hex::FromHexError;
use std::alloc::{AllocError, Global};
use std::fmt::Write;
use tac_wire::{HEADER_SIZE, Header, Key, pad_in_place};

// Adds what stands out of quotes, without its dots.
fn push_plain(out: &mut String, part: &str) -> Result<(), AllocError> {
    for run in part.split('.') {
        out.push_str(run)?;
    }
    Ok(())
}

// Adds the digits of what stands in quotes.
fn push_quoted(out: &mut String, part: &str) -> Result<(), AllocError> {
    for byte in part.bytes() {
        write!(out, "{byte:02x}")?;
    }
    Ok(())
}

/// Adds a text with the digits of what it has in quotes, and without its dots. All else of it, such
/// as words before a packet, is added as it stands.
pub fn push_digits(out: &mut String, text: &str) -> Result<(), AllocError> {
    for (at, part) in text.split('\'').enumerate() {
        if at % 2 == 0 {
            push_plain(out, part)?;
        } else {
            push_quoted(out, part)?;
        }
    }
    Ok(())
}

/// The bytes that a text in this notation represents.
pub fn bytes(alloc: Global, text: &str) -> Result<Vec<u8>, FromHexError> {
    let mut digits = String::new(alloc);
    push_digits(&mut digits, text)?;
    hex::decode(alloc, digits.as_bytes())
}

/// The same, with the pad of RFC 8907, section 4.5 put on all after the header of 12 bytes. Where
/// there isn't a whole header nothing is padded.
pub fn packet(alloc: Global, key: &Key, text: &str) -> Result<Vec<u8>, FromHexError> {
    let mut bytes = bytes(alloc, text)?;
    if let Some((header, body)) = bytes.split_first_chunk_mut::<HEADER_SIZE>() {
        pad_in_place(&Header::read(header), key, body);
    }
    Ok(bytes)
}

//! Arguments of replies, as they lie in a body and in a list.

use basics::{Bytes, Sequence};
use std::alloc::{AllocError, Global};
use std::test::Fail;

// Adds the arguments of these lengths that lie one after another.
fn push_cut(
    alloc: Global,
    args: &mut Sequence<Bytes>,
    lengths: &[u8],
    joined: &[u8],
) -> Result<(), Fail> {
    let mut rest = joined;
    for length in lengths {
        let (argument, others) = rest
            .split_at_checked(usize::from(*length))
            .ok_or("no argument")?;
        args.push(Bytes::from_slice(alloc, argument)?)?;
        rest = others;
    }
    Ok(())
}

/// The arguments that the body of an authorisation reply has (RFC 8907, section 6.2).
pub(crate) fn arguments_in(alloc: Global, body: &[u8]) -> Result<Sequence<Bytes>, Fail> {
    let [_, count, high, low, _, _, rest @ ..] = body else {
        return Err(Fail::from("no reply"));
    };
    let (lengths, fields) = rest
        .split_at_checked(usize::from(*count))
        .ok_or("no lengths")?;
    let text = usize::from(u16::from_be_bytes([*high, *low]));
    let (_, joined) = fields.split_at_checked(text).ok_or("no text")?;
    let mut args = Sequence::new(alloc);
    push_cut(alloc, &mut args, lengths, joined)?;
    Ok(args)
}

/// Adds a text so often.
pub(crate) fn push_times(text: &mut String, piece: &str, times: u32) -> Result<(), AllocError> {
    for _ in 0..times {
        text.push_str(piece)?;
    }
    Ok(())
}

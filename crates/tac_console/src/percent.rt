//! Percent form: any bytes as a field of a line.

ghost use Rattle.std.specs.Prelude.{◌≡◌, ◌<◌, ◌++◌, true, OnOk};
ghost use Rattle.std.specs.Fmt.{digit_glyph};
ghost use Rattle.tac_console.specs.Percent.{is_plain as plain_test, shown_byte, percent_form};

use std::alloc::AllocError;

// Whether the byte represents itself.
fn is_plain(byte: u8) -> bool
    ensures { result ≡ plain_test byte }
{
    matches!(byte, b'!'..=b'~') && byte != b'%'
}

fn hex_digit(value: u8) -> u8
    requires { value < 16 }
    ensures { result ≡ digit_glyph true value }
{
    if value < 10 {
        b'0' + value
    } else {
        b'A' + (value - 10)
    }
}

fn write_byte(out: &mut Vec<u8>, byte: u8) -> Result<(), AllocError>
    ensures { OnOk result (out.new.items ≡ out.old.items ++ shown_byte byte) }
{
    if is_plain(byte) {
        out.push(byte)?;
        return Ok(());
    }
    let shown = [b'%', hex_digit(byte / 16), hex_digit(byte % 16)];
    out.extend_from_slice(&shown)
}

/// Adds the bytes in percent form: no blank and no line end is among them.
pub(crate) fn write_percent(out: &mut Vec<u8>, text: &[u8]) -> Result<(), AllocError>
    ensures { OnOk result (out.new.items ≡ out.old.items ++ percent_form text.now) }
{
    if text.is_empty() {
        out.push(b'%')?;
        return Ok(());
    }
    'bytes: for byte in text {
        write_byte(out, *byte)?;
    }
    Ok(())
}

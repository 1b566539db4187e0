//! The symbols that names, secrets, patterns and command lines are made of.

ghost use Rattle.std.specs.Prelude.{◌≡◌, ◌↔◌, ◌≤◌, IsTrue};
ghost use Rattle.basics.specs.Symbol.{is_symbol as symbol_test, is_text as text_test};

/// Whether the byte is a symbol: printable ASCII with the space, 0x20 to 0x7E.
pub fn is_symbol(byte: u8) -> bool
    ensures { result ≡ symbol_test byte }
{
    matches!(byte, b' '..=b'~')
}

// How many bytes are looked at at once.
const BLOCK: usize = 16;

// How far a byte lies after the first symbol, in a circle of 256.
fn distance(byte: u8) -> u8
    ensures { IsTrue (symbol_test byte) ↔ (result ≤ 94) }
{
    byte.wrapping_sub(b' ')
}

// Whether every byte is a symbol, judged by the one that lies furthest after the first.
fn are_symbols(bytes: &[u8]) -> bool
    ensures { result ≡ text_test bytes.now }
{
    let mut furthest = 0;
    for byte in bytes {
        furthest = furthest.max(distance(*byte));
    }
    furthest <= b'~' - b' '
}

/// Whether every byte is a symbol. Linear, a block at a time.
pub fn is_text(bytes: &[u8]) -> bool
    ensures { result ≡ text_test bytes.now }
{
    let Some(last) = bytes.last_chunk::<BLOCK>() else {
        return are_symbols(bytes);
    };
    let mut start = 0;
    'rest: while start + BLOCK < bytes.len() {
        if !are_symbols(&bytes[start..start + BLOCK]) {
            return false;
        }
        start += BLOCK;
    }
    // the last block may begin within the block before
    are_symbols(last)
}

//! Numbers in decimal digits.

ghost use Rattle.std.specs.Prelude.{◌≡◌, ◌<◌, ◌≤◌, ◌^◌, ℕ, length, Some};
ghost use Rattle.std.specs.Fmt.{decimal};
ghost use Rattle.basics.specs.Number.{number_of};

// Digit by digit.
fn read_digits(text: &[u8], most: usize) -> Option<u32>
    requires { most ≤ 9 }
    ensures { result ≡ number_of most text.now }
{
    if text.is_empty() || text.len() > most {
        return None;
    }
    let mut value = 0u32;
    'digits: for byte in text {
        if !byte.is_ascii_digit() {
            return None;
        }
        value = value * 10 + u32::from(*byte - b'0');
    }
    Some(value)
}

/// The number that 1 to `most` digits spell, also with leading zeros; None for any other text.
pub fn read_number(text: &[u8], most: usize) -> Option<u32>
    requires { most ≤ 9 }
    ensures value { result ≡ number_of most text.now }
    // A number that was printed is read as itself, if it has at most so many digits.
    ensures printed { (n : ℕ) → n < 2 ^ 32 → length (decimal n) ≤ most → text.now ≡ decimal n →
        result ≡ Some n }
{
    read_digits(text, most)
}

//! Connection numbers.

ghost use Rattle.std.specs.Prelude.{◌≡◌};
ghost use Rattle.tac_server.specs.Number.{connection_number_of};

use basics::read_number;

/// The number that 1 to 5 digits spell, if it is at most 65,535.
pub(crate) fn connection_number(text: &[u8]) -> Option<u16>
    ensures { result ≡ connection_number_of text.now }
{
    let number = read_number(text, 5)?;
    u16::try_from(number).ok()
}

//! What a client types within an authentication.

ghost use Rattle.std.specs.Prelude.{◌≡◌};
ghost use Rattle.tac_ask.specs.Turn as turns;

use tac_authen::AuthenStatus;

/// What is typed.
#[derive(Clone, Copy, Debug, PartialEq, Eq)]
pub(crate) enum Typing {
    /// The user's name.
    Name,
    Password,
}

/// What is typed where a server replies so, if anything is: the name and the password, each once.
pub(crate) fn typing_for(status: u8, has_named: bool, has_typed: bool) -> Option<Typing>
    ensures { result ≡ turns.typing_for status has_named has_typed }
{
    if status == AuthenStatus::GETUSER.0 && !has_named {
        Some(Typing::Name)
    } else if status == AuthenStatus::GETPASS.0 && !has_typed {
        Some(Typing::Password)
    } else {
        None
    }
}

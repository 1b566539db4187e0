//! What a status is called.

ghost use Rattle.std.specs.Prelude.{◌≡◌};
ghost use Rattle.std.specs.Option.{option_copied};
ghost use Rattle.tac_ask.specs.Status as statuses;

use tac_wire::PacketType;

fn authen_name(status: u8) -> Option<&'static str>
    ensures { option_copied result ≡ statuses.authen_name status }
{
    match status {
        0x01 => Some("PASS"),
        0x02 => Some("FAIL"),
        0x03 => Some("GETDATA"),
        0x04 => Some("GETUSER"),
        0x05 => Some("GETPASS"),
        0x06 => Some("RESTART"),
        0x07 => Some("ERROR"),
        0x21 => Some("FOLLOW"),
        _ => None,
    }
}

fn author_name(status: u8) -> Option<&'static str>
    ensures { option_copied result ≡ statuses.author_name status }
{
    match status {
        0x01 => Some("PASS_ADD"),
        0x02 => Some("PASS_REPL"),
        0x10 => Some("FAIL"),
        0x11 => Some("ERROR"),
        0x21 => Some("FOLLOW"),
        _ => None,
    }
}

fn acct_name(status: u8) -> Option<&'static str>
    ensures { option_copied result ≡ statuses.acct_name status }
{
    match status {
        0x01 => Some("SUCCESS"),
        0x02 => Some("ERROR"),
        0x21 => Some("FOLLOW"),
        _ => None,
    }
}

/// The standard's name of a status, in replies of this type (RFC 8907, sections 5.2, 6.2 and 7.2),
/// without what such names begin with.
pub fn status_name(kind: PacketType, status: u8) -> Option<&'static str>
    ensures { option_copied result ≡ statuses.status_name kind.0 status }
{
    if kind == PacketType::AUTHENTICATION {
        authen_name(status)
    } else if kind == PacketType::AUTHORISATION {
        author_name(status)
    } else if kind == PacketType::ACCOUNTING {
        acct_name(status)
    } else {
        None
    }
}

/// Whether a reply of this type with this status grants what was asked for.
pub fn is_granted(kind: PacketType, status: u8) -> bool
    ensures { result ≡ statuses.is_granted kind.0 status }
{
    status == 0x01 || (kind == PacketType::AUTHORISATION && status == 0x02)
}

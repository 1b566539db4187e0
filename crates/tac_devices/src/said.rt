//! What one line of a devices' file says.

ghost use Rattle.std.specs.Prelude.{◌≡◌, ◌&&◌, codes, false, bytes_eq};
ghost use Rattle.tac_devices.specs.Line as lines;
ghost use Rattle.tac_devices.specs.Tls as certificates;

use crate::device::Tls;
use crate::prefix::Prefix;
use basics::{is_text, read_number, split_once, without_leading_spaces};
use pol_names::Name;
use tac_proxy::CommonName;
use tac_wire::Key;

/// The most connections of an address that a line may allow.
const MAX_CONNECTIONS: u32 = 10_000;

/// What a line says. Where its field isn't what it should be, there is none.
#[derive(Drop)]
pub(crate) enum Said {
    /// It is empty, or a comment.
    Nothing,
    /// It isn't a line of a devices' file.
    Bad,
    /// A device of this name begins.
    Device(Option<Name>),
    /// The present device has these addresses.
    At(Option<Prefix>),
    /// The present device has this key.
    Key(Option<Key>),
    /// The present device had this key before, and may still come by it.
    OldKey(Option<Key>),
    /// The present device may come inside TLS, with these certificates.
    Tls(Option<Tls>),
    /// Each address of the present device may have so many connections.
    Connections(Option<u32>),
}

fn is_field(text: &[u8]) -> bool
    ensures { result ≡ lines.is_field text.now }
{
    split_once(text, b' ').is_none()
}

fn connections_of(text: &[u8]) -> Option<u32>
    ensures { result ≡ lines.connections_of text.now }
{
    match read_number(text, 5) {
        Some(n) if 1 <= n && n <= MAX_CONNECTIONS => Some(n),
        _ => None,
    }
}

// The certificates of the common name that a text spells.
fn tls_of(text: &[u8]) -> Option<Tls>
    ensures { result ≡ certificates.tls_of text.now }
{
    CommonName::read(text).map(Tls::Named)
}

// What a line says that begins with another word than `at`.
#[tactic(auto, unfolding(crate::specs::Line::said_by))]
fn said_by(word: &[u8], rest: &[u8]) -> Said
    ensures { result ≡ lines.said_by word.now rest.now }
{
    if word == b"device".as_slice() {
        return if is_field(rest) {
            Said::Device(Name::read(rest))
        } else {
            Said::Bad
        };
    }
    if word == b"key".as_slice() {
        return Said::Key(Key::read(rest));
    }
    if word == b"old-key".as_slice() {
        return Said::OldKey(Key::read(rest));
    }
    if word == b"tls".as_slice() {
        return Said::Tls(tls_of(rest));
    }
    if word == b"connections".as_slice() {
        return if is_field(rest) {
            Said::Connections(connections_of(rest))
        } else {
            Said::Bad
        };
    }
    Said::Bad
}

// What a line says by its first word, and what follows it and a space.
fn say(word: &[u8], rest: &[u8]) -> Said
    ensures { lines.SaysWords word.now rest.now result }
{
    if word == b"at".as_slice() && is_field(rest) {
        return Said::At(Prefix::read(rest));
    }
    said_by(word, rest)
}

// What a line says that is one word.
fn say_alone(word: &[u8]) -> Said
    ensures { result ≡ lines.said_alone word.now }
{
    if word == b"tls".as_slice() {
        return Said::Tls(Some(Tls::Any));
    }
    Said::Bad
}

// What a line without leading spaces says.
fn say_trimmed(line: &[u8]) -> Said
    ensures { lines.SaysTrimmed line.now result }
{
    if let [] | [b'#', ..] = line {
        return Said::Nothing;
    }
    match split_once(line, b' ') {
        Some((word, rest)) => say(word, rest),
        None => say_alone(line),
    }
}

impl Said {
    /// What a line says.
    pub(crate) fn read(line: &[u8]) -> Said
        ensures { lines.Says line.now result }
    {
        if !is_text(line) {
            return Said::Bad;
        }
        say_trimmed(without_leading_spaces(line))
    }
}

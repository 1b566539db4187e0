//! Version 1 of the header: a line.

ghost use Rattle.std.specs.Prelude.{◌≡◌, ◌↔◌, ◌≤◌, ◌+◌, ℕ, length, IsTrue, IfSome, IfNone};
ghost use Rattle.std.specs.Option.{option_map};
ghost use Rattle.std.specs.declared.net.socket_addr.SocketAddr.{SocketAddr as SocketValue};
ghost use Rattle.tac_proxy.specs.Line as line_specs;
ghost use Rattle.tac_proxy.specs.Words as line_words;
ghost use Rattle.tac_proxy.specs.declared.told.Source.{Source as SourceValue};

use crate::front::agrees;
use crate::told::{Certificate, Header, Proxy, Source};
use basics::{read_number, split_once};
use std::net::{IpAddr, SocketAddr};

// How many bytes a line has at most, with its CR LF.
const LINE_MAX: usize = 107;

// The words of a line that tells a caller.
#[derive(Clone, Copy)]
struct Words<'a> {
    protocol: &'a [u8],
    family: &'a [u8],
    source: &'a [u8],
    target: &'a [u8],
    source_port: &'a [u8],
    target_port: &'a [u8],
}

// The place of the first CR LF.
fn find_end(bytes: &[u8]) -> Option<usize>
    ensures found { IfSome result (line_specs.EndsAt bytes.now) }
    ensures within { IfSome result (λ at. at + 2 ≤ length bytes.now) }
    ensures none { IfNone result ((at : ℕ) → ¬ (line_specs.HasEnd bytes.now at)) }
{
    'places: for at in 0..bytes.len().saturating_sub(1) {
        if bytes[at] == b'\r' && bytes[at + 1] == b'\n' {
            return Some(at);
        }
    }
    None
}

fn six_words(line: &[u8]) -> Option<Words<'_>>
    ensures { option_map line_words.seen result ≡ line_words.six_words line.now }
{
    let (protocol, rest) = split_once(line, b' ')?;
    let (family, rest) = split_once(rest, b' ')?;
    let (source, rest) = split_once(rest, b' ')?;
    let (target, rest) = split_once(rest, b' ')?;
    let (source_port, target_port) = split_once(rest, b' ')?;
    Some(Words {
        protocol,
        family,
        source,
        target,
        source_port,
        target_port,
    })
}

// The word for TCP over the family of an address.
fn family_word(ip: &IpAddr) -> &'static [u8]
    ensures { result.now ≡ line_specs.family_word ip.now }
{
    match ip {
        IpAddr::V4(_) => b"TCP4",
        IpAddr::V6(_) => b"TCP6",
    }
}

// Whether there is a zero in front of other digits.
fn is_padded(digits: &[u8]) -> bool
    ensures { result ≡ line_words.is_padded digits.now }
{
    digits.len() > 1 && digits[0] == b'0'
}

// A decimal number of 16 bits without leading zeros.
fn read_port(digits: &[u8]) -> Option<u16>
    ensures found { IfSome result (line_specs.IsPort digits.now) }
    ensures none { IfNone result ((port : ℕ) → ¬ (line_specs.IsPort digits.now port)) }
{
    if is_padded(digits) {
        return None;
    }
    let Some(port) = read_number(digits, 5) else {
        return None;
    };
    if port > 0xFFFF {
        return None;
    }
    Some(port as u16)
}

// The caller that the words tell, if they tell one.
fn caller_of(words: &Words<'_>) -> Option<SocketAddr>
    ensures found { IfSome result (line_words.WordsTell (line_words.seen words.now)) }
    ensures none { IfNone result ((caller : SocketValue) →
        ¬ (line_words.WordsTell (line_words.seen words.now) caller)) }
{
    if words.protocol != b"PROXY".as_slice() {
        return None;
    }
    let Ok(source) = IpAddr::parse_ascii(words.source) else {
        return None;
    };
    let Ok(target) = IpAddr::parse_ascii(words.target) else {
        return None;
    };
    if words.family != family_word(&source) {
        return None;
    }
    if words.family != family_word(&target) {
        return None;
    }
    let Some(port) = read_port(words.source_port) else {
        return None;
    };
    let Some(_) = read_port(words.target_port) else {
        return None;
    };
    Some(SocketAddr::new(source, port))
}

// The caller that a line tells, if it tells one.
fn read_caller(line: &[u8]) -> Option<SocketAddr>
    ensures found { IfSome result (line_specs.TellsCaller line.now) }
    ensures none { IfNone result ((caller : SocketValue) →
        ¬ (line_specs.TellsCaller line.now caller)) }
{
    let Some(words) = six_words(line) else {
        return None;
    };
    caller_of(&words)
}

// Whether a line says that nothing is known of the caller.
fn is_unknown(line: &[u8]) -> bool
    ensures { IsTrue result ↔ line_specs.TellsNone line.now }
{
    let Some(rest) = line.strip_prefix(b"PROXY UNKNOWN".as_slice()) else {
        return false;
    };
    let [first, ..] = rest else {
        return true;
    };
    *first == b' '
}

// What a line tells, if it tells anything.
fn told_by(line: &[u8]) -> Option<Source>
    ensures found { IfSome result (line_specs.Tells line.now) }
    ensures none { IfNone result ((source : SourceValue) →
        ¬ (line_specs.Tells line.now source)) }
{
    if is_unknown(line) {
        return Some(Source::Unknown);
    }
    match read_caller(line) {
        Some(caller) => Some(Source::Caller(caller)),
        None => None,
    }
}

// Whether the bytes may be the beginning of a line.
fn is_begun(bytes: &[u8]) -> bool
    ensures { result ≡ line_specs.is_begun bytes.now }
{
    agrees(b"PROXY TCP4 ", bytes)
        || agrees(b"PROXY TCP6 ", bytes)
        || agrees(b"PROXY UNKNOWN", bytes)
}

// What the bytes begin with, if it is a line.
pub(crate) fn read_line(bytes: &[u8]) -> Proxy
    ensures { line_specs.ReadsLine bytes.now result }
{
    let Some(size) = find_end(bytes) else {
        if bytes.len() < LINE_MAX && is_begun(bytes) {
            return Proxy::Need;
        }
        return Proxy::Fault;
    };
    if size + 2 > LINE_MAX {
        return Proxy::Fault;
    }
    match told_by(&bytes[..size]) {
        Some(source) => Proxy::Found(Header {
            source,
            certificate: Certificate::NotTold,
            used: size + 2,
        }),
        None => Proxy::Fault,
    }
}

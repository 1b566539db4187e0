//! Version 2 of the header: sixteen bytes, and as many more as they say.

ghost use Rattle.std.specs.Prelude.{◌≡◌, ◌≤◌, ◌+◌, ◌*◌, ◌||◌, nat_lt, length};
ghost use Rattle.std.specs.Option.{option_copied};
ghost use Rattle.tac_proxy.specs.Binary as binary;
ghost use Rattle.tac_proxy.specs.Certificate as certificates;
ghost use Rattle.tac_proxy.specs.Name as names;
ghost use Rattle.tac_proxy.specs.declared.binary.Transport.TheVariants.{Tcp4, Tcp6};
ghost use Rattle.tac_proxy.specs.declared.told.Source.TheVariants.{Caller};

use crate::name::CommonName;
use crate::told::{Certificate, Header, Proxy, Source};
use crate::vectors::first_value;
use std::net::{Ipv4Addr, Ipv6Addr, SocketAddr, SocketAddrV4, SocketAddrV6};

// The twelve bytes that each header begins with.
pub(crate) const SIGNATURE: [u8; 12] = *b"\r\n\r\n\0\r\nQUIT\n";

// How many bytes the fixed part has, and how many may follow it.
const FIXED: usize = 16;

const MOST: usize = 520;

// Version 2 in the high four bits, and the command in the low four.
const LOCAL: u8 = 0x20;

const PROXY: u8 = 0x21;

// The family in the high four bits, and the protocol in the low four.
const TCP_OVER_IPV4: u8 = 0x11;

const TCP_OVER_IPV6: u8 = 0x21;

// The type of the vector about TLS, and of the one in it that has the common name.
const TYPE_SSL: u8 = 0x20;

const SUBTYPE_SSL_CN: u8 = 0x22;

// The flags of a client that came by TLS, and that showed a certificate: on this connection, or
// before on another one of the same session.
const CLIENT_SSL: u8 = 0x01;

const CLIENT_CERT_CONN: u8 = 0x02;

const CLIENT_CERT_SESS: u8 = 0x04;

// What a header says that it was carried over.
#[derive(Clone, Copy)]
pub(crate) enum Transport {
    // None: the proxy calls on its own.
    Local,
    // TCP over IPv4.
    Tcp4,
    // TCP over IPv6.
    Tcp6,
    // Another, which tells of no caller.
    Other,
}

fn is_command(command: u8) -> bool
    ensures { result ≡ binary.is_command command }
{
    command == LOCAL || command == PROXY
}

fn is_kind(command: u8, kind: u8) -> bool
    ensures { result ≡ binary.is_kind command kind }
{
    command == LOCAL || (kind / 16 <= 3 && kind % 16 <= 2)
}

fn transport_of(command: u8, kind: u8) -> Transport
    ensures { result ≡ binary.transport_of command kind }
{
    if command != PROXY {
        return Transport::Local;
    }
    match kind {
        TCP_OVER_IPV4 => Transport::Tcp4,
        TCP_OVER_IPV6 => Transport::Tcp6,
        _ => Transport::Other,
    }
}

// How many bytes the addresses and ports take.
fn addresses_size(transport: Transport) -> usize
    ensures { result ≡ binary.addresses_size transport }
{
    match transport {
        Transport::Tcp4 => 12,
        Transport::Tcp6 => 36,
        Transport::Local | Transport::Other => 0,
    }
}

// The number in two bytes.
fn number(high: u8, low: u8) -> u16
    ensures { result ≡ high * 256 + low }
{
    u16::from(high) * 256 + u16::from(low)
}

fn kept_name(name: &[u8]) -> Option<CommonName>
    ensures { result ≡ names.kept_name name.now }
{
    if name.len() > CommonName::MAX {
        return None;
    }
    Some(CommonName::new(name))
}

// Whether the client showed a certificate.
fn has_shown(client: u8) -> bool
    ensures { result ≡ certificates.has_shown client }
{
    client & CLIENT_CERT_CONN != 0 || client & CLIENT_CERT_SESS != 0
}

// Whether it came by TLS, and showed a certificate that was verified.
fn is_verified(client: u8, verify: u32) -> bool
    ensures { result ≡ certificates.is_verified client verify }
{
    client & CLIENT_SSL != 0 && has_shown(client) && verify == 0
}

fn certificate_of(client: u8, verify: u32, name: Option<&[u8]>) -> Certificate
    ensures { result ≡ certificates.certificate_of client verify (option_copied name.entry) }
{
    if !is_verified(client, verify) {
        return Certificate::Unverified;
    }
    match name {
        Some(name) => Certificate::Verified(kept_name(name)),
        None => Certificate::Verified(None),
    }
}

// What the value of the vector about TLS tells; nothing where the lengths don't add up.
fn ssl_certificate(value: &[u8]) -> Option<Certificate>
    ensures { result ≡ certificates.ssl_certificate value.now }
{
    let [client, a, b, c, d, inner @ ..] = value else {
        return None;
    };
    let verify = u32::from_be_bytes([*a, *b, *c, *d]);
    let Some(name) = first_value(inner, SUBTYPE_SSL_CN) else {
        return None;
    };
    Some(certificate_of(*client, verify, name))
}

// What the vectors after the addresses tell; nothing where the lengths don't add up.
fn certificate_in(bytes: &[u8]) -> Option<Certificate>
    ensures { result ≡ certificates.certificate_in bytes.now }
{
    match first_value(bytes, TYPE_SSL) {
        None => None,
        Some(None) => Some(Certificate::NotTold),
        Some(Some(value)) => ssl_certificate(value),
    }
}

// The header that tells this, unless the lengths don't add up.
fn found(used: usize, source: Source, certificate: Option<Certificate>) -> Proxy
    ensures { result ≡ binary.found used source certificate }
{
    match certificate {
        None => Proxy::Fault,
        Some(certificate) => Proxy::Found(Header {
            source,
            certificate,
            used,
        }),
    }
}

fn ipv4_source(bytes: &[u8]) -> SocketAddr
    requires { 12 ≤ length bytes.now }
    ensures { Caller result ≡ binary.source_in Tcp4 bytes.now }
{
    let ip = Ipv4Addr::new(bytes[0], bytes[1], bytes[2], bytes[3]);
    SocketAddr::V4(SocketAddrV4::new(ip, number(bytes[8], bytes[9])))
}

fn ipv6_source(bytes: &[u8]) -> SocketAddr
    requires { 36 ≤ length bytes.now }
    ensures { Caller result ≡ binary.source_in Tcp6 bytes.now }
{
    let mut octets = [0; 16];
    octets.copy_from_slice(&bytes[..16]);
    let ip = Ipv6Addr::from_octets(octets);
    SocketAddr::V6(SocketAddrV6::new(ip, number(bytes[32], bytes[33]), 0, 0))
}

fn source_in(transport: Transport, bytes: &[u8]) -> Source
    requires { binary.addresses_size transport ≤ length bytes.now }
    ensures { result ≡ binary.source_in transport bytes.now }
{
    match transport {
        Transport::Local => Source::Local,
        Transport::Tcp4 => Source::Caller(ipv4_source(bytes)),
        Transport::Tcp6 => Source::Caller(ipv6_source(bytes)),
        Transport::Other => Source::Unknown,
    }
}

fn vectors_in(transport: Transport, bytes: &[u8]) -> &[u8]
    requires { binary.addresses_size transport ≤ length bytes.now }
    ensures { result.now ≡ binary.vectors_in transport bytes.now }
{
    match transport {
        Transport::Tcp4 => &bytes[12..],
        Transport::Tcp6 => &bytes[36..],
        Transport::Local | Transport::Other => &[],
    }
}

// What the bytes after the fixed part tell, in a header of so many bytes.
fn told(used: usize, transport: Transport, bytes: &[u8]) -> Proxy
    requires { binary.addresses_size transport ≤ length bytes.now }
    ensures { result ≡ binary.told used transport bytes.now }
{
    let source = source_in(transport, bytes);
    found(used, source, certificate_in(vectors_in(transport, bytes)))
}

// Whether one of the bytes can't stand there.
fn is_refused(bytes: &[u8]) -> bool
    ensures { result ≡ binary.is_refused (length bytes.now) bytes.now }
{
    let count = bytes.len();
    (count > 12 && !is_command(bytes[12])) || (count > 13 && !is_kind(bytes[12], bytes[13]))
}

// Whether so many bytes can't follow the fixed part.
fn is_wrong_size(size: usize, transport: Transport) -> bool
    ensures { result ≡ (nat_lt binary.most_bytes size
        || nat_lt size (binary.addresses_size transport)) }
{
    size > MOST || size < addresses_size(transport)
}

// What bytes that agree with the signature begin with.
#[tactic(auto, unfolding(crate::specs::Binary::judged))]
pub(crate) fn read_binary(bytes: &[u8]) -> Proxy
    ensures { result ≡ binary.binary bytes.now }
{
    if is_refused(bytes) {
        return Proxy::Fault;
    }
    if bytes.len() < FIXED {
        return Proxy::Need;
    }
    let size = usize::from(number(bytes[14], bytes[15]));
    let transport = transport_of(bytes[12], bytes[13]);
    if is_wrong_size(size, transport) {
        return Proxy::Fault;
    }
    if bytes.len() < FIXED + size {
        return Proxy::Need;
    }
    told(FIXED + size, transport, &bytes[FIXED..FIXED + size])
}

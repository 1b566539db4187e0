//! The header that a proxy puts in front of a connection's bytes: what stunnel 5.68 and haproxy
//! 2.6.12 wrote, and what nobody should. The other answers are those of a reader in Python that was
//! written from the protocol's text.

use packet_notation::bytes;
use std::alloc::Global;
use std::fmt::Write;
use std::process::Abort;
use std::test::Fail;
use tac_proxy::{Certificate, Header, Proxy, Source, read_proxy};

// What is told of the certificate, and its name.
fn push_certificate(text: &mut String, certificate: &Certificate) -> Result<(), Fail> {
    text.push_str(match certificate {
        Certificate::NotTold => " not-told",
        Certificate::Unverified => " unverified",
        Certificate::Verified(_) => " verified",
    })?;
    if let Some(name) = certificate.name() {
        write!(text, " {}", str::from_utf8(name.as_slice())?)?;
    }
    Ok(())
}

// How many bytes the header takes, the caller, and the certificate.
fn push_header(text: &mut String, header: &Header) -> Result<(), Fail> {
    write!(text, "{}", header.used)?;
    match &header.source {
        Source::Local => text.push_str(" local")?,
        Source::Unknown => text.push_str(" unknown")?,
        Source::Caller(source) => write!(text, " {source}")?,
    }
    push_certificate(text, &header.certificate)
}

fn told(alloc: Global, bytes: &[u8]) -> Result<String, Fail> {
    let mut text = String::new(alloc);
    match read_proxy(bytes) {
        Proxy::Need => text.push_str("need")?,
        Proxy::Fault => text.push_str("fault")?,
        Proxy::Found(header) => push_header(&mut text, &header)?,
    }
    Ok(text)
}

// `BYTES`, or `BYTES ~ SIZE ~ BYTES`, which are so many with `x` between the two.
fn given(alloc: Global, text: &str) -> Result<Vec<u8>, Fail> {
    let Some((front, rest)) = text.split_once(" ~ ") else {
        return Ok(bytes(alloc, text)?);
    };
    let (size, end) = rest.split_once(" ~ ").ok_or("no size")?;
    let size: usize = size.parse()?;
    let mut all = bytes(alloc, front)?;
    let end = bytes(alloc, end)?;
    for _ in all.len()..size.saturating_sub(end.len()) {
        all.push(b'x')?;
    }
    all.extend_from_slice(end.as_slice())?;
    Ok(all)
}

// One line: what is given, and what is read of it.
fn is_read<R: Abort + AllocGlobal>(rt: &R, line: &str) -> Result<(), Fail> {
    let (asked, wanted) = line.split_once(" = ").ok_or("no answer is wanted")?;
    let bytes = given(rt.alloc(), asked)?;
    let found = told(rt.alloc(), bytes.as_slice())?;
    assert_eq!(rt; found.as_str(), wanted, "of {asked}");
    Ok(())
}

fn are_read<R: Abort + AllocGlobal>(rt: &R, text: &str) -> Result<(), Fail> {
    for line in text.lines() {
        let line = line.trim_start();
        if !line.is_empty() && !line.starts_with('#') {
            is_read(rt, line)?;
        }
    }
    Ok(())
}

#[test]
fn lines(rt: HostRuntime) -> Result<(), Fail> {
    are_read(
        &rt,
        "
        # What stunnel wrote; the bytes after it are the connection's.
        'PROXY TCP4 127.0.0.1 127.0.0.1 40532 3300'0d0a = 43 127.0.0.1:40532 not-told
        'PROXY TCP4 127.0.0.1 127.0.0.1 40532 3300'0d0a.c0010100 = 43 127.0.0.1:40532 not-told
        'PROXY TCP4 127.0.0.1 127.0.0.1 40532 3300'0d = need
        'PROXY TCP4 127.0.0.1 127.0.0.1 40532 3300'0a = need
        'PROXY TCP6 2001:db8::7 ::1 65535 0'0d0a = 36 [2001:db8::7]:65535 not-told
        # None is known.
        'PROXY UNKNOWN'0d0a = 15 unknown not-told
        'PROXY UNKNOWN 'ff0d.0a0d0a = 17 unknown not-told
        'PROXY UNKNOWNS'0d0a = fault
        # Judged as soon as it can't be a header.
        '' = need
        'PROXY TCP' = need
        'PROXX' = fault
        'PROXY TCP5' = fault
        0d = need
        0d0b = fault
        'PROXY TCP4 127.0.0.1 127.0.0.1 65536 3300'0d0a = fault
        'PROXY TCP4 127.0.0.1 127.0.0.1 40532 03300'0d0a = fault
        'PROXY TCP4 127.0.0.1  127.0.0.1 40532 3300'0d0a = fault
        'PROXY TCP4 127.0.0.1 127.0.0.1 40532 3300 '0d0a = fault
        'PROXY TCP4 ::1 ::1 40532 3300'0d0a = fault
        'PROXY TCP6 ::1 127.0.0.1 40532 3300'0d0a = fault
        # One that never ends.
        'PROXY UNKNOWN ' ~ 106 ~ '' = need
        'PROXY UNKNOWN ' ~ 107 ~ '' = fault
        'PROXY UNKNOWN ' ~ 107 ~ 0d0a = 107 unknown not-told
        'PROXY UNKNOWN ' ~ 108 ~ 0d0a = fault
        ",
    )
}

#[test]
fn in_binary(rt: HostRuntime) -> Result<(), Fail> {
    are_read(
        &rt,
        "
        # What haproxy wrote, with another result of the verification, without a certificate, and
        # with neither.
        0d0a0d0a000d0a515549540a.2111.0033.7f000001.7f000001.c1aa.0ce5.20.0024.07.00000000.21.0007'TLSv1.3'22.0012'core-1.example.net' = 67 127.0.0.1:49578 verified core-1.example.net
        0d0a0d0a000d0a515549540a.2111.0033.7f000001.7f000001.c1aa.0ce5.20.0024.07.00000013.21.0007'TLSv1.3'22.0012'core-1.example.net' = 67 127.0.0.1:49578 unverified
        0d0a0d0a000d0a515549540a.2111.0033.7f000001.7f000001.c1aa.0ce5.20.0024.01.00000000.21.0007'TLSv1.3'22.0012'core-1.example.net' = 67 127.0.0.1:49578 unverified
        0d0a0d0a000d0a515549540a.2111.0033.7f000001.7f000001.c1aa.0ce5.20.0024.01.00000013.21.0007'TLSv1.3'22.0012'core-1.example.net' = 67 127.0.0.1:49578 unverified
        # Without a name: each flag of the client, and each byte of the verification's result.
        0d0a0d0a000d0a515549540a.2111.0014.7f000001.7f000001.c1aa.0ce5.20.0005.07.00000000 = 36 127.0.0.1:49578 verified
        0d0a0d0a000d0a515549540a.2111.0014.7f000001.7f000001.c1aa.0ce5.20.0005.03.00000000 = 36 127.0.0.1:49578 verified
        0d0a0d0a000d0a515549540a.2111.0014.7f000001.7f000001.c1aa.0ce5.20.0005.05.00000000 = 36 127.0.0.1:49578 verified
        0d0a0d0a000d0a515549540a.2111.0014.7f000001.7f000001.c1aa.0ce5.20.0005.ff.00000000 = 36 127.0.0.1:49578 verified
        0d0a0d0a000d0a515549540a.2111.0014.7f000001.7f000001.c1aa.0ce5.20.0005.00.00000000 = 36 127.0.0.1:49578 unverified
        0d0a0d0a000d0a515549540a.2111.0014.7f000001.7f000001.c1aa.0ce5.20.0005.01.00000000 = 36 127.0.0.1:49578 unverified
        0d0a0d0a000d0a515549540a.2111.0014.7f000001.7f000001.c1aa.0ce5.20.0005.02.00000000 = 36 127.0.0.1:49578 unverified
        0d0a0d0a000d0a515549540a.2111.0014.7f000001.7f000001.c1aa.0ce5.20.0005.04.00000000 = 36 127.0.0.1:49578 unverified
        0d0a0d0a000d0a515549540a.2111.0014.7f000001.7f000001.c1aa.0ce5.20.0005.06.00000000 = 36 127.0.0.1:49578 unverified
        0d0a0d0a000d0a515549540a.2111.0014.7f000001.7f000001.c1aa.0ce5.20.0005.f9.00000000 = 36 127.0.0.1:49578 unverified
        0d0a0d0a000d0a515549540a.2111.0014.7f000001.7f000001.c1aa.0ce5.20.0005.07.00000001 = 36 127.0.0.1:49578 unverified
        0d0a0d0a000d0a515549540a.2111.0014.7f000001.7f000001.c1aa.0ce5.20.0005.07.00000100 = 36 127.0.0.1:49578 unverified
        0d0a0d0a000d0a515549540a.2111.0014.7f000001.7f000001.c1aa.0ce5.20.0005.07.00010000 = 36 127.0.0.1:49578 unverified
        0d0a0d0a000d0a515549540a.2111.0014.7f000001.7f000001.c1aa.0ce5.20.0005.07.01000000 = 36 127.0.0.1:49578 unverified
        # Of two fields about TLS the first counts.
        0d0a0d0a000d0a515549540a.2111.001c.7f000001.7f000001.c1aa.0ce5.20.0005.00.00000000.20.0005.07.00000000 = 44 127.0.0.1:49578 unverified
        # LOCAL tells nothing, whatever is in it.
        0d0a0d0a000d0a515549540a.2011.0014.7f000001.7f000001.c1aa.0ce5.20.0005.07.00000000 = 36 local not-told
        # Without vectors, by IPv6, and of no caller.
        0d0a0d0a000d0a515549540a.2111.000c.7f000001.7f000001.c1aa.0ce5 = 28 127.0.0.1:49578 not-told
        0d0a0d0a000d0a515549540a.2121.0024.20010db8000000000000000000000007.00000000000000000000000000000001.ffff.0000.c0 = 52 [2001:db8::7]:65535 not-told
        0d0a0d0a000d0a515549540a.2000.0000 = 16 local not-told
        0d0a0d0a000d0a515549540a.20ff.0003.010203.c0 = 19 local not-told
        0d0a0d0a000d0a515549540a.2100.0000 = 16 unknown not-told
        0d0a0d0a000d0a515549540a.2112.0001.ff = 17 unknown not-told
        0d0a0d0a000d0a515549540a.2131.0000 = 16 unknown not-told
        # No such version, command, protocol or family, and lengths that don't add up.
        0d0a0d0a000d0a515549540a = need
        0d0a0d0a000d0a515549540a.11 = fault
        0d0a0d0a000d0a515549540a.22 = fault
        0d0a0d0a000d0a515549540a.2113 = fault
        0d0a0d0a000d0a515549540a.2141 = fault
        0d0a0d0a000d0a515549540a.2111.000b = fault
        0d0a0d0a000d0a515549540a.2121.0023 = fault
        0d0a0d0a000d0a515549540a.2111.0209 = fault
        0d0a0d0a000d0a515549540a.2111.000e.7f000001.7f000001.c1aa.0ce5.0400 = fault
        0d0a0d0a000d0a515549540a.2111.0010.7f000001.7f000001.c1aa.0ce5.04.0002.ff = fault
        0d0a0d0a000d0a515549540a.2111.0017.7f000001.7f000001.c1aa.0ce5.20.0008.07.00000000.22.0001 = fault
        0d0a0d0a000d0a515549540a.2111.0013.7f000001.7f000001.c1aa.0ce5.20.0004.07000000 = fault
        # Names of 64 and 65 bytes, and the longest header.
        0d0a0d0a000d0a515549540a.2111.0057.7f000001.7f000001.c1aa.0ce5.20.0048.07.00000000.22.0040 ~ 103 ~ '' = 103 127.0.0.1:49578 verified xxxxxxxxxxxxxxxxxxxxxxxxxxxxxxxxxxxxxxxxxxxxxxxxxxxxxxxxxxxxxxxx
        0d0a0d0a000d0a515549540a.2111.0058.7f000001.7f000001.c1aa.0ce5.20.0049.07.00000000.22.0041 ~ 104 ~ '' = 104 127.0.0.1:49578 verified
        0d0a0d0a000d0a515549540a.2000.0208 ~ 535 ~ '' = need
        0d0a0d0a000d0a515549540a.2000.0208 ~ 536 ~ '' = 536 local not-told
        0d0a0d0a000d0a515549540a.2000.0208 ~ 537 ~ '' = 536 local not-told
        ",
    )
}

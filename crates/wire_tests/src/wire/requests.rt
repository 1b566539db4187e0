//! Bodies of authorisation packets, worked out by hand from RFC 8907, section 6, and what arguments
//! ask for.

use crate::lists::{arguments_in, push_times};
use crate::wire::cases::{answers, bytes, shown, told};
use basics::{Bytes, Sequence};
use std::alloc::{AllocError, Global};
use std::fmt::Write;
use std::test::Fail;
use tac_request::{
    AUTHOR_REPLY_MAX, AuthorReply, LineOf, Requested, asked_for, read_author_reply,
    read_author_request, request_line, split_arg, write_author_reply,
};

// Method, level, authen_type, service, the three fields, and the arguments.
pub(crate) fn authorisation_request(alloc: Global, body: &str) -> Result<String, Fail> {
    let body = bytes(alloc, body)?;
    match read_author_request(alloc, body.as_slice()) {
        Ok(request) => shown(
            alloc,
            &[
                u32::from(request.authen_method),
                u32::from(request.priv_lvl),
                u32::from(request.authen_type),
                u32::from(request.authen_service),
            ],
            &[
                request.user.as_slice(),
                request.port.as_slice(),
                request.rem_addr.as_slice(),
            ],
            request.args.as_slice(),
        ),
        Err(fault) => told(alloc, fault),
    }
}

// The body that spells a reply.
fn spelled(alloc: Global, reply: &AuthorReply) -> Result<Vec<u8>, AllocError> {
    let mut body = Vec::with_capacity(alloc, AUTHOR_REPLY_MAX)?;
    write_author_reply(reply, &mut body);
    Ok(body)
}

// What is read of this body.
fn shown_reply(alloc: Global, reply: &AuthorReply, body: &[u8]) -> Result<String, Fail> {
    let again = spelled(alloc, reply)?;
    let args = arguments_in(alloc, again.as_slice())?;
    let is_again = again.as_slice() == body;
    let numbers = [u32::from(reply.status.0), u32::from(is_again)];
    shown(alloc, &numbers, &[reply.msg.as_slice()], args.as_slice())
}

// Status, whether the body is written again, the text, and the arguments.
pub(crate) fn authorisation_reply(alloc: Global, body: &str) -> Result<String, Fail> {
    let body = bytes(alloc, body)?;
    match read_author_reply(alloc, body.as_slice()) {
        Ok(reply) => shown_reply(alloc, &reply, body.as_slice()),
        Err(fault) => told(alloc, fault),
    }
}

// Whether the sign says that it is mandatory, name and value.
pub(crate) fn argument(alloc: Global, given: &str) -> Result<String, Fail> {
    let argument = bytes(alloc, given)?;
    match split_arg(argument.as_slice()) {
        Some(arg) => shown(
            alloc,
            &[u32::from(arg.mandatory)],
            &[arg.name, arg.value],
            &[],
        ),
        None => told(alloc, ()),
    }
}

// Adds the arguments that a text spells.
fn push_arguments(alloc: Global, list: &mut Sequence<Bytes>, given: &str) -> Result<(), Fail> {
    for argument in given.split('|') {
        if !argument.is_empty() {
            list.push(bytes(alloc, argument)?)?;
        }
    }
    Ok(())
}

/// The arguments that a text spells, with a bar between two; the empty text has none.
pub(crate) fn arguments(alloc: Global, given: &str) -> Result<Sequence<Bytes>, Fail> {
    let mut list = Sequence::new(alloc);
    push_arguments(alloc, &mut list, given)?;
    Ok(list)
}

// The line that arguments make.
fn line_of(alloc: Global, args: &[Bytes]) -> Result<String, Fail> {
    match request_line(alloc, args)? {
        LineOf::Line(line) => shown(alloc, &[], &[line.as_slice()], &[]),
        LineOf::BadArgument => told(alloc, "bad argument"),
        LineOf::NotShell => told(alloc, "not shell"),
    }
}

pub(crate) fn line(alloc: Global, given: &str) -> Result<String, Fail> {
    let args = arguments(alloc, given)?;
    line_of(alloc, args.as_slice())
}

// A service, and the protocol, if one is named.
fn shown_service(alloc: Global, service: &Bytes, protocol: &Option<Bytes>) -> Result<String, Fail> {
    let service = service.as_slice();
    match protocol {
        Some(protocol) => shown(
            alloc,
            &[],
            &[b"service".as_slice(), service, protocol.as_slice()],
            &[],
        ),
        None => shown(alloc, &[], &[b"service".as_slice(), service], &[]),
    }
}

// What arguments ask for.
fn asked_by(alloc: Global, args: &[Bytes]) -> Result<String, Fail> {
    match asked_for(alloc, args)? {
        Requested::Shell(line) => { shown(alloc, &[], &[b"line".as_slice(), line.as_slice()], &[]) }
        Requested::Other { service, protocol } => shown_service(alloc, &service, &protocol),
        Requested::NoSign => told(alloc, "no sign"),
        Requested::NoService => told(alloc, "no service"),
    }
}

pub(crate) fn asked(alloc: Global, given: &str) -> Result<String, Fail> {
    let args = arguments(alloc, given)?;
    asked_by(alloc, args.as_slice())
}

#[test]
fn authorisation(rt: HostRuntime) -> Result<(), Fail> {
    answers(
        &rt,
        "
        authorisation 06010101030400030d080f'bobtty0service=shellcmd=showcmd-arg=version' = 6 1 1 1 'bob' 'tty0' '' 'service=shell' 'cmd=show' 'cmd-arg=version'
        authorisation 0601010100000000 = 6 1 1 1 '' '' ''
        authorisation = Short
        authorisation 06010101000000 = Short
        # The length of the one argument is missing.
        authorisation 0601010100000001 = Short
        authorisation 060101010000000100 = 6 1 1 1 '' '' '' ''
        # One length is too great by one, or too small.
        authorisation 0601010104000000'bob' = LengthSum
        authorisation 0601010102000000'bob' = LengthSum
        authorisation 060101010000000105'cmd=' = LengthSum
        authorisation 060101010000000103'cmd=' = LengthSum

        authorisation-reply 010000000000 = 1 1 ''
        authorisation-reply 1000001a0000'denied by group ops rule 2' = 16 1 'denied by group ops rule 2'
        authorisation-reply 100000110000'denied by default' = 16 1 'denied by default'
        authorisation-reply 110000080000'bad body' = 17 1 'bad body'
        authorisation-reply 0101000000000b'priv-lvl=15' = 1 1 '' 'priv-lvl=15'
        authorisation-reply 0101000200000a'okpriv-lvl=0' = 1 1 'ok' 'priv-lvl=0'
        authorisation-reply 0101000000000c'priv-lvl=255' = 1 1 '' 'priv-lvl=255'
        authorisation-reply 100000400000'0000000000000000000000000000000000000000000000000000000000000000' = 16 1 '0000000000000000000000000000000000000000000000000000000000000000'

        # Other arguments, whatever they are.
        authorisation-reply 0101000000000c'priv-lvl=256' = 1 1 '' 'priv-lvl=256'
        authorisation-reply 0101000000000b'priv-lvl=07' = 1 1 '' 'priv-lvl=07'
        authorisation-reply 01010000000009'priv-lvl=' = 1 1 '' 'priv-lvl='
        authorisation-reply 0102000000000a0a'priv-lvl=7priv-lvl=7' = 1 1 '' 'priv-lvl=7' 'priv-lvl=7'
        authorisation-reply 0102000000001316'local-user-name=opsallow-commands=show .*' = 1 1 '' 'local-user-name=ops' 'allow-commands=show .*'
        authorisation-reply 0105000200000b00000201'okpriv-lvl=15'00ff'x' = 1 1 'ok' 'priv-lvl=15' '' '' 00ff 'x'

        # What this server doesn't send: a longer text, and data.
        authorisation-reply 100000410000'00000000000000000000000000000000000000000000000000000000000000000' = TooLong
        authorisation-reply 010000000001'x' = TooLong
        authorisation-reply 0101000000010a'priv-lvl=7x' = TooLong

        authorisation-reply = Short
        authorisation-reply 0100000000 = Short
        authorisation-reply 010100000000 = Short
        authorisation-reply 0102000000000b = Short
        authorisation-reply 100000020000'x' = LengthSum
        authorisation-reply 100000000000'x' = LengthSum
        authorisation-reply 0102000000000a0a'priv-lvl=7priv-lvl=' = LengthSum
        # That the lengths are wrong comes before what is too long.
        authorisation-reply 0101000000010b'priv-lvl=07' = LengthSum
        ",
    )
}

// Adds the row of a PASS_ADD with so many arguments, each of so many bytes.
fn push_row(text: &mut String, alloc: Global, count: u32, length: u32) -> Result<(), AllocError> {
    let digits = format!(in alloc; "{length:02x}")?;
    let mut argument = String::new(alloc);
    push_times(&mut argument, "a", length)?;
    let quoted = format!(in alloc; " '{argument}'")?;
    write!(text, "authorisation-reply 01{count:02x}00000000")?;
    push_times(text, digits.as_str(), count)?;
    text.push_str("'")?;
    push_times(text, argument.as_str(), count)?;
    text.push_str("' = 1 1 ''")?;
    push_times(text, quoted.as_str(), count)?;
    text.push_str("\n")
}

#[test]
fn replies_of_many_arguments(rt: HostRuntime) -> Result<(), Fail> {
    let mut rows = String::new(rt.alloc());
    push_row(&mut rows, rt.alloc(), 1, 255)?;
    push_row(&mut rows, rt.alloc(), 255, 0)?;
    push_row(&mut rows, rt.alloc(), 255, 1)?;
    push_row(&mut rows, rt.alloc(), 255, 255)?;
    answers(&rt, rows.as_str())
}

#[test]
fn arguments_and_lines(rt: HostRuntime) -> Result<(), Fail> {
    answers(
        &rt,
        "
        argument 'cmd=show' = 1 'cmd' 'show'
        argument 'cmd*show' = 0 'cmd' 'show'
        argument 'cmd*x' = 0 'cmd' 'x'
        argument 'cmd=' = 1 'cmd' ''
        argument '=x' = 1 '' 'x'
        argument '*' = 0 '' ''
        argument 'a=b*c=d' = 1 'a' 'b*c=d'
        argument 'a*=b' = 0 'a' '=b'
        argument 'version' = ()
        argument = ()

        line 'service=shell'|'cmd=show'|'cmd-arg=version' = 'show version'
        line 'cmd-arg=a'|'cmd*show'|'cmd=no'|'cmd-arg*'|'service*shell' = 'show a '
        line 'service=shell'|'cmd='00ff = 00ff
        line 'service=shell'|'cmd=' = ''
        line 'service=shell'|'cmd=show'|'more' = \"bad argument\"
        line 'service=shell' = \"not shell\"
        line 'service=ppp'|'cmd=show' = \"not shell\"
        line = \"not shell\"
        ",
    )
}

#[test]
fn what_is_asked_for(rt: HostRuntime) -> Result<(), Fail> {
    answers(
        &rt,
        "
        asked 'service=shell'|'cmd=show'|'cmd-arg=version' = 'line' 'show version'
        asked 'cmd*'|'protocol=ip'|'service*shell'|'service=junos-exec' = 'line' ''

        asked 'service=junos-exec' = 'service' 'junos-exec'
        asked 'service*junos-exec' = 'service' 'junos-exec'
        asked 'cmd=show'|'service=junos-exec'|'service=shell' = 'service' 'junos-exec'
        asked 'service=PaloAlto'|'protocol=firewall' = 'service' 'PaloAlto' 'firewall'
        asked 'protocol*firewall'|'service=PaloAlto'|'protocol=panorama' = 'service' 'PaloAlto' 'firewall'
        asked 'service=' = 'service' ''
        asked 'service='00ff|'protocol= '7f = 'service' 00ff 207f
        # The first protocol that isn't empty.
        asked 'service=PaloAlto'|'protocol=' = 'service' 'PaloAlto'
        asked 'protocol='|'service=PaloAlto'|'protocol*'|'protocol=firewall'|'protocol=' = 'service' 'PaloAlto' 'firewall'

        # Of a shell there has to be a command.
        asked 'service=shell' = \"no service\"
        asked 'service=shell'|'service=junos-exec'|'protocol=ip' = \"no service\"
        asked 'cmd=show'|'Service=shell' = \"no service\"
        asked = \"no service\"

        # That an argument has no sign comes first.
        asked 'more'|'service=junos-exec' = \"no sign\"
        asked 'service=junos-exec'|'protocol' = \"no sign\"
        asked 'service=shell'|'cmd=show'|'more' = \"no sign\"
        asked 'more' = \"no sign\"
        ",
    )
}

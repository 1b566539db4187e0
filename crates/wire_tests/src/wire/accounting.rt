//! Bodies of accounting packets, worked out by hand from RFC 8907, section 7, and what is recorded.

use crate::wire::cases::{answers, bytes, shown, told};
use crate::wire::requests::arguments;
use basics::{Bytes, Sequence};
use std::alloc::{AllocError, Global};
use std::test::Fail;
use tac_request::{
    AcctKind, Record, acct_kind, read_acct_reply, read_acct_request, write_acct_reply,
};

// Flags, method, level, authen_type, service, the three fields, and the arguments.
pub(crate) fn accounting_request(alloc: Global, body: &str) -> Result<String, Fail> {
    let body = bytes(alloc, body)?;
    match read_acct_request(alloc, body.as_slice()) {
        Ok(request) => shown(
            alloc,
            &[
                u32::from(request.flags),
                u32::from(request.authen_method),
                u32::from(request.priv_lvl),
                u32::from(request.authen_type),
                u32::from(request.authen_service),
            ],
            &[
                request.user.as_slice(),
                request.port.as_slice(),
                request.rem_addr.as_slice(),
            ],
            request.args.as_slice(),
        ),
        Err(fault) => told(alloc, fault),
    }
}

// Status, whether the body is written again, and the text.
pub(crate) fn accounting_reply(alloc: Global, body: &str) -> Result<String, Fail> {
    let body = bytes(alloc, body)?;
    match read_acct_reply(body.as_slice()) {
        Ok(reply) => {
            let is_again = write_acct_reply(&reply).as_slice() == body.as_slice();
            let numbers = [u32::from(reply.status.0), u32::from(is_again)];
            shown(alloc, &numbers, &[reply.msg.as_slice()], &[])
        }
        Err(fault) => told(alloc, fault),
    }
}

// The kind that flags mean, without those that have no meaning and with them.
pub(crate) fn kind(alloc: Global, given: &str) -> Result<String, Fail> {
    let flags = bytes(alloc, given)?;
    match flags.as_slice() {
        [flags] => told(alloc, (acct_kind(*flags), acct_kind(*flags | 0xf0))),
        _ => Err(Fail::from("not one byte")),
    }
}

// What is recorded at the end of a task, by this user with these arguments.
fn record_of(alloc: Global, user: Bytes, args: Sequence<Bytes>) -> Result<Record, AllocError> {
    Record::from_request(alloc, user, args.as_slice(), AcctKind::Stop)
}

// What is recorded: seconds, task, and the line, where there is one.
fn shown_record(alloc: Global, record: &Record) -> Result<String, Fail> {
    if record.user.as_slice() != b"bob".as_slice() || record.kind != AcctKind::Stop {
        return Err(Fail::from("another's record"));
    }
    let task = record.task.as_slice();
    match &record.line {
        Some(line) => shown(alloc, &[record.elapsed], &[task, line.as_slice()], &[]),
        None => shown(alloc, &[record.elapsed], &[task], &[]),
    }
}

// What is recorded of bob's arguments.
pub(crate) fn record(alloc: Global, given: &str) -> Result<String, Fail> {
    let args = arguments(alloc, given)?;
    let bob = Bytes::from_slice(alloc, b"bob")?;
    let record = record_of(alloc, bob, args)?;
    shown_record(alloc, &record)
}

// The user of a record.
pub(crate) fn user(alloc: Global, given: &str) -> Result<String, Fail> {
    let record = record_of(alloc, bytes(alloc, given)?, Sequence::new(alloc))?;
    shown(alloc, &[], &[record.user.as_slice()], &[])
}

#[test]
fn accounting(rt: HostRuntime) -> Result<(), Fail> {
    answers(
        &rt,
        "
        accounting 04060f0102030408020d08'bobtty010.0.0.7service=shellcmd=show' = 4 6 15 1 2 'bob' 'tty0' '10.0.0.7' 'service=shell' 'cmd=show'
        accounting = Short
        accounting 02 = Short
        accounting 02060f0102ff0000 = Short
        # The lengths of the arguments are part of what has to be whole.
        accounting 02060f0102ff00000201 = Short
        accounting 02060f0102000000020101'a' = LengthSum
        accounting 02060f01020000000101'ab' = LengthSum

        accounting-reply 0000000001 = 1 1 ''
        accounting-reply 0000000002 = 2 1 ''
        accounting-reply 0008000002'bad body' = 2 1 'bad body'
        accounting-reply 0040000001'0000000000000000000000000000000000000000000000000000000000000000' = 1 1 '0000000000000000000000000000000000000000000000000000000000000000'
        accounting-reply = Short
        accounting-reply 00410001 = Short
        accounting-reply 0041000101 = LengthSum
        accounting-reply 0001000001'ab' = LengthSum
        accounting-reply 0002000101'okx' = TooLong
        accounting-reply 0041000001'00000000000000000000000000000000000000000000000000000000000000000' = TooLong
        ",
    )
}

#[test]
fn kinds_of_records(rt: HostRuntime) -> Result<(), Fail> {
    answers(
        &rt,
        "
        kind 00 = (None, None)
        kind 01 = (None, None)
        kind 02 = (Some(Begin), Some(Begin))
        kind 03 = (Some(Begin), Some(Begin))
        kind 04 = (Some(Stop), Some(Stop))
        kind 05 = (Some(Stop), Some(Stop))
        kind 06 = (None, None)
        kind 07 = (None, None)
        kind 08 = (Some(Watch), Some(Watch))
        kind 09 = (Some(Watch), Some(Watch))
        kind 0a = (Some(Update), Some(Update))
        kind 0b = (Some(Update), Some(Update))
        kind 0c = (None, None)
        kind 0d = (None, None)
        kind 0e = (None, None)
        kind 0f = (None, None)
        ",
    )
}

#[test]
fn records(rt: HostRuntime) -> Result<(), Fail> {
    answers(
        &rt,
        "
        record 'elapsed_time=0' = 0 ''
        record 'elapsed_time=60' = 60 ''
        record 'elapsed_time*61' = 61 ''
        record 'elapsed_time=0042' = 42 ''
        record 'elapsed_time=000000000000000000000000000043' = 43 ''
        record 'elapsed_time=4294967295' = 4294967295 ''
        record 'elapsed_time=4294967296' = 0 ''
        record 'elapsed_time=18446744073709551617' = 0 ''
        record 'elapsed_time=' = 0 ''
        record 'elapsed_time=+1' = 0 ''
        record 'elapsed_time= 1' = 0 ''
        record 'elapsed_time=1 ' = 0 ''
        record 'elapsed_time=1'ff = 0 ''
        record 'elapsed_times=1' = 0 ''

        record = 0 ''
        record 'task_id=7'|'task_id=8'|'elapsed_time=5'|'elapsed_time=6' = 5 '7'
        # The first counts also where it says nothing.
        record 'task_id='|'task_id=8'|'elapsed_time=x'|'elapsed_time=6' = 0 ''
        # An argument without a sign is passed over, but there is no line then.
        record 'task_id'|'elapsed_time'|'service=shell'|'cmd=show'|'elapsed_time*9'|'task_id*a=b' = 9 'a=b'

        record 'service=shell'|'cmd=show'|'cmd-arg=version'|'task_id='00ff = 0 00ff 'show version'
        record 'service=shell'|'cmd=' = 0 '' ''
        record 'service=shell'|'cmd= ~' = 0 '' ' ~'
        record 'service=shell'|'cmd='1f = 0 ''
        record 'service=shell'|'cmd=a'|'cmd-arg='7f = 0 ''

        # The line is that of a command of any service, or of none that is named.
        record 'service=ppp'|'cmd=show' = 0 '' 'show'
        record 'service=none'|'cmd=show version (SUCCESS)'|'task_id=7' = 0 '7' 'show version (SUCCESS)'
        record 'cmd*show'|'cmd-arg=version'|'cmd=reload'|'cmd-arg*brief' = 0 '' 'show version brief'
        record 'cmd-arg=version'|'service=ppp'|'service=shell'|'cmd=show' = 0 '' 'show version'
        record 'service=ppp'|'cmd=' = 0 '' ''
        record 'service=ppp'|'cmd=a'1f = 0 ''
        record 'service=ppp'|'cmd=show'|'cmd-arg' = 0 ''
        # .. and there is none without a command.
        record 'service=shell' = 0 ''
        record 'service=ppp'|'cmd-arg=show' = 0 ''

        user = ''
        user 000aff = 000aff
        user 'bob' = 'bob'
        ",
    )
}

//! The reading and the outcome of an accounting REQUEST.

ghost use Rattle.std.specs.Prelude.{◌≡◌, [], None, Some, is_ok, IsTrue, IfOk, OnErr};
ghost use Rattle.std.specs.Result.{result_ok};
ghost use Rattle.tac_request.specs.AcctRequest.{acct_request_of};
ghost use Rattle.tac_request.specs.Record.{kind_of, task_of};
ghost use Rattle.tac_conn.specs.Asker.{acct_asker, unnamed};
ghost use Rattle.tac_conn.specs.Judging as judging;
ghost use Rattle.tac_conn.specs.Reading.{judged_as, record_as};
ghost use Rattle.tac_conn.specs.declared.reading.Reading.TheVariants.{Account};

use crate::ask::{Ask, Slot};
use crate::outcome::{Outcome, breaks, ends};
use crate::reading::{Asker, Reading};
use crate::reply::acct_error;
use basics::{Bytes, Sequence};
use std::alloc::{AllocError, Global};
use tac_request::{AcctKind, AcctRequest, Record, acct_kind, read_acct_request, task_id};
use tac_wire::well_formed;

// Who asks, and the arguments.
fn asker_of(request: AcctRequest) -> (Asker, Sequence<Bytes>)
    ensures { result ≡ (acct_asker request, request.args) }
{
    let asker = Asker {
        user: request.user,
        port: request.port,
        from: request.rem_addr,
        privilege: request.priv_lvl,
        service: request.authen_service,
    };
    (asker, request.args)
}

// A request whose flags are those of no record.
fn refused(
    alloc: Global,
    slot: Slot,
    request: AcctRequest,
) -> Result<(Reading, Outcome), AllocError>
    ensures { IfOk result (λ taken. taken ≡ (
      Account (acct_asker request) None (task_of request.args) request.args,
      judging.record_outcome slot request None,
    )) }
{
    let (asker, arguments) = asker_of(request);
    let task = task_id(alloc, arguments.as_slice())?;
    let reading = Reading::Account {
        asker,
        kind: None,
        task,
        arguments,
    };
    Ok((reading, ends(slot, acct_error(b"bad flags"))))
}

// A request of a kind of record, which is to be stored.
fn stored(
    alloc: Global,
    slot: Slot,
    request: AcctRequest,
    kind: AcctKind,
) -> Result<(Reading, Outcome), AllocError>
    ensures { IfOk result (λ taken. taken ≡ (
      Account (unnamed (acct_asker request)) (Some kind) [] request.args,
      judging.record_outcome slot request (Some kind),
    )) }
{
    let (asker, arguments) = asker_of(request);
    let (asker, user) = asker.parted(alloc);
    let record = Record::from_request(alloc, user, arguments.as_slice(), kind)?;
    let reading = Reading::Account {
        asker,
        kind: Some(kind),
        task: Bytes::new(alloc),
        arguments,
    };
    Ok((reading, Outcome::Asks(Ask::Account(record), slot)))
}

// A valid request: its record is to be stored, where the flags are those of a record.
fn recorded(
    alloc: Global,
    slot: Slot,
    request: AcctRequest,
) -> Result<(Reading, Outcome), AllocError>
    ensures { IfOk result (λ taken. taken ≡ judged_as
        (judging.record_outcome slot request (kind_of request.flags))
        (record_as (Some request))) }
{
    match acct_kind(request.flags) {
        Some(kind) => stored(alloc, slot, request, kind),
        None => refused(alloc, slot, request),
    }
}

/// What the body of a REQUEST is read as, and its outcome.
pub(crate) fn judge_record(
    alloc: Global,
    slot: Slot,
    body: &[u8],
) -> Result<(Reading, Outcome), AllocError>
    ensures taken { let request = result_ok (acct_request_of body.now) in
        IfOk result
        (λ taken. taken ≡ judged_as (judging.acct_read slot request) (record_as request)) }
    ensures memory { OnErr result (IsTrue (is_ok (acct_request_of body.now))) }
{
    match well_formed(read_acct_request(alloc, body))? {
        Some(request) => recorded(alloc, slot, request),
        None => Ok(breaks(slot)),
    }
}

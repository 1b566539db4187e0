//! The reading and the outcome of an authorisation REQUEST.

ghost use Rattle.std.specs.Prelude.{◌≡◌, ◌≤◌, length, None, Some, is_ok, IsTrue, IfOk, OnErr};
ghost use Rattle.std.specs.Result.{result_ok};
ghost use Rattle.tac_request.specs.AuthorRequest.{author_request_of};
ghost use Rattle.tac_request.specs.Line.{requested as requested_in};
ghost use Rattle.tac_conn.specs.Asker.{request_asker, unnamed};
ghost use Rattle.tac_conn.specs.Judging as judging;
ghost use Rattle.tac_conn.specs.Reading.{judged_as, request_as};
ghost use Rattle.tac_conn.specs.Reply.{refusal as refusal_of};
ghost use Rattle.tac_conn.specs.declared.reading.Reading.TheVariants.{Command};

use crate::ask::{Ask, Slot};
use crate::outcome::{Outcome, breaks, ends};
use crate::reading::{Asker, Reading};
use crate::reply::refusal;
use basics::{Bytes, Sequence};
use std::alloc::{AllocError, Global};
use tac_request::{AuthorRequest, Requested, asked_for, read_author_request};
use tac_wire::{MESSAGE_MAX, well_formed};

// What is told of a request whose arguments make no line, or whose line is beside it.
fn command(asker: Asker, arguments: Sequence<Bytes>) -> Reading
    ensures { result ≡ Command asker arguments None }
{
    Reading::Command {
        asker,
        arguments,
        line: None,
    }
}

// Who asks, and the arguments.
fn asker_of(request: AuthorRequest) -> (Asker, Sequence<Bytes>)
    ensures { result ≡ (request_asker request, request.args) }
{
    let asker = Asker {
        user: request.user,
        port: request.port,
        from: request.rem_addr,
        privilege: request.priv_lvl,
        service: request.authen_service,
    };
    (asker, request.args)
}

// A request that is refused as it stands: its arguments make no line.
fn refused(slot: Slot, request: AuthorRequest, text: &[u8]) -> (Reading, Outcome)
    requires { length text.now ≤ MESSAGE_MAX }
    ensures { result ≡ (
      Command (request_asker request) request.args None,
      judging.ends slot (refusal_of text.now),
    ) }
{
    let (asker, arguments) = asker_of(request);
    (command(asker, arguments), ends(slot, refusal(text)))
}

// What is beside an ask of a request, and the user.
fn parted(alloc: Global, request: AuthorRequest) -> (Reading, Bytes)
    ensures { result ≡ (
      Command (unnamed (request_asker request)) request.args None,
      request.user,
    ) }
{
    let (asker, arguments) = asker_of(request);
    let (asker, user) = asker.parted(alloc);
    (command(asker, arguments), user)
}

// A valid request.
#[tactic(auto, using(crate::proofs::ReadingFacts::refused_sign, crate::proofs::ReadingFacts::refused_service))]
fn requested(
    alloc: Global,
    slot: Slot,
    request: AuthorRequest,
) -> Result<(Reading, Outcome), AllocError>
    ensures { IfOk result (λ taken. taken ≡ judged_as
        (judging.requested_outcome slot request.user (requested_in request.args))
        (request_as (Some request))) }
{
    match asked_for(alloc, request.args.as_slice())? {
        Requested::NoSign => Ok(refused(slot, request, b"bad argument")),
        Requested::NoService => Ok(refused(slot, request, b"unsupported service")),
        Requested::Shell(line) => {
            let (reading, user) = parted(alloc, request);
            let ask = Ask::Authorise { user, line };
            Ok((reading, Outcome::Asks(ask, slot)))
        }
        Requested::Other { service, protocol } => {
            let (reading, user) = parted(alloc, request);
            let ask = Ask::Serve {
                user,
                service,
                protocol,
            };
            Ok((reading, Outcome::Asks(ask, slot)))
        }
    }
}

/// What the body of a REQUEST is read as, and its outcome.
pub(crate) fn judge_request(
    alloc: Global,
    slot: Slot,
    body: &[u8],
) -> Result<(Reading, Outcome), AllocError>
    ensures taken { let request = result_ok (author_request_of body.now) in
        IfOk result
        (λ taken. taken ≡ judged_as (judging.request_read slot request) (request_as request)) }
    ensures memory { OnErr result (IsTrue (is_ok (author_request_of body.now))) }
{
    match well_formed(read_author_request(alloc, body))? {
        Some(request) => requested(alloc, slot, request),
        None => Ok(breaks(slot)),
    }
}

//! The outcome of a clear packet, by its session.

ghost use Rattle.std.specs.Prelude.{◌≡◌, ◌<◌, is_ok, IsTrue, IfOk, OnErr};
ghost use Rattle.std.specs.Option.{option_copied};
ghost use Rattle.tac_conn.specs.Judging as judging;
ghost use Rattle.tac_conn.specs.Reading.{judged_as, opening_as, body_as, read_as};

use crate::accounting::judge_record;
use crate::ask::{AskKind, Slot};
use crate::authorisation::judge_request;
use crate::continuation::judge_continue;
use crate::outcome::{Outcome, slot_for, unserved};
use crate::packet::Packet;
use crate::reading::Reading;
use crate::session::Session;
use crate::start::judge_start;
use std::alloc::{AllocError, Global};
use tac_wire::{Header, PacketType};

// What packets of this type are about; `None` for a type that isn't served.
fn kind_of(header: &Header) -> Option<AskKind>
    ensures { result ≡ judging.kind_of header.now }
{
    match header.kind {
        PacketType::AUTHENTICATION => Some(AskKind::Authentication),
        PacketType::AUTHORISATION => Some(AskKind::Authorisation),
        PacketType::ACCOUNTING => Some(AskKind::Accounting),
        _ => None,
    }
}

// Whether a packet comes in its turn, on a connection that is single or isn't, with so many
// sessions open.
fn is_in_turn(
    single: bool,
    count: usize,
    session: Option<&Session>,
    kind: AskKind,
    header: &Header,
) -> bool
    ensures { let known = option_copied session.entry in
        result ≡ judging.is_in_turn single count known kind header.now }
{
    let seq = header.seq;
    match session {
        Some(session) => kind == AskKind::Authentication
            && session.last_seq.checked_add(1) == Some(seq),
        None => seq == 1 && (single || count == 0),
    }
}

// The body of a packet that begins a session, with so many open.
fn judge_opening(
    alloc: Global,
    count: usize,
    slot: Slot,
    body: &[u8],
) -> Result<(Reading, Outcome), AllocError>
    ensures taken { IfOk result (λ taken. taken
        ≡ judged_as (judging.opening_outcome slot.kind count slot body.now)
        (opening_as slot.kind body.now)) }
    ensures memory { OnErr result (IsTrue (judging.is_first_body slot.kind body.now)) }
{
    match slot.kind {
        AskKind::Authentication => judge_start(alloc, count, slot, body),
        AskKind::Authorisation => judge_request(alloc, slot, body),
        AskKind::Accounting => judge_record(alloc, slot, body),
    }
}

// The body of a packet that comes in its turn.
fn judge_body(
    alloc: Global,
    count: usize,
    session: Option<&Session>,
    slot: Slot,
    body: &[u8],
) -> Result<(Reading, Outcome), AllocError>
    ensures taken { let known = option_copied session.entry in
        IfOk result (λ taken. taken ≡ judged_as (judging.body_outcome count known slot body.now)
        (body_as known slot.kind body.now)) }
    ensures memory { OnErr result
        (IsTrue (judging.is_body (option_copied session.entry) slot.kind body.now)) }
{
    match session {
        Some(session) => judge_continue(alloc, slot, session, body),
        None => judge_opening(alloc, count, slot, body),
    }
}

/// What a clear packet is read as, and its outcome, on a connection that is single or isn't, with
/// so many sessions open, its own among them where it is open. The error means that memory ran out,
/// for a packet that is read.
#[tactic(auto, unfolding(crate::specs::Judging::judged, crate::specs::Reading::read_as))]
pub(crate) fn judge(
    alloc: Global,
    single: bool,
    count: usize,
    session: Option<&Session>,
    packet: &Packet,
) -> Result<(Reading, Outcome), AllocError>
    ensures taken { let known = option_copied session.entry in
        IfOk result (λ taken. taken ≡ judged_as (judging.judged single count known packet.now)
        (read_as single count known packet.now)) }
    ensures memory { OnErr result
        (IsTrue (judging.is_read single count (option_copied session.entry) packet.now)) }
{
    let header = &packet.header;
    if header.seq == 255 {
        return Ok((Reading::OutOfTurn, Outcome::Close));
    }
    let Some(kind) = kind_of(header) else {
        return Ok((Reading::Unserved, unserved(header)));
    };
    if !is_in_turn(single, count, session, kind, header) {
        return Ok((Reading::OutOfTurn, Outcome::Close));
    }
    let slot = slot_for(header, kind, single);
    judge_body(alloc, count, session, slot, packet.body.as_slice())
}

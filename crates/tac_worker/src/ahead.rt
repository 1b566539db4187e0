//! The turn of what stands first on a connection, found before it is taken.

ghost use Rattle.std.specs.Prelude.{◌≡◌, None, OnSome, option_copied};
ghost use Rattle.tac_worker.specs.Ahead as before;
ghost use Rattle.tac_worker.specs.Ahead.{IsTurnOf, IsAhead, seen_by, IsSomeOfPassword};
ghost use Rattle.tac_worker.specs.Linked.{IsOfPassword};

use crate::caller::Caller;
use std::alloc::AllocError;
use std::snapshot::Snapshot;
use tac_conn::{Ask, Hash, Proof, Step, Typed};
use tac_stream::{Stream, Turn};
use tac_wire::Door;

/// The turn of what stands first, and in proofs the stream before that was found.
#[derive(Drop)]
pub(crate) struct Ahead {
    pub(crate) turn: Result<Turn, AllocError>,
    pub(crate) was: Snapshot<Stream>,
}

/// Finds the turn of what stands first, unless that was done.
pub(crate) fn look_ahead(door: &Door, stream: &mut Stream, ahead: &mut Option<Ahead>)
    requires { IsAhead door.now ahead.old stream.old }
    ensures ahead { IsAhead door.now ahead.new stream.new }
    ensures same { seen_by ahead.new stream.new ≡ seen_by ahead.old stream.old }
{
    if ahead.is_some() {
        return;
    }
    let was = Snapshot::of(&*stream);
    let turn = stream.next(door);
    *ahead = Some(Ahead { turn, was });
}

/// The turn of what stands first, which may have been found.
pub(crate) fn first_turn(
    door: &Door,
    stream: &mut Stream,
    ahead: &mut Option<Ahead>,
) -> Result<Turn, AllocError>
    requires { IsAhead door.now ahead.old stream.old }
    ensures turn { IsTurnOf door.now (seen_by ahead.old stream.old) result stream.new }
    ensures none { ahead.new ≡ None }
{
    match ahead.take() {
        Some(ahead) => {
            let Ahead { turn, was: _ } = ahead;
            turn
        }
        None => stream.next(door),
    }
}

// What is asked for the packet that stands first, if it was found and is to be asked.
fn ask_ahead(ahead: &Option<Ahead>) -> Option<&Ask>
    ensures { option_copied result ≡ before.ask_ahead ahead.now }
{
    let Some(ahead) = ahead else {
        return None;
    };
    let Ok(turn) = &ahead.turn else {
        return None;
    };
    let Turn::Packet(_, step) = turn else {
        return None;
    };
    match step {
        Step::Asks(ask, _) => Some(ask),
        _ => None,
    }
}

// The password that is asked about.
fn password_in(ask: &Ask) -> Option<&Typed>
    ensures { OnSome result (IsOfPassword ask.now) }
{
    match ask {
        Ask::Authenticate {
            proof: Proof::Plain(password),
            ..
        } => Some(password),
        _ => None,
    }
}

/// The password of the packet that stands first, if it was found and has one.
pub(crate) fn password_ahead(ahead: &Option<Ahead>) -> Option<&Typed>
    ensures { OnSome result (IsSomeOfPassword (before.ask_ahead ahead.now)) }
{
    password_in(ask_ahead(ahead)?)
}

/// The hash under whose rounds and salt the password of the packet that stands first is to be
/// worked out, if it was found, has one, and takes the rounds.
pub(crate) fn hash_ahead<C: Caller>(ahead: &Option<Ahead>, caller: &C) -> Option<Hash>
    ensures { OnSome result (IsSomeOfPassword (before.ask_ahead ahead.now)) }
{
    let ask = ask_ahead(ahead)?;
    let password = password_in(ask)?;
    let hash = caller.hash(ask)?;
    if password.takes_rounds(&hash) {
        Some(hash)
    } else {
        None
    }
}

// The password that is asked about, if it is this one, was worked out. Nothing else changes.
fn adopt_in_proof(proof: &mut Proof, worked_out: Typed)
    ensures { proof.new ≡ proof.old }
{
    match proof {
        Proof::Plain(password) => password.adopt(worked_out),
        Proof::Chap { .. } => {}
    }
}

fn adopt_in_ask(ask: &mut Ask, worked_out: Typed)
    ensures { ask.new ≡ ask.old }
{
    match ask {
        Ask::Authenticate { proof, .. } => adopt_in_proof(proof, worked_out),
        _ => {}
    }
}

fn adopt_in_step(step: &mut Step, worked_out: Typed)
    ensures { step.new ≡ step.old }
{
    match step {
        Step::Asks(ask, _) => adopt_in_ask(ask, worked_out),
        _ => {}
    }
}

fn adopt_in_turn(turn: &mut Result<Turn, AllocError>, worked_out: Typed)
    ensures { turn.new ≡ turn.old }
{
    match turn {
        Ok(Turn::Packet(_, step)) => adopt_in_step(step, worked_out),
        _ => {}
    }
}

/// Its password is the same one, which was worked out.
pub(crate) fn adopt(ahead: &mut Option<Ahead>, worked_out: Typed)
    ensures { ahead.new ≡ ahead.old }
{
    match ahead {
        Some(ahead) => adopt_in_turn(&mut ahead.turn, worked_out),
        None => {}
    }
}

//! A server with a console.

ghost use Rattle.std.specs.Prelude.{◌≡◌, map, IfOk, IfSome, IsSome};
ghost use Rattle.pol_pattern.specs.Matching.{MatchLaw};
ghost use Rattle.tac_net.specs.Connections.{HasServed, HaveAllServed};
ghost use Rattle.tac_net.specs.Opening.{listening};
ghost use Rattle.tac_net.specs.Program as program;

use crate::attending::attend;
use crate::ending::{close, refuse};
use crate::fault::ServeFault;
use crate::files::ServerFiles;
use crate::hashing::Hashing;
use crate::lent::Lent;
use crate::listeners::Listeners;
use crate::opening::{places_of, waits_of};
use crate::premises::Premises;
use crate::settings::Settings;
use crate::vigil::Vigil;
use crate::worker::{Place, work};
use std::alloc::AllocError;
use std::io::{Read, Write};
use std::marker::Brand;
use std::net::Net;
use std::sync::Wait;
use std::thread::{Threads, join_mut, map_vec};
use std::time::Clock;
use tac_desk::Desk;
use tac_hall::{EmptyHistory, Hall, HallFault, Run, Seat};
use tac_hall_console::{OperatorFault, Source};
use tac_journal::{Log, LogFiles, Typists};

// The workers, each in a thread of its own; they come back in their order.
fn serve_places<R, J: Run + Send + Sync, D: Desk + Send, L: Log + Sync>(
    premises: &Premises<'_, R, J, D, L>,
    places: Vec<Place<J>>,
) -> Result<Vec<Seat<J>>, AllocError>
where
    R: Threads + Wait + Clock + Sync + AllocGlobal + Eprint + LogFiles,
    ensures { IfOk result (λ served. HaveAllServed (HasServed J.opening
        premises.now.settings.now.callers (L.keeping premises.now.log.now)
        premises.now.settings.now.connections)
        (map (λ place. place.seat) places.items) served.items) }
{
    let Premises {
        rt,
        listeners,
        desk,
        settings,
        vigil,
        intake,
        hashing,
        log,
        counts,
    } = *premises;
    let work = |place: Place<J>| -> Seat<J>
        ensures { HasServed J.opening settings.entry.now.callers (L.keeping log.entry.now)
            settings.entry.now.connections place.seat result }
    {
        let premises = Premises {
            rt,
            listeners,
            desk,
            settings,
            vigil,
            intake,
            hashing,
            log,
            counts,
        };
        work(&premises, place)
    };
    map_vec(rt, places, &work)
}

// Workers serve in threads of their own, while this one serves the console. Once that has ended,
// they end.
fn serve_both<R, J, D: Desk + Send, L: Log + Sync, S: Source + Typists, P, C, I: Read, O: Write>(
    premises: &Premises<'_, R, J, D, L>,
    source: &S,
    places: &mut P,
    console: &mut C,
    input: &mut I,
    output: &mut O,
) -> (
    Result<Vec<Seat<J>>, AllocError>,
    Result<(Seat<J>, Result<(), OperatorFault>), ServeFault>,
)
where
    R: Threads + Wait + Clock + Sync + AllocGlobal + Eprint + LogFiles,
    J: Run + Send + Sync,
    P: Lent<Item = Vec<Place<J>>> + Send,
    C: Lent<Item = Seat<J>>,
    requires places { IsSome (P.item places.now) }
    requires console { IsSome (C.item console.now) }
    ensures served { IfOk result.0 (λ served. IfSome (P.item places.old) (λ waiting. HaveAllServed
        (HasServed J.opening premises.now.settings.now.callers (L.keeping premises.now.log.now)
        premises.now.settings.now.connections)
        (map (λ place. place.seat) waiting.items) served.items)) }
    ensures attended { IfSome (C.item console.old) (λ seat.
        program.Attends result.1 (listening premises.now.settings.now) J.opening seat
        (I.remaining input.old) (I.remaining input.new)
        (O.contents output.old) (O.contents output.new)) }
{
    let Premises {
        rt,
        listeners,
        desk,
        settings,
        vigil,
        intake,
        hashing,
        log,
        counts,
    } = *premises;
    let mut serving = || -> Result<Vec<Seat<J>>, AllocError>
        requires { IsSome (P.item places.now) }
        ensures { IfOk result (λ served. IfSome (P.item places.entry.now) (λ waiting.
            HaveAllServed (HasServed J.opening settings.entry.now.callers
            (L.keeping log.entry.now) settings.entry.now.connections)
            (map (λ place. place.seat) waiting.items) served.items)) }
    {
        match places.take_item() {
            Some(places) => {
                let premises = Premises {
                    rt,
                    listeners,
                    desk,
                    settings,
                    vigil,
                    intake,
                    hashing,
                    log,
                    counts,
                };
                let served = serve_places(&premises, places);
                listeners.leave();
                served
            }
            None => unreachable!(),
        }
    };
    let mut attending = || -> Result<(Seat<J>, Result<(), OperatorFault>), ServeFault>
        requires { IsSome (C.item console.now) }
        ensures { IfSome (C.item console.entry.now) (λ seat.
            program.Attends result (listening premises.entry.now.settings.now) J.opening seat
            (I.remaining input.entry.now) (I.remaining input.exit.now)
            (O.contents output.entry.now) (O.contents output.exit.now)) }
    { attend(premises, source, console, input, output) };
    join_mut(rt, &mut serving, &mut attending)
}

// A desk that nobody called yet, and its history.
struct NewDesk<D: Desk> {
    history: EmptyHistory,
    desk: D,
}

// Serves a desk of this run.
fn serve_run<J, R, D: Desk + Send, L: Log + Sync, S: Source + Typists, I: Read, O: Write>(
    rt: &R,
    listeners: &Listeners,
    desk: NewDesk<D>,
    settings: &Settings,
    files: &ServerFiles<'_, L, S>,
    input: &mut I,
    output: &mut O,
) -> Result<(), ServeFault>
where
    J: Run + Send + Sync,
    R: Threads + Wait + Clock + Sync + AllocGlobal + Eprint + LogFiles + Net,
    requires roll { desk.history ≡ J.roll }
    requires opening { record { meaning = D.meaning desk.desk; limits = settings.now.limits }
        ≡ J.opening }
    ensures { program.Runs result settings.now (L.keeping files.now.log.now) J.opening
        (I.remaining input.old) (I.remaining input.new)
        (O.contents output.old) (O.contents output.new) }
{
    let NewDesk { history, desk } = desk;
    let room = Vec::with_capacity(rt.alloc(), settings.workers as usize + 1)?;
    let vigil = Vigil::new();
    let (intake, waits) = waits_of(rt, rt.alloc(), listeners, settings)?;
    let hashing = Hashing::new(rt.alloc())?;
    let desk = Hall::<J, D>::new(history, desk, settings.limits);
    let Ok(console) = desk.seat(rt) else {
        return Err(refuse(output));
    };
    let places = match places_of(rt, rt.alloc(), &desk, waits) {
        Ok(places) => places,
        Err(HallFault::Memory) => return Err(ServeFault::Memory),
        Err(_) => return Err(refuse(output)),
    };
    let mut places = Some(places);
    let mut console = Some(console);
    let premises = Premises {
        rt,
        listeners,
        desk: &desk,
        settings,
        vigil: &vigil,
        intake: &intake,
        hashing: &hashing,
        log: files.log,
        counts: files.counts,
    };
    let (served, attended) = serve_both(
        &premises,
        files.source,
        &mut places,
        &mut console,
        input,
        output,
    );
    let (console, operated) = match attended {
        Ok(ended) => ended,
        Err(fault) => return Err(fault),
    };
    let closed = match served {
        Ok(served) => close(desk, console, served, room, output),
        Err(_) => Err(ServeFault::Memory),
    };
    operated?;
    closed
}

/// Serves a desk on the network, with a console on its input and output.
///
/// Once each worker has a thread it prints `listening P`. The workers serve connections, each of
/// them many in turns, while the lines of the input are the console's calls
/// ([`operate`](tac_hall_console::operate)), `reload` with the policy of the source. All calls are
/// one history, which exists in proofs alone; its segments begin by themselves as the settings say.
/// `quit` or the input's end stops the desk. Then the port is closed, and each worker closes its
/// connections and ends, whatever its devices do. At last the desk is closed with all its seats.
/// These are made before the threads: where one is missing, `close refused` is printed, and nothing
/// is served.
///
/// A login by a hash is compared by other threads, before its packet is judged: the connection
/// waits meanwhile, and its worker serves others. Where 256 wait for that, the connection of one
/// more is closed.
///
/// A new connection goes to the worker that has the fewest, which serves it by the key of the
/// device at its address. It is closed before a byte is read or written where no device that may
/// call is there, which standard error is told once a minute at most. So it is where there are as
/// many as the settings allow, in all or of its address. A connection is given up where so many
/// seconds as the settings say have passed since it was accepted or since its last reply was taken,
/// whatever comes meanwhile; before its first reply after ten seconds; where a reply isn't taken
/// for so long; and where its unanswered packets find no memory. Where there is a log, each reply
/// is sent only once that was told of it ([`DeviceLog`](tac_journal::DeviceLog)), and each line of
/// the console is told before its answer is printed. Of several faults the console's comes first.
/// There may be 63 workers: a desk has 64 seats, and the console takes one.
pub fn serve<R, D: Desk + Send, L: Log + Sync, S: Source + Typists, I: Read, O: Write>(
    rt: &R,
    listeners: &Listeners,
    desk: D,
    settings: &Settings,
    files: &ServerFiles<'_, L, S>,
    input: &mut I,
    output: &mut O,
) -> Result<(), ServeFault>
where
    R: Threads + Wait + Clock + Sync + AllocGlobal + Eprint + LogFiles + Net,
    ensures runs { program.Runs result settings.now (L.keeping files.now.log.now)
        (record { meaning = D.meaning desk; limits = settings.now.limits })
        (I.remaining input.old) (I.remaining input.new)
        (O.contents output.old) (O.contents output.new) }

    // Whether a pattern matches a line by the definitions is whether its set of texts has it.
    ensures matching { MatchLaw }
{
    let history = EmptyHistory::new(rt.alloc())?;
    let desk = NewDesk { history, desk };
    serve_run::<Brand, R, D, L, S, I, O>(rt, listeners, desk, settings, files, input, output)
}

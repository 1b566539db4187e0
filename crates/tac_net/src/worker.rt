//! A worker: a seat that serves many connections in turns.

ghost use Rattle.std.specs.Prelude.{◌≡◌, IfOk, IfErr};
ghost use Rattle.std.specs.Net.Socket.{socket_ip};
ghost use Rattle.tac_net.specs.Callers.{MayCall};
ghost use Rattle.tac_net.specs.Connections.{HasServed};
ghost use Rattle.tac_net.specs.Fates.{IsGone};

use crate::acceptor::Acceptor;
use crate::callers::Caller;
use crate::departing::{by_stop, found_again, given_up};
use crate::intake::{Arrival, Intake};
use crate::lead::Lead;
use crate::misfits::Misfits;
use crate::peer::Peer;
use crate::poller::{CALLED, CALLED_BY_PROXY, Poller, WOKEN, greeting_of, lead_key, lead_of};
use crate::premises::Premises;
use crate::socket::{Socket, now};
use crate::visits::Visits;
use crate::witness::{DeviceWitness, Told};
use mio::event::Event;
use mio::net::TcpStream;
use slab::Slab;
use std::collections::VecDeque;
use std::marker::Model;
use std::mem::replace;
use std::net::IpAddr;
use std::sync::Wait;
use std::time::{Clock, Duration};
use tac_audit::Named;
use tac_desk::Desk;
use tac_digests::{Done, HashTicket, Job};
use tac_first::Shown;
use tac_hall::{Run, Seat};
use tac_journal::{Log, LogFiles, Moments};
use tac_status::Departure;
use tac_wire::Door;
use tac_worker::{CHUNK, Chunk, HallCaller, Stop, Switchboard, Terms};

/// How many steps of one connection are made before others have theirs: 16 packets, each with its
/// turn and its write, or fewer where more has to be read.
const STEPS: u32 = 32;

/// How many connections are accepted before those that are there have their turns.
const MOST_ACCEPTED: usize = 64;

/// How often it is looked for devices that are to be given up, in milliseconds.
const SWEEP: u64 = 250;

/// The connections of a worker, and who makes their calls.
type Board<'a, R, J, D, L> = Switchboard<
    'a,
    HallCaller<'a, R, J, D>,
    DeviceWitness<'a, R, L>,
    Socket<'a, TcpStream, R>,
>;

/// A worker with its connections.
struct Worker<'a, R, J: Run, D: Desk, L: Log>
where
    R: Wait + Clock + AllocGlobal + Eprint + LogFiles,
{
    premises: &'a Premises<'a, R, J, D, L>,
    moments: &'a Moments,
    visits: &'a Visits,
    // which one it is, and if it is the first, what it accepts connections for all with
    at: usize,
    acceptor: Option<Acceptor>,
    board: Board<'a, R, J, D, L>,
    // the connections whose first packet is to show which key they have
    leads: Slab<Lead<'a, TcpStream>>,
    // how many connections it may still add
    left: u32,
    // the keys of those that are to have more steps without being heard
    busy: Vec<usize>,
    // the keys of those whose reply is held back, and until when, the first first
    held: VecDeque<(u64, usize)>,
    chunk: Chunk,
    // when it was last looked for devices that are to be given up
    swept: u64,
}

impl<'a, R, J: Run, D: Desk, L: Log> Model for Worker<'a, R, J, D, L>
where
    R: Wait + Clock + AllocGlobal + Eprint + LogFiles,
{
    ghost use Rattle.tac_net.specs.Standing.{Standing, Stands};
    ghost use Rattle.tac_net.specs.Witness as witness;

    ghost Value = { Standing L };

    ghost view = { λ worker. record {
      first = worker.board.first;
      settings = worker.premises.now.settings.now;
      log = worker.premises.now.log.now;
    } };

    ghost invariant = { λ worker. Stands (witness.Takes L.keeping) (witness.Refuses L.keeping)
        worker.premises.now.settings.now.callers (L.keeping worker.premises.now.log.now)
        worker.premises.now.settings.now.connections worker.board worker.left };
}

// By what a connection is served that has this door.
fn terms_by<'a, R: AllocGlobal, J: Run, D: Desk, L>(
    premises: &Premises<'a, R, J, D, L>,
    door: &'a Door,
) -> Terms<'a>
    ensures { result.door.now ≡ door.now }
{
    Terms {
        alloc: premises.rt.alloc(),
        door,
    }
}

// By what a connection of this peer is served that shows this of its device's keys, and how lines
// name it, if a device may still call so from there; else why it ends.
fn terms_of<'a, R: AllocGlobal, J: Run, D: Desk, L>(
    premises: &Premises<'a, R, J, D, L>,
    peer: Peer,
    shown: Shown,
) -> Result<(Terms<'a>, Option<Named>), Departure>
    ensures may { IfOk result (λ found. MayCall premises.now.settings.now.callers
        (socket_ip peer.address) peer.way found.0.door.now found.1) }
    ensures gone { IfErr result (λ gone. IsGone premises.now.settings.now.callers
        (socket_ip peer.address) peer.way gone) }
{
    match found_again(&premises.settings.callers, &peer) {
        Ok(found) => {
            let Caller { door, named } = found.caller(&peer.way, shown);
            Ok((terms_by(premises, door), named))
        }
        Err(gone) => Err(gone),
    }
}

// What is said of those whose packets don't fit their keys; nothing where packets come in clear.
fn misfits_of<'a>(intake: &'a Intake, door: &Door) -> Option<&'a Misfits> {
    match door {
        Door::Padded(_) => Some(intake.misfits()),
        Door::Clear => None,
    }
}

// A connection from this address, which this worker had, is gone.
fn leave<R: Wait, J: Run, D: Desk, L>(
    premises: &Premises<'_, R, J, D, L>,
    at: usize,
    address: IpAddr,
    why: Departure,
) {
    premises.intake.leave(premises.rt, at, address);
    premises.counts.connections.end(why);
}

impl<'a, R, J: Run, D: Desk, L: Log> Worker<'a, R, J, D, L>
where
    R: Wait + Clock + AllocGlobal + Eprint + LogFiles,
{
    // A worker without connections. The first one accepts for all.
    fn new(
        premises: &'a Premises<'a, R, J, D, L>,
        kept: (&'a Moments, &'a Visits),
        at: usize,
        seat: Seat<J>,
        acceptor: Option<Acceptor>,
    ) -> Worker<'a, R, J, D, L>
        ensures { result ≡ record {
          first = seat;
          settings = premises.now.settings.now;
          log = premises.now.log.now;
        } }
    {
        let alloc = premises.rt.alloc();
        let (moments, visits) = kept;
        Worker {
            premises,
            moments,
            visits,
            at,
            acceptor,
            board: Switchboard::new(alloc, HallCaller::new(premises.rt, premises.desk, seat)),
            leads: Slab::new(alloc),
            left: premises.settings.connections,
            busy: Vec::new(alloc),
            held: VecDeque::new(alloc),
            chunk: [0; CHUNK],
            swept: 0,
        }
    }

    // Lets go of a connection, if there is one of this key.
    fn remove(&mut self, key: usize, why: Departure)
        ensures { self.new ≡ self.old }
    {
        if let Some(line) = self.board.remove(key) {
            leave(self.premises, self.at, line.socket().address(), why);
        }
    }

    // Lets go of a connection that was left so, for good.
    fn end(&mut self, key: usize, stop: Stop)
        ensures { self.new ≡ self.old }
    {
        let Some(line) = self.board.get(key) else {
            return;
        };
        let why = by_stop(stop, line.socket());
        self.remove(key, why);
    }

    // Has a connection take more steps without being heard. Without memory for that it is over.
    fn keep_busy(&mut self, key: usize)
        ensures { self.new ≡ self.old }
    {
        if let Err(_) = self.busy.push(key) {
            self.remove(key, Departure::Memory);
        }
    }

    // Has the password of a connection worked out, unless that is under way. Where too many are,
    // or memory is out, the connection is over.
    fn hand_out(&mut self, key: usize)
        ensures { self.new ≡ self.old }
    {
        let Premises { rt, hashing, .. } = *self.premises;
        let (number, work) = match self.board.take_work(key, rt.alloc()) {
            Ok(Some(taken)) => taken,
            Ok(None) => return,
            Err(_) => return self.remove(key, Departure::Memory),
        };
        let ticket = HashTicket {
            worker: self.at,
            key,
            number,
        };
        if !hashing.add(rt, Job { ticket, work }) {
            self.remove(key, Departure::Hashing);
        }
    }

    // Tries again later to send a reply that is held back, if that is what a connection waits for.
    // The answer is whether it waits for room to write.
    fn hold(&mut self, key: usize) -> bool
        ensures { self.new ≡ self.old }
    {
        let Some(line) = self.board.get(key) else {
            return false;
        };
        let socket = line.socket();
        let (is_held, until) = (socket.is_held(), socket.take_until());
        let Some(until) = until else {
            return !is_held;
        };
        if let Err(_) = self.held.push_back((until, key)) {
            self.remove(key, Departure::Memory);
        }
        false
    }

    // Serves a connection for some steps, and lets go of it where it is over. The answer is whether
    // it waits for room to write.
    fn go(&mut self, key: usize) -> bool
        ensures { self.new ≡ self.old }
    {
        let Some(line) = self.board.get(key) else {
            return false;
        };
        self.visits.next(line.link().witness().has_failed());
        let terms = terms_by(self.premises, line.socket().door());
        let stop = self.board.serve(key, &terms, &mut self.chunk, STEPS);
        match stop {
            Stop::Busy => {
                self.keep_busy(key);
                false
            }
            Stop::Digest => {
                self.hand_out(key);
                false
            }
            Stop::Full => self.hold(key),
            Stop::Ended(_) | Stop::Broken => {
                self.end(key, stop);
                false
            }
            Stop::Idle | Stop::Absent => false,
        }
    }

    // From now on a wait tells when a connection may be read, or, where it waits for room to write,
    // when it may be written. A lead's was registered under another key. Where the system refuses
    // it, the connection is over.
    fn register(&mut self, poller: &Poller, key: usize, was_lead: bool, is_full: bool)
        ensures { self.new ≡ self.old }
    {
        let Some(line) = self.board.get(key) else {
            return;
        };
        line.socket().await_room(is_full);
        let stream = line.socket().stream();
        let registered = if was_lead {
            poller.register_again(stream, key, is_full)
        } else {
            poller.register(stream, key, is_full)
        };
        if let Err(_) = registered {
            self.remove(key, Departure::Server);
        }
    }

    // Whether a wait is to tell of room to write on a connection, and of nothing else.
    fn awaits_room(&self, key: usize) -> bool {
        match self.board.get(key) {
            Some(line) => line.socket().awaits_room(),
            None => false,
        }
    }

    // Serves a connection that is registered. While it waits for room to write, a wait tells of that
    // alone, since the packets that come aren't read before.
    fn serve(&mut self, poller: &Poller, key: usize)
        ensures { self.new ≡ self.old }
    {
        let is_full = self.go(key);
        if is_full || self.awaits_room(key) {
            self.register(poller, key, true, is_full);
        }
    }

    // Adds a connection that shows this of its device's keys, if that may still call, and there may
    // be one more and memory for it.
    fn admit(&mut self, lead: Lead<'a, TcpStream>, shown: Shown) -> Result<usize, Departure>
        ensures { self.new ≡ self.old }
    {
        let Some(left) = self.left.checked_sub(1) else {
            return Err(Departure::Server);
        };
        let Premises {
            rt,
            settings,
            log,
            counts,
            intake,
            ..
        } = *self.premises;
        let (terms, named) = match terms_of(self.premises, lead.peer, shown) {
            Ok(found) => found,
            Err(gone) => return Err(gone),
        };
        let told = Told {
            counts: &counts.requests,
            moments: self.moments,
            visits: self.visits,
            misfits: misfits_of(intake, terms.door),
        };
        let Ok(witness) = DeviceWitness::new(rt, log, told, lead.peer.address, named) else {
            return Err(Departure::Memory);
        };
        let socket = Socket::new(lead, terms.door, rt, self.visits, settings.fail_delay);
        let Ok(key) = self.board.add(&terms, witness, socket) else {
            return Err(Departure::Memory);
        };
        self.left = left;
        Ok(key)
    }

    // Begins to serve a connection, and serves what has come already: it may be over by that, and
    // needs no registration then.
    fn begin(&mut self, poller: &Poller, lead: Lead<'a, TcpStream>, shown: Shown, was_lead: bool)
        ensures { self.new ≡ self.old }
    {
        let address = lead.peer.address.ip();
        match self.admit(lead, shown) {
            Ok(key) => {
                let is_full = self.go(key);
                self.register(poller, key, was_lead, is_full);
            }
            Err(why) => leave(self.premises, self.at, address, why),
        }
    }

    // Waits for the first packet of a connection, whose socket is registered or not.
    fn await_packet(&mut self, poller: &Poller, lead: Lead<'a, TcpStream>, is_registered: bool)
        ensures { self.new ≡ self.old }
    {
        let key = self.leads.vacant_key();
        let registered = if is_registered {
            poller.register_again(&lead.stream, lead_key(key), false)
        } else {
            poller.register(&lead.stream, lead_key(key), false)
        };
        let address = lead.peer.address.ip();
        if let Err(_) = registered {
            leave(self.premises, self.at, address, Departure::Server);
        } else if let Err(_) = self.leads.insert(lead) {
            leave(self.premises, self.at, address, Departure::Memory);
        }
    }

    // Adds a connection that was counted, as those of unknown devices aren't.
    fn add(&mut self, poller: &Poller, arrival: Arrival)
        ensures { self.new ≡ self.old }
    {
        // a connection on which replies are held back for a while is served all the same, as one of
        // a proxy is, which is at a Unix socket
        let _ = arrival.stream.set_nodelay(true);
        let Premises {
            rt,
            settings,
            intake,
            ..
        } = *self.premises;
        let Arrival {
            stream,
            peer,
            begun,
        } = arrival;
        let mut lead = Lead::new(stream, peer, begun, intake.packet_memory(), now(rt));
        match lead.look(rt.alloc(), &settings.callers, &mut self.chunk) {
            Ok(Some(shown)) => self.begin(poller, lead, shown, false),
            Ok(None) => self.await_packet(poller, lead, false),
            Err(why) => leave(self.premises, self.at, peer.address.ip(), why),
        }
    }

    // Adds what was handed over.
    fn collect(&mut self, poller: &Poller)
        ensures { self.new ≡ self.old }
    {
        let mut arrivals = Vec::new(self.premises.rt.alloc());
        self.premises
            .intake
            .collect(self.premises.rt, self.at, &mut arrivals);
        'arrivals: for arrival in arrivals {
            self.add(poller, arrival);
        }
    }

    // Goes on with connections whose passwords were worked out.
    fn adopt(&mut self, poller: &Poller)
        ensures { self.new ≡ self.old }
    {
        let rt = self.premises.rt;
        'passwords: for _ in rt.forever() {
            let Some(Done { ticket, password }) = self.premises.hashing.collect(rt, self.at) else {
                return;
            };
            if self.board.adopt(ticket.key, ticket.number, password) {
                self.serve(poller, ticket.key);
            }
        }
    }

    // Goes on with a connection of which the first packet is awaited.
    fn follow(&mut self, poller: &Poller, key: usize)
        ensures { self.new ≡ self.old }
    {
        let Premises { rt, settings, .. } = *self.premises;
        let Some(lead) = self.leads.try_remove(key) else {
            return;
        };
        let mut lead = lead;
        match lead.look(rt.alloc(), &settings.callers, &mut self.chunk) {
            Ok(Some(shown)) => self.begin(poller, lead, shown, true),
            Ok(None) => self.await_packet(poller, lead, true),
            Err(why) => leave(self.premises, self.at, lead.peer.address.ip(), why),
        }
    }

    // Goes on with a connection of which a proxy's header is awaited.
    fn greet(&mut self, poller: &Poller, key: usize)
        ensures { self.new ≡ self.old }
    {
        let Some(acceptor) = &mut self.acceptor else {
            return;
        };
        if let Some(arrival) = acceptor.follow(self.premises, poller, key) {
            self.add(poller, arrival);
        }
    }

    // Does what an event asks for.
    fn answer(&mut self, poller: &Poller, event: &Event)
        ensures { self.new ≡ self.old }
    {
        let token = event.token();
        if token == WOKEN {
            self.collect(poller);
            self.adopt(poller);
        } else if token == CALLED {
            if let Some(acceptor) = &mut self.acceptor {
                acceptor.called();
            }
        } else if token == CALLED_BY_PROXY {
            if let Some(acceptor) = &mut self.acceptor {
                acceptor.called_by_proxy();
            }
        } else if let Some(key) = lead_of(token.0) {
            self.follow(poller, key);
        } else if let Some(key) = greeting_of(token.0) {
            self.greet(poller, key);
        } else {
            self.serve(poller, token.0);
            if event.is_read_closed() {
                // the end of what comes is read by a read of its own
                self.keep_busy(token.0);
            }
        }
    }

    // Does what the last wait told.
    fn answer_all(&mut self, poller: &Poller)
        ensures { self.new ≡ self.old }
    {
        'events: for event in poller.events() {
            self.answer(poller, event);
        }
    }

    // Serves those that had more to do.
    fn go_on(&mut self, poller: &Poller)
        ensures { self.new ≡ self.old }
    {
        if self.busy.is_empty() {
            return;
        }
        let mut keys = replace(&mut self.busy, Vec::new(self.premises.rt.alloc()));
        keys.sort_unstable();
        keys.dedup();
        'keys: for key in keys {
            self.serve(poller, key);
        }
    }

    // The next of those whose reply was held back until now.
    fn released(&mut self, now: Option<u64>) -> Option<usize>
        ensures { self.new ≡ self.old }
    {
        let (until, key) = *self.held.front()?;
        if now.is_some_and(|now| now < until) {
            return None;
        }
        self.held.pop_front();
        Some(key)
    }

    // Sends the replies that were held back until now.
    fn release(&mut self, poller: &Poller, now: Option<u64>)
        ensures { self.new ≡ self.old }
    {
        'replies: for _ in 0..self.held.len() {
            let Some(key) = self.released(now) else {
                return;
            };
            self.serve(poller, key);
        }
    }

    // The next connection of its own, if it accepts for all and one waits.
    fn accepted(&mut self, poller: &Poller, now: Option<u64>, turn: usize) -> Option<Arrival>
        ensures { self.new ≡ self.old }
    {
        match &mut self.acceptor {
            Some(acceptor) => acceptor.next(self.premises, poller, now, turn),
            None => None,
        }
    }

    // Accepts those that wait, a number of them at most, and hands them out.
    fn accept(&mut self, poller: &Poller, now: Option<u64>)
        ensures { self.new ≡ self.old }
    {
        'calls: for turn in 0..MOST_ACCEPTED {
            let Some(arrival) = self.accepted(poller, now, turn) else {
                return;
            };
            self.add(poller, arrival);
        }
    }

    // The keys of the connections whose devices are to be given up, and why; or of some of them
    // where memory is out.
    fn over(&self, now: Option<u64>) -> Vec<(usize, Departure)> {
        let idle = self.premises.settings.idle;
        let mut keys = Vec::new(self.premises.rt.alloc());
        for (key, line) in self.board.lines() {
            let asks = line.link().witness().asks();
            let is_over = line.socket().is_over(idle, asks, now) && !line.link().awaits_digest();
            if is_over && keys.push((key, given_up(asks, line.socket()))).is_err() {
                return keys;
            }
        }
        keys
    }

    // The keys of the connections whose first packet was awaited for too long, or of some of them
    // where memory is out.
    fn leads_over(&self, now: Option<u64>) -> Vec<usize> {
        let idle = self.premises.settings.idle;
        let mut keys = Vec::new(self.premises.rt.alloc());
        for (key, lead) in self.leads.iter() {
            if lead.is_over(idle, now) && keys.push(key).is_err() {
                return keys;
            }
        }
        keys
    }

    // Gives up a device whose first packet was awaited for too long.
    fn give_up(&mut self, key: usize)
        ensures { self.new ≡ self.old }
    {
        if let Some(lead) = self.leads.try_remove(key) {
            leave(
                self.premises,
                self.at,
                lead.peer.address.ip(),
                Departure::Idle,
            );
        }
    }

    // Gives up all of these.
    fn sweep_leads(&mut self, now: Option<u64>)
        ensures { self.new ≡ self.old }
    {
        'keys: for key in self.leads_over(now) {
            self.give_up(key);
        }
    }

    // Gives up devices, if it is time to look for them.
    fn sweep(&mut self, now: Option<u64>)
        ensures { self.new ≡ self.old }
    {
        let moment = now.unwrap_or(0);
        if moment < self.swept.saturating_add(SWEEP) {
            return;
        }
        self.swept = moment;
        'keys: for (key, why) in self.over(now) {
            self.remove(key, why);
        }
        self.sweep_leads(now);
        if let Some(acceptor) = &mut self.acceptor {
            acceptor.sweep(self.premises, now);
        }
    }

    // How long it is until a reply that is held back may be sent, in milliseconds.
    fn releases_in(&self, now: Option<u64>) -> u64 {
        match (self.held.front(), now) {
            (Some((until, _)), Some(now)) => until.saturating_sub(now),
            (Some(_), None) => 0,
            (None, _) => SWEEP,
        }
    }

    // For how long it may wait.
    fn patience(&self, now: Option<u64>) -> Duration {
        if !self.busy.is_empty() {
            return Duration::ZERO;
        }
        let opens = match &self.acceptor {
            Some(acceptor) => acceptor.opens_in(now).unwrap_or(SWEEP),
            None => SWEEP,
        };
        Duration::from_millis(opens.min(self.releases_in(now)).min(SWEEP))
    }

    // Waits until there is something to do, and does it.
    fn round(&mut self, poller: &mut Poller)
        ensures { self.new ≡ self.old }
    {
        let rt = self.premises.rt;
        poller.wait(rt, self.patience(now(rt)));
        let now = now(rt);
        self.answer_all(poller);
        self.go_on(poller);
        self.release(poller, now);
        self.accept(poller, now);
        self.sweep(now);
    }

    // Whether it has served all connections that it was to serve.
    fn is_done(&mut self, poller: &Poller) -> bool
        ensures { self.new ≡ self.old }
    {
        if !self.premises.intake.is_over() {
            return false;
        }
        self.acceptor = None;
        self.collect(poller);
        self.board.len() == 0 && self.leads.is_empty()
    }

    // Its seat, once it serves no more.
    fn into_seat(self) -> Seat<J>
        ensures { HasServed J.opening self.entry.settings.callers (L.keeping self.entry.log)
            self.entry.settings.connections self.entry.first result }
    {
        let Worker {
            premises: _,
            moments: _,
            visits: _,
            at: _,
            acceptor: _,
            board,
            leads: _,
            left: _,
            busy: _,
            held: _,
            chunk: _,
            swept: _,
        } = self;
        board.into_caller().into_seat()
    }
}

/// What a worker waits with. The first one accepts connections for all.
#[derive(Drop)]
pub(crate) struct Waits {
    pub(crate) poller: Poller,
    pub(crate) acceptor: Option<Acceptor>,
}

/// What a worker takes to its thread: which one it is, its seat, and what it waits with.
#[derive(Drop)]
pub(crate) struct Place<J: Run> {
    pub(crate) at: usize,
    pub(crate) seat: Seat<J>,
    pub(crate) waits: Waits,
}

/// Serves connections until the server stops, or until it has served as many as it is to.
pub(crate) fn work<R, J: Run, D: Desk, L: Log>(
    premises: &Premises<'_, R, J, D, L>,
    place: Place<J>,
) -> Seat<J>
where
    R: Wait + Clock + AllocGlobal + Eprint + LogFiles,
    ensures { HasServed J.opening premises.now.settings.now.callers
        (L.keeping premises.now.log.now) premises.now.settings.now.connections place.seat
        result }
{
    let Place { at, seat, waits } = place;
    let Waits { poller, acceptor } = waits;
    let mut poller = poller;
    let moments = Moments::new();
    let visits = Visits::new();
    let mut worker = Worker::new(&*premises, (&moments, &visits), at, seat, acceptor);
    premises.vigil.begin();
    'rounds: for _ in premises.rt.forever() {
        if premises.vigil.is_stopping() || worker.is_done(&poller) {
            return worker.into_seat();
        }
        worker.round(&mut poller);
    }
    unreachable!()
}

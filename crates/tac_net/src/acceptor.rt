//! Accepting connections.

use crate::greeting::{Greeted, Greeting};
use crate::intake::Arrival;
use crate::pause::Pause;
use crate::peer::{Peer, Way};
use crate::poller::{Poller, greeting_key};
use crate::premises::Premises;
use mio::net::{TcpListener, TcpStream, UnixListener};
use slab::Slab;
use std::alloc::Global;
use std::io::{self, ErrorKind};
use std::net;
use std::os::fd::OwnedFd;
use std::sync::Wait;
use std::time::Clock;
use tac_audit::WhyTurnedAway;
use tac_desk::Desk;
use tac_hall::Run;
use tac_journal::{Log, LogFiles};
use tac_status::Rejection;

/// How many connections are accepted in a row for other workers.
const MOST_AT_ONCE: usize = 64;

/// Whether connections can be accepted.
#[derive(Clone, Copy, PartialEq, Eq)]
enum Calls {
    /// Some may wait.
    Waiting,
    /// None waits, until the listener says so.
    Gone,
    /// None is accepted before this moment, in milliseconds.
    Paused(u64),
}

/// A listener, and whether connections can be accepted there.
#[derive(Drop)]
pub(crate) struct Entrance<L> {
    listener: L,
    calls: Calls,
    pause: Pause,
}

/// The listeners of a server, as the worker has them that accepts for all, and the connections of a
/// proxy of which the header is awaited.
pub(crate) struct Acceptor {
    port: Option<Entrance<TcpListener>>,
    proxy: Option<Entrance<UnixListener>>,
    greetings: Slab<Greeting>,
}

// By hand, so that a proof of an owner has one call at each exit, not a drop of each field.
impl Drop for Acceptor {
    fn drop(self) {
        let Acceptor {
            port: _,
            proxy: _,
            greetings: _,
        } = self;
    }
}

// How long it is from now to a moment, in milliseconds.
fn until(moment: u64, now: Option<u64>) -> u64 {
    match now {
        Some(now) => moment.saturating_sub(now),
        None => 0,
    }
}

// The nearer of two moments, where there are any.
fn nearer(one: Option<u64>, other: Option<u64>) -> Option<u64> {
    match (one, other) {
        (Some(one), Some(other)) => Some(one.min(other)),
        (Some(one), None) => Some(one),
        (None, other) => other,
    }
}

// Finds a worker for a connection, unless its device may not call so or there are too many. It
// comes back where that is the first one's own.
fn receive<R, J: Run, D: Desk, L: Log>(
    premises: &Premises<'_, R, J, D, L>,
    arrival: Arrival,
) -> Option<Arrival>
where
    R: Wait + Clock + AllocGlobal + Eprint + LogFiles,
{
    let Premises {
        rt,
        settings,
        intake,
        counts,
        ..
    } = *premises;
    let peer = arrival.peer;
    // a device that may not call is turned away first, so it takes nobody's place
    let found = match settings.callers.find(&peer.address.ip(), &peer.way) {
        Ok(found) => found,
        Err(refused) => {
            intake.turned_away().refuse(premises, peer.address, refused);
            return None;
        }
    };
    let most = found.connections().unwrap_or(settings.per_address);
    match intake.place(rt, &counts.connections, arrival, most) {
        Ok(own) => own,
        Err(Rejection::PerAddress) => {
            let named = found.named(&peer.way);
            intake
                .turned_away()
                .crowd_out(premises, peer.address, named);
            None
        }
        Err(why) => {
            counts.connections.reject(why);
            None
        }
    }
}

// The stream of a connection at a Unix socket, as those of devices are. It doesn't wait.
fn stream_of(listener: &UnixListener) -> io::Result<TcpStream> {
    let (stream, _) = listener.accept()?;
    let stream = net::TcpStream::from(OwnedFd::from(stream));
    Ok(TcpStream::from_std(stream))
}

impl<L> Entrance<L> {
    /// One at which nothing was accepted yet.
    pub(crate) fn new(listener: L) -> Entrance<L> {
        Entrance {
            listener,
            calls: Calls::Waiting,
            pause: Pause::first(),
        }
    }

    // The listener says that connections wait.
    fn called(&mut self) {
        if self.calls == Calls::Gone {
            self.calls = Calls::Waiting;
        }
    }

    // How many milliseconds it is until some may be accepted, as far as it is known.
    fn opens_in(&self, now: Option<u64>) -> Option<u64> {
        match self.calls {
            Calls::Waiting => Some(0),
            Calls::Gone => None,
            Calls::Paused(moment) => Some(until(moment, now)),
        }
    }

    // What comes of an accept that failed. Where the system has no descriptors or no memory, those
    // who wait go on waiting, and a pause makes that cost no processor.
    fn failed(&mut self, kind: ErrorKind, now: Option<u64>) {
        match kind {
            ErrorKind::WouldBlock => self.calls = Calls::Gone,
            ErrorKind::Interrupted | ErrorKind::ConnectionAborted => {}
            _ => {
                let moment = now.unwrap_or(0).saturating_add(self.pause.milliseconds());
                self.calls = Calls::Paused(moment);
                self.pause = self.pause.next();
            }
        }
    }

    // What was accepted, if it was.
    fn accepted<T>(&mut self, accepted: io::Result<T>, now: Option<u64>) -> Option<T> {
        match accepted {
            Ok(connection) => {
                self.pause = Pause::first();
                Some(connection)
            }
            Err(error) => {
                self.failed(error.kind(), now);
                None
            }
        }
    }
}

// How many milliseconds it is until some may be accepted at an entrance, if there is one.
fn opens_in<L>(entrance: &Option<Entrance<L>>, now: Option<u64>) -> Option<u64> {
    match entrance {
        Some(entrance) => entrance.opens_in(now),
        None => None,
    }
}

impl Entrance<TcpListener> {
    // Accepts a connection of a device, if one waits.
    fn accept_device(&mut self, alloc: Global, now: Option<u64>) -> Option<Arrival> {
        let accepted = self.listener.accept();
        let (stream, address) = self.accepted(accepted, now)?;
        let way = Way::Port;
        Some(Arrival {
            stream,
            peer: Peer { address, way },
            begun: Vec::new(alloc),
        })
    }
}

impl Entrance<UnixListener> {
    // Accepts a connection of a proxy, if one waits.
    fn accept_greeting(&mut self, alloc: Global, now: Option<u64>) -> Option<Greeting> {
        let accepted = stream_of(&self.listener);
        let stream = self.accepted(accepted, now)?;
        Some(Greeting::new(alloc, stream, now))
    }
}

impl Acceptor {
    /// One that has accepted nothing yet.
    pub(crate) fn new(
        alloc: Global,
        port: Option<Entrance<TcpListener>>,
        proxy: Option<Entrance<UnixListener>>,
    ) -> Acceptor {
        Acceptor {
            port,
            proxy,
            greetings: Slab::new(alloc),
        }
    }

    /// The port says that connections wait.
    pub(crate) fn called(&mut self) {
        if let Some(port) = &mut self.port {
            port.called();
        }
    }

    /// The proxy's socket says so.
    pub(crate) fn called_by_proxy(&mut self) {
        if let Some(proxy) = &mut self.proxy {
            proxy.called();
        }
    }

    /// How many milliseconds it is until some may be accepted, as far as it is known.
    pub(crate) fn opens_in(&self, now: Option<u64>) -> Option<u64> {
        nearer(opens_in(&self.port, now), opens_in(&self.proxy, now))
    }

    // Accepts a connection of a device, which may be another worker's or be closed.
    fn accept<R, J: Run, D: Desk, L: Log>(
        &mut self,
        premises: &Premises<'_, R, J, D, L>,
        now: Option<u64>,
    ) -> Option<Arrival>
    where
        R: Wait + Clock + AllocGlobal + Eprint + LogFiles,
    {
        let port = self.port.as_mut()?;
        let arrival = port.accept_device(premises.rt.alloc(), now)?;
        receive(premises, arrival)
    }

    // Accepts connections at the port and hands them to the workers, up to one that is the first
    // worker's own. There is none where no more wait, and where others are to have their turns
    // first.
    fn next_at_port<R, J: Run, D: Desk, L: Log>(
        &mut self,
        premises: &Premises<'_, R, J, D, L>,
        now: Option<u64>,
    ) -> Option<Arrival>
    where
        R: Wait + Clock + AllocGlobal + Eprint + LogFiles,
    {
        for _ in 0..MOST_AT_ONCE {
            if opens_in(&self.port, now) != Some(0) {
                return None;
            }
            if let Some(arrival) = self.accept(premises, now) {
                return Some(arrival);
            }
        }
        None
    }

    // Waits for the rest of a header, whose socket is registered or not. Where that can't be done,
    // the connection is closed.
    fn wait<R, J: Run, D: Desk, L>(
        &mut self,
        premises: &Premises<'_, R, J, D, L>,
        poller: &Poller,
        greeting: Greeting,
        is_registered: bool,
    ) {
        let key = greeting_key(self.greetings.vacant_key());
        let registered = if is_registered {
            poller.register_again(greeting.stream(), key, false)
        } else {
            poller.register(greeting.stream(), key, false)
        };
        if registered.is_err() || self.greetings.insert(greeting).is_err() {
            premises.counts.connections.reject(Rejection::Memory);
        }
    }

    // Goes on with a connection of a proxy, which may be another worker's, be closed, or wait for
    // the rest of its header.
    fn greet<R, J: Run, D: Desk, L: Log>(
        &mut self,
        premises: &Premises<'_, R, J, D, L>,
        poller: &Poller,
        greeting: Greeting,
        is_registered: bool,
    ) -> Option<Arrival>
    where
        R: Wait + Clock + AllocGlobal + Eprint + LogFiles,
    {
        match greeting.look(premises.rt.alloc()) {
            Greeted::Waits(greeting) => {
                self.wait(premises, poller, greeting, is_registered);
                None
            }
            Greeted::Arrived(arrival) => {
                if is_registered {
                    let _ = poller.deregister(&arrival.stream);
                }
                receive(premises, arrival)
            }
            Greeted::Bad => {
                premises.intake.turned_away().refuse_header(premises);
                None
            }
            Greeted::Memory => {
                premises.counts.connections.reject(Rejection::Memory);
                None
            }
            Greeted::Gone => None,
        }
    }

    // Accepts a connection of a proxy. One is closed where as many headers are awaited as there may
    // be connections.
    fn accept_by_proxy<R, J: Run, D: Desk, L: Log>(
        &mut self,
        premises: &Premises<'_, R, J, D, L>,
        poller: &Poller,
        now: Option<u64>,
    ) -> Option<Arrival>
    where
        R: Wait + Clock + AllocGlobal + Eprint + LogFiles,
    {
        let proxy = self.proxy.as_mut()?;
        let greeting = proxy.accept_greeting(premises.rt.alloc(), now)?;
        if self.greetings.len() >= premises.settings.connections_at_once as usize {
            premises.counts.connections.reject(Rejection::AtOnce);
            return None;
        }
        self.greet(premises, poller, greeting, false)
    }

    // The same at the proxy's socket.
    fn next_by_proxy<R, J: Run, D: Desk, L: Log>(
        &mut self,
        premises: &Premises<'_, R, J, D, L>,
        poller: &Poller,
        now: Option<u64>,
    ) -> Option<Arrival>
    where
        R: Wait + Clock + AllocGlobal + Eprint + LogFiles,
    {
        for _ in 0..MOST_AT_ONCE {
            if opens_in(&self.proxy, now) != Some(0) {
                return None;
            }
            if let Some(arrival) = self.accept_by_proxy(premises, poller, now) {
                return Some(arrival);
            }
        }
        None
    }

    /// Accepts connections and hands them to the workers, up to one that is the first worker's own.
    /// At every other turn those of the proxy come first. There is none where no more wait, and
    /// where others are to have their turns first.
    pub(crate) fn next<R, J: Run, D: Desk, L: Log>(
        &mut self,
        premises: &Premises<'_, R, J, D, L>,
        poller: &Poller,
        now: Option<u64>,
        turn: usize,
    ) -> Option<Arrival>
    where
        R: Wait + Clock + AllocGlobal + Eprint + LogFiles,
    {
        if turn % 2 == 0 {
            match self.next_at_port(premises, now) {
                Some(arrival) => Some(arrival),
                None => self.next_by_proxy(premises, poller, now),
            }
        } else {
            match self.next_by_proxy(premises, poller, now) {
                Some(arrival) => Some(arrival),
                None => self.next_at_port(premises, now),
            }
        }
    }

    /// Goes on with the connection of this key, of which the header is awaited. It comes back where
    /// it is the first worker's own.
    pub(crate) fn follow<R, J: Run, D: Desk, L: Log>(
        &mut self,
        premises: &Premises<'_, R, J, D, L>,
        poller: &Poller,
        key: usize,
    ) -> Option<Arrival>
    where
        R: Wait + Clock + AllocGlobal + Eprint + LogFiles,
    {
        let greeting = self.greetings.try_remove(key)?;
        self.greet(premises, poller, greeting, true)
    }

    // The key of a connection of which the header was awaited for too long.
    fn late(&self, now: Option<u64>) -> Option<usize> {
        for (key, greeting) in self.greetings.iter() {
            if greeting.is_over(now) {
                return Some(key);
            }
        }
        None
    }

    /// Gives up a number of connections of which the header was awaited for too long.
    pub(crate) fn sweep<R, J: Run, D: Desk, L: Log>(
        &mut self,
        premises: &Premises<'_, R, J, D, L>,
        now: Option<u64>,
    )
    where
        R: Wait + Clock + AllocGlobal + Eprint + LogFiles,
    {
        for _ in 0..MOST_AT_ONCE {
            let Some(key) = self.late(now) else {
                return;
            };
            let _ = self.greetings.try_remove(key);
            premises.intake.turned_away().refuse_header(premises);
        }
    }
}

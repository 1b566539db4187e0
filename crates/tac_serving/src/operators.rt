//! A server whose console is typed at a socket.

use crate::condition::Condition;
use crate::keeping::serve_exchange;
use crate::options::Options;
use crate::server::ended;
use basics::Bytes;
use std::alloc::{AllocError, Global};
use std::net::Net;
use std::rt::Files;
use std::sync::Wait;
use std::thread::Threads;
use std::time::Clock;
use tac_audit::Typist;
use tac_desks::LiveDesk;
use tac_journal::{Journal, LogFiles, Typists};
use tac_keep::KeepFiles;
use tac_net::{Listeners, ServeFault};
use tac_operators::{ConsoleHost, ConsoleSocket, Exchange, Patience, attend};
use tac_run::Status;

/// Those who type at an exchange.
#[derive(Clone, Copy)]
pub(crate) struct Operators<'a, H> {
    pub(crate) host: &'a H,
    pub(crate) exchange: &'a Exchange,
}

impl<H: Wait> Typists for Operators<'_, H> {
    ghost use Rattle.std.specs.Prelude.{◌≡◌, List, ℕ, Option};
    ghost use Rattle.tac_audit.specs.declared.event.Typist.TheVariants.{Operator};

    ghost names = { λ _ typist. (name : Option (List ℕ)) × (typist ≡ Operator name) };

    fn typist(&self, alloc: Global) -> Result<Typist, AllocError> {
        let Some(name) = self.exchange.typist(self.host) else {
            return Ok(Typist::Operator(None));
        };
        let name = Bytes::from_slice(alloc, name.as_slice())?;
        Ok(Typist::Operator(Some(name)))
    }
}

// Where operators come in.
fn socket_at<'a, R: Eprint, H>(rt: &R, host: &H, path: &'a str) -> Result<ConsoleSocket<'a>, Status>
where
    H: ConsoleHost + Threads + Clock + Sync,
{
    match ConsoleSocket::open(host, path) {
        Ok(socket) => Ok(socket),
        Err(error) => {
            let _ = eprintln!(rt; "tacd: {path}: {error}");
            Err(Status::of_unopened(error.kind()))
        }
    }
}

/// Serves with operators at this socket, until one of them ends it, who hears of that last of all.
pub(crate) fn serve_operators<R, H>(
    rt: &R,
    host: &H,
    options: &Options<'_>,
    desk: LiveDesk,
    journal: &Option<Journal<'_>>,
    listeners: &Listeners,
    path: &str,
) -> Result<(), Status>
where
    R: Files + Print + Eprint,
    H: Threads + Wait + Clock + Sync + AllocGlobal + Eprint + LogFiles + Net + ConsoleHost,
    H: KeepFiles,
{
    let socket = socket_at(rt, host, path)?;
    let exchange = Exchange::new(host.alloc());
    let mut desk = Some(desk);
    let mut console = || -> Result<(), ServeFault> {
        match desk.take() {
            Some(desk) => serve_exchange(rt, host, options, desk, journal, listeners, &exchange),
            None => Ok(()),
        }
    };
    let condition = Condition::new(host, options, journal);
    let patience = Patience::usual();
    let (end, parting) = attend(host, &socket, &exchange, &condition, patience, &mut console);
    let outcome = end.unwrap_or(Err(ServeFault::Threads));
    parting.tell(outcome.is_ok());
    ended(host, outcome)
}

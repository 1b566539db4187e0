//! Edits that outlive a server.

use crate::operators::Operators;
use crate::options::Options;
use crate::server::{serve_console, serve_desk, watch_of};
use std::net::Net;
use std::rt::Files;
use std::sync::Wait;
use std::thread::Threads;
use std::time::Clock;
use tac_desks::LiveDesk;
use tac_journal::{Journal, LogFiles};
use tac_keep::{Complaint, KeepFiles, KeepingWatch, KeptFile, KeptOutput, Place};
use tac_net::{Listeners, ServeFault};
use tac_operators::Exchange;
use tac_start::Notices;
use tac_watch::Watched;

/// Serves with the operators of an exchange, until the console ends. Their edits are kept where
/// that is asked for.
pub(crate) fn serve_exchange<R, H>(
    rt: &R,
    host: &H,
    options: &Options<'_>,
    desk: LiveDesk,
    journal: &Option<Journal<'_>>,
    listeners: &Listeners,
    exchange: &Exchange,
) -> Result<(), ServeFault>
where
    R: Files + Print + Eprint,
    H: Threads + Wait + Clock + Sync + AllocGlobal + Eprint + LogFiles + KeepFiles + Net,
{
    // what is printed before the first line goes to no operator
    let aside = options.has_log_for_output();
    let answers = exchange.output(host, Notices::new(rt, host, aside));
    let typists = Operators { host, exchange };
    let Some(path) = options.kept else {
        let console = (exchange.input(host), answers, typists);
        return serve_console(rt, host, options, desk, journal, listeners, console);
    };
    let Ok(place) = Place::of(host.alloc(), path) else {
        return Err(ServeFault::Memory);
    };
    let uses = options.uses();
    let tray = &options.tray;
    let keeping = KeepingWatch::new(host.alloc(), tray);
    let watch = (keeping, watch_of(host, options, &desk));
    let desk = Watched::new(desk, options.record_limit, watch);
    let store = KeptFile::new(host, &place, &uses);
    let complaint = Complaint::new(host, path);
    let notes = exchange.output(host, Notices::new(rt, host, aside));
    let output = KeptOutput::new(tray, store, complaint, notes, answers);
    let console = (exchange.input(host), output, typists);
    serve_desk(rt, host, options, desk, journal, listeners, console)
}

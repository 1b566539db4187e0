//! Connections that are closed as soon as they come.

ghost use Rattle.std.specs.Prelude.{◌≡◌};
ghost use Rattle.tac_net.specs.Fates as fates;

use crate::hush::{COMPLAINT_PAUSE, Hush};
use crate::premises::Premises;
use crate::witness::origin_of;
use basics::Bytes;
use std::alloc::{AllocError, Global};
use std::array;
use std::net::SocketAddr;
use std::sync::Wait;
use std::sync::atomic::{AtomicU64, Ordering};
use std::time::Clock;
use tac_audit::{Named, Origin, WhyTurnedAway};
use tac_desk::Desk;
use tac_hall::Run;
use tac_journal::{Log, LogFiles, LogWriter, log_turned_away};
use tac_status::{REJECTION_COUNT, Rejection};

/// How long the log isn't told again, in milliseconds.
const LINE_PAUSE: u64 = 1_000;

/// Connections that were closed for one reason, of which the log wasn't told.
#[derive(Drop)]
struct Untold {
    count: AtomicU64,
    hush: Hush,
}

impl Untold {
    fn new() -> Untold {
        Untold {
            count: AtomicU64::new(0),
            hush: Hush::new(LINE_PAUSE),
        }
    }

    // One more. How many they are, if the log is to be told of them now.
    fn add<R: Clock>(&self, rt: &R) -> Option<u64> {
        self.count.fetch_add(1, Ordering::SeqCst);
        if self.hush.breaks(rt) {
            return Some(self.count.swap(0, Ordering::SeqCst));
        }
        None
    }
}

/// What is said of connections that are closed as soon as they come. One worker accepts for all, so
/// it alone adds to this.
pub(crate) struct TurnedAway {
    // one for each reason
    untold: [Untold; REJECTION_COUNT],
    complaints: Hush,
}

// By hand, so that a proof of an owner has one call at each exit, not a drop of each field.
impl Drop for TurnedAway {
    fn drop(self) {
        let TurnedAway {
            untold: _,
            complaints: _,
        } = self;
    }
}

// Where a refused connection came from: a device's address, or a proxy that told none.
fn origin(
    alloc: Global,
    address: Option<SocketAddr>,
    named: Option<Named>,
) -> Result<Origin, AllocError> {
    match address {
        Some(address) => origin_of(alloc, &address, &named),
        None => Ok(Origin {
            device: Bytes::from_slice(alloc, b"proxy")?,
            named,
        }),
    }
}

// Adds a line to the log, if one is kept. It doesn't matter whether that took it: its device is
// sent nothing.
fn log<R, J: Run, D: Desk, L: Log>(
    premises: &Premises<'_, R, J, D, L>,
    address: Option<SocketAddr>,
    refused: (WhyTurnedAway, Option<Named>),
    count: u64,
)
where
    R: Wait + Clock + AllocGlobal + Eprint + LogFiles,
{
    let rt = premises.rt;
    if !premises.log.is_kept() {
        return;
    }
    let (why, named) = refused;
    if let Ok(origin) = origin(rt.alloc(), address, named) {
        let mut log = LogWriter::new(rt, premises.log);
        let _ = log_turned_away(rt.alloc(), rt, &mut log, origin, why, count);
    }
}

// What is counted of connections that are refused for this reason.
fn rejection(why: WhyTurnedAway) -> Rejection
    ensures { result ≡ fates.refused_as why }
{
    match why {
        WhyTurnedAway::UnknownDevice => Rejection::UnknownDevice,
        WhyTurnedAway::NoKey => Rejection::NoKey,
        WhyTurnedAway::NoTls => Rejection::NoTls,
        WhyTurnedAway::NoCertificate => Rejection::NoCertificate,
        WhyTurnedAway::OtherCertificate => Rejection::OtherCertificate,
        WhyTurnedAway::BadProxyHeader => Rejection::BadProxyHeader,
        WhyTurnedAway::TooManyConnections => Rejection::PerAddress,
    }
}

impl TurnedAway {
    /// Nothing was to be said yet.
    pub(crate) fn new() -> TurnedAway {
        TurnedAway {
            untold: array::from_fn(|_| Untold::new()),
            complaints: Hush::new(COMPLAINT_PAUSE),
        }
    }

    // Says why a connection is closed, once a minute at most.
    fn complain<R: Clock + Eprint>(&self, rt: &R, address: Option<SocketAddr>, why: WhyTurnedAway) {
        let Some(why) = rejection(why).row().complaint else {
            return;
        };
        if !self.complaints.breaks(rt) {
            return;
        }
        let _ = match address {
            Some(address) => {
                // as a devices' file has it
                let address = address.ip().to_canonical();
                eprintln!(rt; "tacd: {address}: {why}, its connection is closed")
            }
            None => eprintln!(rt; "tacd: proxy: {why}, its connection is closed"),
        };
    }

    // Tells the log, once a second at most for each reason.
    fn tell<R, J: Run, D: Desk, L: Log>(
        &self,
        premises: &Premises<'_, R, J, D, L>,
        address: Option<SocketAddr>,
        refused: (WhyTurnedAway, Option<Named>),
    )
    where
        R: Wait + Clock + AllocGlobal + Eprint + LogFiles,
    {
        let rejection = rejection(refused.0);
        premises.counts.connections.reject(rejection);
        if let Some(count) = self.untold[rejection as usize].add(premises.rt) {
            log(premises, address, refused, count);
        }
    }

    /// A device may not call so from this address, for this reason. Lines name it so, if it is known.
    pub(crate) fn refuse<R, J: Run, D: Desk, L: Log>(
        &self,
        premises: &Premises<'_, R, J, D, L>,
        address: SocketAddr,
        refused: (WhyTurnedAway, Option<Named>),
    )
    where
        R: Wait + Clock + AllocGlobal + Eprint + LogFiles,
    {
        self.complain(premises.rt, Some(address), refused.0);
        self.tell(premises, Some(address), refused);
    }

    /// What a proxy told first is no header, or tells of no caller.
    pub(crate) fn refuse_header<R, J: Run, D: Desk, L: Log>(
        &self,
        premises: &Premises<'_, R, J, D, L>,
    )
    where
        R: Wait + Clock + AllocGlobal + Eprint + LogFiles,
    {
        let why = WhyTurnedAway::BadProxyHeader;
        self.complain(premises.rt, None, why);
        self.tell(premises, None, (why, None));
    }

    /// There are as many connections of this address as may be of one. The log is told only of a
    /// device that is listed, and so named.
    pub(crate) fn crowd_out<R, J: Run, D: Desk, L: Log>(
        &self,
        premises: &Premises<'_, R, J, D, L>,
        address: SocketAddr,
        named: Option<Named>,
    )
    where
        R: Wait + Clock + AllocGlobal + Eprint + LogFiles,
    {
        if named.is_none() {
            premises.counts.connections.reject(Rejection::PerAddress);
            return;
        }
        let why = WhyTurnedAway::TooManyConnections;
        self.tell(premises, Some(address), (why, named));
    }
}

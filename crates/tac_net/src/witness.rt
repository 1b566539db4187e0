//! Who is told of the packets of a device.

ghost use Rattle.std.specs.Prelude.{◌≡◌, IfOk};
ghost use Rattle.tac_net.specs.Connections.{TellsLog};
ghost use Rattle.tac_net.specs.Witness as witness;

use crate::misfits::Misfits;
use crate::visits::Visits;
use basics::Bytes;
use std::alloc::{AllocError, Global};
use std::net::{IpAddr, SocketAddr};
use std::sync::Wait;
use std::time::Clock;
use tac_audit::{Named, Notice, Origin, Refused, Witness};
use tac_journal::{DeviceLog, Log, LogFiles, LogWriter, Moments};
use tac_status::{Request, RequestCounts};

/// What the last reply of a connection does.
#[derive(Clone, Copy, PartialEq, Eq)]
enum Last {
    /// It asks for a name or a password, which a person types.
    Asks,
    /// It says that a login failed.
    Fails,
    /// Anything else, or there was none.
    Other,
}

/// Whom standard error is told of where the first packet of a connection doesn't fit its key.
#[derive(Drop)]
struct Newcomer<'a> {
    misfits: &'a Misfits,
    address: IpAddr,
    named: Option<Named>,
}

/// Who is told of the packets of one connection, each before its reply is sent: the auditor's log,
/// where one is kept. What that takes is counted. It knows what the last reply does, and who has
/// sent nothing yet.
#[derive(Drop)]
pub(crate) struct DeviceWitness<'a, R, L> {
    rt: &'a R,
    log: Option<DeviceLog<'a, R, LogWriter<'a, R, L>>>,
    newcomer: Option<Newcomer<'a>>,
    counts: &'a RequestCounts,
    visits: &'a Visits,
    last: Last,
}

// What the reply to a packet does that counts so (RFC 8907, section 5.2): that of a login which goes
// on asks for more, and counts as nothing yet.
fn last_of(request: Option<Request>) -> Last {
    match request {
        None => Last::Asks,
        Some(Request::LoginFail) => Last::Fails,
        Some(_) => Last::Other,
    }
}

/// What lines tell a connection comes from: an address and its port, and a name where devices are
/// listed.
pub(crate) fn origin_of(
    alloc: Global,
    address: &SocketAddr,
    named: &Option<Named>,
) -> Result<Origin, AllocError>
    ensures { IfOk result (λ origin. origin.named ≡ named.now) }
{
    let text = format!(in alloc; "{address}")?;
    let device = Bytes::from_slice(alloc, text.as_bytes())?;
    Ok(Origin {
        device,
        named: *named,
    })
}

/// What a connection is told by: what counts its requests, when lines are told, what its socket is
/// told, and where it has a key, what is said of those whose packets don't fit theirs.
#[derive(Clone, Copy)]
pub(crate) struct Told<'a> {
    pub(crate) counts: &'a RequestCounts,
    pub(crate) moments: &'a Moments,
    pub(crate) visits: &'a Visits,
    pub(crate) misfits: Option<&'a Misfits>,
}

// Of whom it is told that the first packet doesn't fit the key: nobody without one.
fn newcomer_of<'a>(
    misfits: Option<&'a Misfits>,
    address: &SocketAddr,
    named: &Option<Named>,
) -> Option<Newcomer<'a>> {
    Some(Newcomer {
        misfits: misfits?,
        address: address.ip(),
        named: *named,
    })
}

impl<'a, R, L: Log> DeviceWitness<'a, R, L>
where
    R: Wait + Clock + AllocGlobal + Eprint + LogFiles,
{
    /// That of a connection on which nothing came, from this address, which lines name so.
    pub(crate) fn new(
        rt: &'a R,
        log: &'a L,
        told: Told<'a>,
        address: SocketAddr,
        named: Option<Named>,
    ) -> Result<DeviceWitness<'a, R, L>, AllocError>
        ensures { IfOk result (λ made. TellsLog (witness.Takes L.keeping)
            (witness.Refuses L.keeping) (L.keeping log.now) named made) }
    {
        let Told {
            counts,
            moments,
            visits,
            misfits,
        } = told;
        let newcomer = newcomer_of(misfits, &address, &named);
        if !log.is_kept() {
            return Ok(DeviceWitness {
                rt,
                log: None,
                newcomer,
                counts,
                visits,
                last: Last::Other,
            });
        }
        let origin = origin_of(rt.alloc(), &address, &named)?;
        let log = DeviceLog::new(rt.alloc(), rt, moments, LogWriter::new(rt, log), origin);
        Ok(DeviceWitness {
            rt,
            log: Some(log),
            newcomer,
            counts,
            visits,
            last: Last::Other,
        })
    }

    /// Whether the last reply asked for a name or a password.
    pub(crate) fn asks(&self) -> bool {
        self.last == Last::Asks
    }

    /// Whether the last reply said that a login failed.
    pub(crate) fn has_failed(&self) -> bool {
        self.last == Last::Fails
    }

    // Something was told: if it is of a first packet whose body is none of its type, its key isn't
    // the device's (RFC 8907, section 4.5).
    fn judge_first(&mut self, request: Option<Request>)
        ensures { self.new.log ≡ self.old.log }
    {
        let Some(newcomer) = self.newcomer.take() else {
            return;
        };
        if request == Some(Request::BadBody) {
            self.counts.note_misfit();
            newcomer
                .misfits
                .tell(self.rt, newcomer.address, newcomer.named);
        }
    }

    // Something was told that counts so: the last reply is as it was where there is no other.
    fn follow(&mut self, notice: &Notice, request: Option<Request>)
        ensures { self.new.log ≡ self.old.log }
    {
        if let Notice::Packet(_, Some(_)) = notice {
            self.last = last_of(request);
            self.visits.replied(self.has_failed());
        }
    }
}

impl<'a, R, L: Log> Witness<Notice> for DeviceWitness<'a, R, L>
where
    R: Wait + Clock + AllocGlobal + Eprint + LogFiles,
{
    ghost use Rattle.tac_net.specs.Witness as witness;

    ghost takes = { witness.Takes L.keeping };

    ghost refuses = { witness.Refuses L.keeping };

    fn tell(&mut self, notice: &Notice) -> Result<(), Refused> {
        if let Some(log) = &mut self.log {
            log.tell(notice)?;
        }
        let request = Request::of(notice);
        self.counts.note(request);
        self.judge_first(request);
        self.follow(notice, request);
        Ok(())
    }
}

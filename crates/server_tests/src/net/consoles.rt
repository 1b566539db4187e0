//! A server that has no seat for each worker.

use crate::net::support::{desk_of, key};
use basics::Bytes;
use std::alloc::{AllocError, Global};
use std::net::{Ipv4Addr, Net, SocketAddr, TcpListener, TcpStream};
use std::sync::Wait;
use std::test::Fail;
use std::thread::Threads;
use std::time::Clock;
use tac_audit::Typist;
use tac_hall::Limits;
use tac_hall_console::{Source, Unread, no_devices};
use tac_journal::{LogFiles, Nowhere, Typists};
use tac_net::{Callers, Idle, Listeners, Port, ServeFault, ServerFiles, Settings, serve};
use tac_status::Counts;
use tac_wire::KeyDoor;

/// A source without a text and without devices, whose lines anyone types.
struct Nothing;

impl Typists for Nothing {
    ghost use Rattle.std.specs.Prelude.{◌≡◌};
    ghost use Rattle.tac_audit.specs.declared.event.Typist.TheVariants.{Anyone};

    ghost names = { λ _ typist. typist ≡ Anyone };

    fn typist(&self, _alloc: Global) -> Result<Typist, AllocError> {
        Ok(Typist::Anyone)
    }
}

impl Source for Nothing {
    fn text(&self, _alloc: Global) -> Result<Vec<u8>, Unread> {
        Err(Unread::Memory)
    }

    fn reload_devices(&self, alloc: Global) -> Result<Bytes, AllocError> {
        no_devices(alloc)
    }

    fn warn(&self, _line: &[u8]) {}
}

fn settings_of(port: u16, workers: u32) -> Result<Settings, Fail> {
    Ok(Settings {
        port: Some(port),
        address: None,
        proxy: None,
        callers: Callers::Any(KeyDoor::new(key()?)),
        workers,
        hashers: 1,
        connections: 9,
        connections_at_once: 9,
        per_address: 0,
        packet_memory: 0,
        idle: Idle { idle: 0, login: 0 },
        fail_delay: 0,
        limits: Limits {
            calls: 9,
            rotate_at: 9,
        },
    })
}

// A server with so many workers, whose output takes as many bytes as this has, prints this and ends so,
// though its input doesn't.
fn ends<R>(rt: &R, workers: u32, printed: &[u8], wanted: ServeFault) -> Result<(), Fail>
where
    R: Threads + Wait + Clock + Sync + AllocGlobal + Eprint + LogFiles,
    R: Net<Listener = TcpListener, Stream = TcpStream>,
{
    let port = Port::bind(rt, SocketAddr::from((Ipv4Addr::LOCALHOST, 0)))?;
    let settings = settings_of(port.address()?.port(), workers)?;
    let listeners = Listeners::new(Some(port), None);
    let desk = desk_of(rt.alloc())?;
    let counts = Counts::new();
    let files = ServerFiles {
        log: &Nowhere,
        source: &Nothing,
        counts: &counts,
    };
    let mut input = std::io::repeat(b'\n');
    let mut screen = vec![in rt.alloc(); 0; printed.len()]?;
    let mut output = screen.as_mut_slice();
    let ended = serve(
        rt,
        &listeners,
        desk,
        &settings,
        &files,
        &mut input,
        &mut output,
    );
    if ended == Err(wanted) && screen.as_slice() == printed {
        return Ok(());
    }
    Err(Fail::from("it ended or printed otherwise"))
}

// Without a seat for each worker, beside that of the console, no port is printed, and the input isn't
// read.
#[test]
fn seats_that_are_missing(rt: HostRuntime) -> Result<(), Fail> {
    ends(&rt, 64, b"close refused\n", ServeFault::CloseRefused)?;
    ends(&rt, 65, b"close refused\n", ServeFault::CloseRefused)?;
    ends(&rt, 65, b"clo", ServeFault::WriteFault)
}

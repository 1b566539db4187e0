//! What the command line of `serve` asks for.
//!
//! Each fault is said on standard error. The status tells it too, so it doesn't matter whether that
//! could be written.

use basics::Bytes;
use clap::ArgMatches;
use std::net::SocketAddr;
use std::rt::Files;
use tac_command_line::{
    CHECK_ALONE, CONNECTIONS, CONNECTIONS_AT_ONCE, CONSOLE, DEVICES_FILE, FAIL_DELAY, FILE, IDLE,
    KEEP_EDITS, KEEP_RECORDS, KEY, KEY_FILE, LOG, LOGIN_IDLE, MAX_CALLS, NO_CONSOLE, PACKET_MEMORY,
    PER_ADDRESS, PORT, PROXY, ROTATE_AT, SYNC, WORKERS, word_of,
};
use tac_desks::LiveDesk;
use tac_hall::Limits;
use tac_keep::{Tray, Use};
use tac_net::{Callers, ClearDoor, Directory, Idle, Settings};
use tac_run::{Status, key_of, out_of_memory};
use tac_start::{
    Notices, address_of, address_text, desk_of_file, devices_of_file, has_log_for_output,
    hashers_of, megabytes, record_limit_of, see_output, socket_address, workers_of,
};
use tac_status::Counts;
use tac_tally::RecordLimit;
use tac_wire::KeyDoor;

/// How to serve, where, and by what.
#[derive(Drop)]
pub(crate) struct Options<'a> {
    pub(crate) settings: Settings,
    /// Where devices call, if they call a port.
    pub(crate) address: Option<SocketAddr>,
    /// The socket at which a proxy calls, if there is one.
    pub(crate) proxy: Option<&'a str>,
    /// The policy's file.
    pub(crate) path: &'a str,
    /// The key's file, if there is one.
    pub(crate) key_file: Option<&'a str>,
    /// The devices' file, if there is one.
    pub(crate) devices: Option<&'a str>,
    /// How many records are kept, and what is done with one more.
    pub(crate) record_limit: RecordLimit,
    /// The file that takes the lines of an auditor, or [standard output](is_output), if there is
    /// one.
    pub(crate) log: Option<&'a str>,
    /// Whether a line counts only once it is on the disk.
    pub(crate) syncs: bool,
    /// Whether standard input is the console of an operator, unless operators have a socket.
    pub(crate) has_console: bool,
    /// The socket at which operators type, if there is one.
    pub(crate) console: Option<&'a str>,
    /// The file that has the policy with the edits that were made there, if they are kept.
    pub(crate) kept: Option<&'a str>,
    /// Whether nobody is served, and a start is looked at alone.
    pub(crate) is_checked: bool,
    /// What is counted of the server that serves so.
    pub(crate) counts: Counts,
    /// Where its edits lie until they are kept.
    pub(crate) tray: Tray,
}

// The door of those who come by a proxy, if one may call.
fn clear_door(matches: &ArgMatches<'_>) -> Option<ClearDoor> {
    matches.get_str(PROXY)?;
    Some(ClearDoor::new())
}

// The directory of the devices of a file, which may be read again. Where it is refused, the reason
// goes where notices do.
fn directory_of_file<R>(
    rt: &R,
    path: &str,
    notices: &mut Notices<'_, R, R>,
) -> Result<Directory, Status>
where
    R: Files + Print + Eprint + AllocGlobal,
{
    let devices = devices_of_file(rt, path, notices)?;
    match Directory::new(rt.alloc(), devices) {
        Ok(directory) => Ok(directory),
        Err(_) => Err(out_of_memory(rt)),
    }
}

// Which devices may call: any by one key, or those of a devices' file.
fn callers_of<R>(rt: &R, matches: &ArgMatches<'_>) -> Result<Callers, Status>
where
    R: Files + Print + Eprint + AllocGlobal,
{
    match matches.get_str(DEVICES_FILE) {
        Some(path) => {
            let mut notices = Notices::new(rt, rt, has_log_for_output(matches.get_str(LOG)));
            Ok(Callers::Listed {
                directory: directory_of_file(rt, path, &mut notices)?,
                proxy: clear_door(matches),
            })
        }
        None => {
            let key = key_of(rt, matches.get_str(KEY), matches.get_str(KEY_FILE))?;
            Ok(Callers::Any(KeyDoor::new(key)))
        }
    }
}

// The same text, if there is one.
fn copy_of<R: Eprint + AllocGlobal>(rt: &R, text: Option<&str>) -> Result<Option<Bytes>, Status> {
    let Some(text) = text else {
        return Ok(None);
    };
    match Bytes::from_slice(rt.alloc(), text.as_bytes()) {
        Ok(copy) => Ok(Some(copy)),
        Err(_) => Err(out_of_memory(rt)),
    }
}

// Where a server listens, as it is printed.
#[derive(Drop)]
struct Places {
    address: Option<Bytes>,
    proxy: Option<Bytes>,
}

// The numbers of a command line that was parsed, which has each of them within its bounds, on a
// machine with so many processors.
fn settings_of(
    matches: &ArgMatches<'_>,
    places: Places,
    callers: Callers,
    processors: usize,
) -> Option<Settings> {
    let Places { address, proxy } = places;
    Some(Settings {
        port: matches.get_one::<u16>(PORT),
        address,
        proxy,
        callers,
        workers: workers_of(
            matches.get_one::<u32>(WORKERS),
            matches.get_flag(SYNC),
            processors,
        ),
        hashers: hashers_of(processors),
        connections: matches.get_one::<u32>(CONNECTIONS)?,
        connections_at_once: matches.get_one::<u32>(CONNECTIONS_AT_ONCE)?,
        per_address: matches.get_one::<u32>(PER_ADDRESS)?,
        packet_memory: megabytes(matches.get_one::<u32>(PACKET_MEMORY)?),
        idle: Idle {
            idle: matches.get_one::<u32>(IDLE)?,
            login: matches.get_one::<u32>(LOGIN_IDLE)?,
        },
        fail_delay: matches.get_one::<u32>(FAIL_DELAY)?,
        limits: Limits {
            calls: MAX_CALLS as usize,
            rotate_at: matches.get_one::<u32>(ROTATE_AT)? as usize,
        },
    })
}

impl<'a> Options<'a> {
    /// The options of a command line that was parsed, on a machine with so many processors. The
    /// error is the status to end with: of the console beside a log, or of the address, which are
    /// judged first, or of the key or the devices.
    pub(crate) fn read<R>(
        rt: &R,
        matches: &ArgMatches<'a>,
        processors: usize,
    ) -> Result<Options<'a>, Status>
    where
        R: Files + Print + Eprint + AllocGlobal,
    {
        see_output(rt, matches)?;
        let address = address_of(rt, matches)?;
        let callers = callers_of(rt, matches)?;
        let proxy = matches.get_str(PROXY);
        let places = Places {
            address: address_text(rt, address)?,
            proxy: copy_of(rt, proxy)?,
        };
        match settings_of(matches, places, callers, processors) {
            Some(settings) => Ok(Options {
                address: socket_address(address, settings.port),
                proxy,
                settings,
                path: word_of(matches, FILE),
                key_file: matches.get_str(KEY_FILE),
                devices: matches.get_str(DEVICES_FILE),
                record_limit: record_limit_of(matches.get_one::<u32>(KEEP_RECORDS)),
                log: matches.get_str(LOG),
                syncs: matches.get_flag(SYNC),
                has_console: !matches.get_flag(NO_CONSOLE),
                console: matches.get_str(CONSOLE),
                kept: matches.get_str(KEEP_EDITS),
                is_checked: matches.get_flag(CHECK_ALONE),
                counts: Counts::new(),
                tray: Tray::new(),
            }),
            None => Err(Status::BadCommandLine),
        }
    }

    /// Whether the lines of the log go to standard output.
    pub(crate) fn has_log_for_output(&self) -> bool {
        has_log_for_output(self.log)
    }

    /// The desk of the policy in a file, which keeps records as these say. The error is the status to
    /// end with.
    pub(crate) fn desk_of<R>(&self, rt: &R, path: &str) -> Result<LiveDesk, Status>
    where
        R: Files + Print + Eprint + AllocGlobal,
    {
        let mut notices = Notices::new(rt, rt, self.has_log_for_output());
        desk_of_file(rt, path, self.record_limit, &mut notices)
    }

    // The file of the log, if it has one.
    fn log_file(&self) -> Option<&'a str> {
        if self.has_log_for_output() {
            return None;
        }
        self.log
    }

    /// What no file of edits may be.
    pub(crate) fn uses(&self) -> [Use<'a>; 6] {
        [
            Use::of(Some(self.path), "it is the policy's own file"),
            Use::of(self.key_file, "it is the key's file"),
            Use::of(self.devices, "it is the devices' file"),
            Use::of(self.log_file(), "it is the log's file"),
            Use::of(self.console, "it is the console's socket"),
            Use::of(self.proxy, "it is the proxy's socket"),
        ]
    }
}

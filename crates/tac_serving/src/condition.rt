//! How the server is, as its operators are told.

ghost use Rattle.std.specs.Prelude.{◌≡◌, is_some};

use crate::options::Options;
use basics::Bytes;
use std::alloc::{AllocError, Global};
use std::io::{self, Write};
use std::time::{Clock, Duration};
use tac_command_line::VERSION;
use tac_journal::Journal;
use tac_keep::Tray;
use tac_net::Callers;
use tac_operators::{ConsoleHost, Status};
use tac_status::{Counts, Present, resident_bytes, status_text};

/// How many bytes of /proc/self/status are looked at.
const GLANCE: usize = 4_096;

/// What tells how a server is. It asks neither the desk nor the log: it reads what these counted.
#[derive(Drop)]
pub(crate) struct Condition<'a, H> {
    host: &'a H,
    counts: &'a Counts,
    tray: &'a Tray,
    keeps_edits: bool,
    journal: &'a Option<Journal<'a>>,
    workers: u32,
    connections_limit: u32,
    callers: &'a Callers,
    has_proxy: bool,
    records_limit: u64,
    // when it began
    began: Option<Duration>,
}

impl<'a, H: Clock> Condition<'a, H> {
    /// That of a server that begins now, by these options.
    pub(crate) fn new(
        host: &'a H,
        options: &'a Options<'_>,
        journal: &'a Option<Journal<'a>>,
    ) -> Condition<'a, H>
        ensures workers { result.workers ≡ options.now.settings.workers }
        ensures connections { result.connections_limit ≡ options.now.settings.connections_at_once }
        ensures records { result.records_limit ≡ options.now.record_limit.most }
        ensures proxy { result.has_proxy ≡ is_some options.now.proxy }
        ensures edits { result.keeps_edits ≡ is_some options.now.kept }
    {
        Condition {
            host,
            counts: &options.counts,
            tray: &options.tray,
            keeps_edits: options.kept.is_some(),
            journal,
            workers: options.settings.workers,
            connections_limit: options.settings.connections_at_once,
            callers: &options.settings.callers,
            has_proxy: options.proxy.is_some(),
            records_limit: options.record_limit.most as u64,
            began: host.monotonic().ok(),
        }
    }

    // For how many seconds it has served; 0 where the clock can't be read.
    fn uptime(&self) -> u64 {
        match (self.began, self.host.monotonic()) {
            (Some(began), Ok(now)) => now.saturating_sub(began).as_secs(),
            _ => 0,
        }
    }

    // The lines that tell of edits that last.
    fn write_edits(&self, out: &mut Vec<u8>) -> io::Result<()> {
        let is_kept = self.keeps_edits && self.tray.is_kept();
        let told = [
            (
                "tacd_keeps_edits",
                "1 where a file keeps edits.",
                self.keeps_edits,
            ),
            ("tacd_edits_kept", "1 where it has all of them.", is_kept),
            (
                "tacd_serves_edits",
                "1 where it is served.",
                self.tray.has_edits(),
            ),
        ];
        for (name, help, holds) in told {
            let number = u8::from(holds);
            writeln!(out, "# HELP {name} {help}")?;
            writeln!(out, "# TYPE {name} gauge")?;
            writeln!(out, "{name} {number}")?;
        }
        Ok(())
    }
}

// How many bytes of memory the process has.
fn memory<H: ConsoleHost>(host: &H) -> u64 {
    let mut text = [0; GLANCE];
    match host.process_status(&mut text) {
        Ok(n) => resident_bytes(text.split_at(n.min(GLANCE)).0),
        Err(_) => 0,
    }
}

impl<H: Clock + ConsoleHost> Status for Condition<'_, H> {
    fn text(&self, alloc: Global, operators: u64) -> Result<Bytes, AllocError> {
        let log_takes_lines = match self.journal {
            Some(journal) => journal.takes_lines(),
            None => false,
        };
        let present = Present {
            version: VERSION,
            uptime: self.uptime(),
            memory: memory(self.host),
            workers: self.workers,
            connections_limit: self.connections_limit,
            devices: self.callers.count() as u64,
            has_proxy: self.has_proxy,
            records_limit: self.records_limit,
            has_log: self.journal.is_some(),
            log_takes_lines,
            operators,
        };
        let Ok(mut text) = status_text(alloc, self.counts, &present) else {
            return Err(AllocError);
        };
        match self.write_edits(&mut text) {
            Ok(()) => Ok(Bytes::from(text)),
            Err(_) => Err(AllocError),
        }
    }
}

//! The lines that tell how a server is, in the text format that Prometheus reads.

use crate::connection_counts::{ConnectionCounts, DEPARTURES, REJECTIONS};
use crate::counts::Counts;
use crate::desk_counts::DeskCounts;
use crate::present::Present;
use crate::request_counts::{Request, RequestCounts};
use std::alloc::Global;
use std::io::{self, Write};

/// What kind of number it is.
#[derive(Clone, Copy)]
enum Kind {
    /// It only grows while the server runs.
    Counter,
    /// It comes and goes.
    Gauge,
}

impl Kind {
    fn name(self) -> &'static str {
        match self {
            Kind::Counter => "counter",
            Kind::Gauge => "gauge",
        }
    }
}

// What the numbers of this name are.
fn write_head(out: &mut Vec<u8>, kind: Kind, name: &str, help: &str) -> io::Result<()> {
    writeln!(out, "# HELP {name} {help}")?;
    let kind = kind.name();
    writeln!(out, "# TYPE {name} {kind}")
}

// A number that has a name of its own.
fn write_number(
    out: &mut Vec<u8>,
    kind: Kind,
    name: &str,
    help: &str,
    number: u64,
) -> io::Result<()> {
    write_head(out, kind, name, help)?;
    writeln!(out, "{name} {number}")
}

fn write_server(out: &mut Vec<u8>, present: &Present) -> io::Result<()> {
    write_head(out, Kind::Gauge, "tacd_info", "The version that serves.")?;
    let version = present.version;
    writeln!(out, "tacd_info{{version=\"{version}\"}} 1")?;
    write_number(
        out,
        Kind::Gauge,
        "tacd_uptime_seconds",
        "For how long it has served.",
        present.uptime,
    )?;
    write_number(
        out,
        Kind::Gauge,
        "tacd_memory_bytes",
        "The resident memory of the process.",
        present.memory,
    )?;
    write_number(
        out,
        Kind::Gauge,
        "tacd_workers",
        "Threads that serve connections.",
        u64::from(present.workers),
    )
}

// Whether one was closed for a reason that is told only of a server that knows of proxies.
fn has_met_proxies(counts: &ConnectionCounts) -> bool {
    for row in REJECTIONS {
        if row.is_of_proxies && counts.rejected(row.why) > 0 {
            return true;
        }
    }
    false
}

fn write_rejected(
    out: &mut Vec<u8>,
    counts: &ConnectionCounts,
    present: &Present,
) -> io::Result<()> {
    let name = "tacd_connections_refused_total";
    write_head(
        out,
        Kind::Counter,
        name,
        "Connections closed as soon as they came.",
    )?;
    let knows_of_proxies = present.has_proxy || has_met_proxies(counts);
    for row in REJECTIONS {
        if knows_of_proxies || !row.is_of_proxies {
            let (why, number) = (row.name, counts.rejected(row.why));
            writeln!(out, "{name}{{why=\"{why}\"}} {number}")?;
        }
    }
    Ok(())
}

fn write_ended(out: &mut Vec<u8>, counts: &ConnectionCounts) -> io::Result<()> {
    let name = "tacd_connections_ended_total";
    write_head(
        out,
        Kind::Counter,
        name,
        "Connections that were served and have ended.",
    )?;
    for row in DEPARTURES {
        let (why, number) = (row.name, counts.ended(row.why));
        writeln!(out, "{name}{{why=\"{why}\"}} {number}")?;
    }
    Ok(())
}

fn write_connections(
    out: &mut Vec<u8>,
    counts: &ConnectionCounts,
    present: &Present,
) -> io::Result<()> {
    write_number(
        out,
        Kind::Gauge,
        "tacd_connections",
        "Connections that are there now.",
        counts.open(),
    )?;
    write_number(
        out,
        Kind::Gauge,
        "tacd_connections_limit",
        "How many there may be at once.",
        u64::from(present.connections_limit),
    )?;
    write_number(
        out,
        Kind::Counter,
        "tacd_connections_accepted_total",
        "Connections that a worker took.",
        counts.accepted(),
    )?;
    write_ended(out, counts)?;
    write_rejected(out, counts, present)
}

fn write_answered(out: &mut Vec<u8>, counts: &RequestCounts) -> io::Result<()> {
    let name = "tacd_requests_total";
    write_head(out, Kind::Counter, name, "Requests that were answered.")?;
    for request in Request::ANSWERED {
        let (labels, number) = (request.labels(), counts.of(request));
        writeln!(out, "{name}{{{labels}}} {number}")?;
    }
    Ok(())
}

fn write_refused(out: &mut Vec<u8>, counts: &RequestCounts) -> io::Result<()> {
    let name = "tacd_requests_refused_total";
    write_head(
        out,
        Kind::Counter,
        name,
        "Packets that were refused as they stood.",
    )?;
    for request in Request::REFUSED {
        let (labels, number) = (request.labels(), counts.of(request));
        writeln!(out, "{name}{{{labels}}} {number}")?;
    }
    Ok(())
}

fn write_desk(out: &mut Vec<u8>, counts: &DeskCounts, limit: u64) -> io::Result<()> {
    let numbers = [
        (
            Kind::Gauge,
            "tacd_records",
            "Accounting records that are kept.",
            counts.records(),
        ),
        (
            Kind::Gauge,
            "tacd_records_limit",
            "How many may be kept.",
            limit,
        ),
        (
            Kind::Gauge,
            "tacd_subjects",
            "Users and groups of the policy.",
            counts.subjects(),
        ),
        (
            Kind::Gauge,
            "tacd_rules",
            "Rules of the policy.",
            counts.rules(),
        ),
        (
            Kind::Counter,
            "tacd_edits_total",
            "Edits that were made.",
            counts.edits(),
        ),
        (
            Kind::Counter,
            "tacd_reloads_total",
            "Policies that were reloaded.",
            counts.reloads(),
        ),
    ];
    for (kind, name, help, number) in numbers {
        write_number(out, kind, name, help, number)?;
    }
    Ok(())
}

fn write_log(out: &mut Vec<u8>, present: &Present) -> io::Result<()> {
    write_number(
        out,
        Kind::Gauge,
        "tacd_log",
        "1 where a log is kept.",
        u64::from(present.has_log),
    )?;
    write_number(
        out,
        Kind::Gauge,
        "tacd_log_takes_lines",
        "1 where the log took what it was last told.",
        u64::from(present.log_takes_lines),
    )
}

fn write_status(out: &mut Vec<u8>, counts: &Counts, present: &Present) -> io::Result<()> {
    write_server(out, present)?;
    write_connections(out, &counts.connections, present)?;
    write_number(
        out,
        Kind::Gauge,
        "tacd_devices",
        "Devices that are listed; 0 where one key is for all.",
        present.devices,
    )?;
    write_answered(out, &counts.requests)?;
    write_refused(out, &counts.requests)?;
    write_number(
        out,
        Kind::Counter,
        "tacd_connections_other_key_total",
        "Connections whose first packet didn't fit the key.",
        counts.requests.misfits(),
    )?;
    write_desk(out, &counts.desk, present.records_limit)?;
    write_log(out, present)?;
    write_number(
        out,
        Kind::Gauge,
        "tacd_operators",
        "Operators at the console.",
        present.operators,
    )
}

/// The lines that tell how a server is. All are there, in this order, whatever their numbers are,
/// but for the refusals of proxies: these are there where the server has a socket for a proxy, or
/// one of their numbers isn't 0. The error means that memory ran out.
pub fn status_text(alloc: Global, counts: &Counts, present: &Present) -> io::Result<Vec<u8>> {
    let mut text = Vec::new(alloc);
    write_status(&mut text, counts, present)?;
    Ok(text)
}

//! How many files the process may have open at once, against what a server has.

ghost use Rattle.std.specs.Prelude.{◌≡◌};
ghost use Rattle.basics.specs.Lines.{lines_of};
ghost use Rattle.tac_start.specs.Descriptors as descriptors;

use basics::{Lines, read_number, split_once, without_leading_spaces};
use std::fs;
use std::io::Read;
use std::rt::Files;

/// The file in which the system tells a process its limits.
const LIMITS: &str = "/proc/self/limits";

// The limit that a line of it tells, if it is the one of open files.
fn limit_of_line(line: &[u8]) -> Option<u32>
    ensures { result ≡ descriptors.limit_of_line line.now }
{
    let limits = line.strip_prefix(b"Max open files ")?;
    let (limit, _) = split_once(without_leading_spaces(limits), b' ')?;
    read_number(limit, 9)
}

// The same of the first such line of a text.
fn limit_of(text: &[u8]) -> Option<u32>
    ensures { result ≡ descriptors.limit_in (lines_of text.now) }
{
    let mut lines = Lines::new(text);
    'lines: while let Some((_, line)) = lines.take_line() {
        if let Some(limit) = limit_of_line(line) {
            return Some(limit);
        }
    }
    None
}

// How many files a server has open.
fn files_of(connections: u32, workers: u32) -> u64
    ensures { result ≡ descriptors.files_of connections workers }
{
    u64::from(connections) + 3 * u64::from(workers) + 16
}

// How many files this process may have open; None where the system doesn't tell, or sets no limit.
// The text of the limits is short: one read takes all of it.
fn file_limit<R: Files>(rt: &R) -> Option<u32> {
    let mut file = fs::open(rt, LIMITS).ok()?;
    let mut text = [0; 4096];
    let n = file.read(&mut text).ok()?;
    limit_of(&text[..n])
}

/// Says so on standard error where fewer files may be open than a server with so many connections
/// and workers has. It serves all the same, and connections wait where no more can be accepted.
pub fn warn_of_few<R: Files + Eprint>(rt: &R, connections: u32, workers: u32) {
    let wanted = files_of(connections, workers);
    let Some(limit) = file_limit(rt) else {
        return;
    };
    if u64::from(limit) < wanted {
        let _ = eprintln!(rt;
            "tacd: only {limit} files may be open, too few for {connections} connections at once: \
             raise 'ulimit -n' or LimitNOFILE= to {wanted}, or lower --connections-at-once"
        );
    }
}

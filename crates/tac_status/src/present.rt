//! How a server is at this moment.

use basics::split_once;

/// What of a server isn't counted: what it began with, and how it is at this moment.
#[derive(Clone, Copy, Debug)]
pub struct Present {
    pub version: &'static str,
    /// For how many seconds it has served.
    pub uptime: u64,
    /// How many bytes of memory it has, or 0 where the system doesn't tell.
    pub memory: u64,
    pub workers: u32,
    /// How many connections there may be at once.
    pub connections_limit: u32,
    /// How many devices are listed, or 0 where one key is for all.
    pub devices: u64,
    /// Whether it has a socket for a proxy.
    pub has_proxy: bool,
    /// How many records are kept at most.
    pub records_limit: u64,
    /// Whether a log is kept.
    pub has_log: bool,
    /// Whether that takes lines, as far as the last one tells.
    pub log_takes_lines: bool,
    /// How many operators are at the console.
    pub operators: u64,
}

/// The bytes of a kilobyte, as Linux counts them.
const KILOBYTE: u64 = 1_024;

/// What begins the line that tells how much memory a process has.
const RESIDENT: &[u8] = b"VmRSS:";

// The number that stands after blanks, up to what is no digit.
fn number_in(text: &[u8]) -> u64 {
    let mut number = 0_u64;
    for byte in text {
        match byte {
            b'0'..=b'9' => {
                number = number
                    .saturating_mul(10)
                    .saturating_add(u64::from(*byte - b'0'));
            }
            b' ' | b'\t' => {}
            _ => return number,
        }
    }
    number
}

/// How many bytes of memory a process has, by the text of its /proc/PID/status; 0 where that
/// doesn't tell.
pub fn resident_bytes(status: &[u8]) -> u64 {
    let mut rest = status;
    'lines: while let Some((line, after)) = split_once(rest, b'\n') {
        if let Some(told) = line.strip_prefix(RESIDENT) {
            return number_in(told).saturating_mul(KILOBYTE);
        }
        rest = after;
    }
    0
}

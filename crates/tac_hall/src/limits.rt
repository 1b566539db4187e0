//! How long the parts of a history may be.

/// How long the segments of a history may be. Where `rotate_at` is greater than `calls` by more
/// than one, no segment begins by itself, and a full one takes no more calls until it is ended.
#[derive(Clone, Copy, Debug)]
pub struct Limits {
    /// How many calls the log of a segment takes.
    pub calls: usize,
    /// Before which call of a segment the next one begins by itself, counted from 1. At 0 and 1
    /// each call has a segment of its own.
    pub rotate_at: usize,
}

/// A segment that a seat ended: its number, from 0, and how many calls its log has.
#[derive(Clone, Copy, Debug)]
pub struct Rotated {
    pub number: u64,
    pub entries: usize,
}

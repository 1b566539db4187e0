//! Tests of which of two keys a packet shows.

mod choices;

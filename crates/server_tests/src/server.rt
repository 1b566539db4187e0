//! Tests of the server of scripts over two desks, one of which has no memory, and of replays over
//! readers and writers that fail.

mod conversing;
mod limits;
mod starved;
mod transport;

//! Tests of workers: how connections end and are served in turns, over readers, writers, pipes and
//! witnesses of the tests' own.

mod ends;
mod packets;
mod pipe;
mod streams;
mod support;
mod transport;
mod turns;

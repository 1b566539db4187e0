//! Tests of packets and their bodies, against bytes that were worked out elsewhere: by hand from
//! the layouts of RFC 8907, or by another program.

mod accounting;
mod authentication;
mod cases;
mod doors;
mod frames;
mod requests;
mod wire;

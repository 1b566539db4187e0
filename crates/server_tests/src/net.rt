//! Tests of a hall with a console that is served on the network, and of parts of such a server.

mod census;
mod consoles;
mod patience;
mod support;

//! Tests of desks, of the server of scripts over two desks, and of the server on the network.
#![tactic(auto)]

#[cfg(test)]
mod desk;
#[cfg(test)]
mod net;
#[cfg(test)]
mod server;

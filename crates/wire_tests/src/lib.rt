//! Tests of what devices send, and of what is sent back.
#![tactic(auto)]

#[cfg(test)]
mod conn;
#[cfg(test)]
mod first;
#[cfg(test)]
mod io;
#[cfg(test)]
mod lists;
#[cfg(test)]
mod proxy;
#[cfg(test)]
mod wire;

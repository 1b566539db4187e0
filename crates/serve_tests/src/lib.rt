//! Tests of what a server is made of that many devices ask at once.
#![tactic(auto)]

#[cfg(test)]
mod console;
#[cfg(test)]
mod hall;
#[cfg(test)]
mod work;

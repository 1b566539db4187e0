//! Tests of patterns, of the automata that stand for them, and of policies that decide by these.
#![tactic(auto)]

#[cfg(test)]
mod automaton;
#[cfg(test)]
mod policy;
pub mod scan;

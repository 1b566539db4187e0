//! A breadth-first scan of a deterministic machine that reads words over columns.
//!
//! A machine is known by which words lead to one state: a right congruence. [`scan`] finds all its
//! states and gives the table of the automaton, in which states are numbered in the order of their
//! least words; [`search`] finds the least word that a machine accepts, and keeps no table. An
//! [`Alphabet`] says which column each symbol of a text is read as.
#![tactic(auto)]

mod alphabet;
mod automaton;
mod fault;
mod found;
mod machine;
mod searching;
mod table;
mod words;

pub use alphabet::{Alphabet, SYMBOLS};
pub use automaton::{Automaton, scan};
pub use fault::ScanFault;
pub use machine::{Acceptor, Column, Machine};
pub use searching::search;
pub use table::{StateNumber, Table};

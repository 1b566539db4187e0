//! Tests of both desks, the one that works out each answer anew and the one that keeps automata,
//! tallies and decisions, against answers that were worked out by hand.

mod asks;
mod batches;
mod both;
mod hashes;
mod loads;
mod questions;
mod services;
mod support;

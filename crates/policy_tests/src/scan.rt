//! Tests of the breadth-first scan, on a machine whose tables can be worked out by hand.

mod remainders;
#[cfg(test)]
mod tests;

pub use remainders::{Numerals, Remainders};

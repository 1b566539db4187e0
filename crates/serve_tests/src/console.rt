//! Tests of the console of a hall: conversations with it, what its witness is told before a line
//! is answered, and inputs and outputs that fail.

mod ends;
mod lines;
mod streams;
mod support;
mod witness;

//! Tests of residuals, of automata and of policies that decide by them, against answers that were
//! worked out by hand.

mod deciders;
mod large;
mod lists;
mod meters;
mod policies;
mod residuals;
mod support;

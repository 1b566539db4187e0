//! Tests of what is worked out of a password.

mod typed;

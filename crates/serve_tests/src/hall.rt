//! Tests of the hall: calls of several seats.

mod calls;
pub(crate) mod shared;
pub(crate) mod starved;
pub(crate) mod support;

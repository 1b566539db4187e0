//! Tests of writing out and of reading to the end, over writers and readers that take or give
//! little, are interrupted, or fail.

mod answering;
mod large;
mod reading;
mod scripted;
mod writing;

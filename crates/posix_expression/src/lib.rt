//! Regular expressions as POSIX has its extended ones, and the patterns that find what they search
//! for.
#![tactic(auto)]

mod expression;
mod level;
mod lexing;
mod older;
mod reading;
mod shape;
mod text;
mod tree;
mod unsaid;
mod writing;

pub use expression::Search;
pub use older::Older;
pub use text::Text;
pub use unsaid::Unsaid;

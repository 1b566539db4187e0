//! The words of a policy's lines, and in which words is told what is wrong with one.
#![tactic(auto)]

mod finding;
mod names;
mod near;
mod place;
mod reason;
mod remark;
mod values;
mod words;

pub use finding::Finding;
pub use names::{NameReason, name_found};
pub use near::Word;
pub use place::{Place, last_atom};
pub use reason::{LineReason, line_reason, reason_found};
pub use remark::{Found, Remark, column_of, note};
pub use values::{ValueReason, value_reason};
pub use words::{Keyword, keyword_of, parent_text, words_in, words_of};

//! The edits that make one policy of another, and the lines that the console reads them from.
#![tactic(auto)]

mod comparing;
mod judging;
mod matching;
mod placing;
mod plain;
mod plan;
mod row;
mod ruling;
mod serving;
mod setting;
mod turning;
mod updating;
mod writing;

pub use updating::edits_between;
pub use writing::write_edit;

//! What in a devices' file keeps it from being read, or is probably not meant: each with its line,
//! its column and what was meant.
#![tactic(auto)]

mod address;
mod beginning;
mod block;
mod clash;
mod doubts;
mod finding;
mod lint;
mod meant;
mod odd;
mod remark;
mod telling;
mod value;
mod whole;
mod word;

pub use address::AddressFault;
pub use beginning::Beginning;
pub use finding::Finding;
pub use lint::{DevicesLint, DevicesLintEnd, lint_devices};
pub use meant::MeantPrefix;
pub use odd::{OddByte, key_remark};
pub use remark::Remark;
pub use telling::{is_devices_text, print_lint};
pub use value::ValueFault;
pub use whole::WholeFault;
pub use word::LineWord;

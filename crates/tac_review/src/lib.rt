//! What is said of policies, from bytes to bytes: the check of one, what in it was probably not
//! meant, what a new one changes and by which edits it is made, and what one decides of lines and
//! gives for services.
#![tactic(auto)]

mod asking;
mod case;
mod check_output;
mod checking;
mod judging;
mod lint_output;
mod linting;
mod loading;
mod review_output;
mod reviewing;
mod table;
mod task;
mod want;

pub use checking::{CheckEnd, check};
pub use judging::refusal_line;
pub use linting::{LintEnd, lint};
pub use reviewing::review;
pub use tac_io::AnswerFault as CheckFault;
pub use task::{Input, Permission, Review, ReviewEnd, ReviewFault, Table};

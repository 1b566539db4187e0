//! What can be reviewed, and how that ends.

use tac_io::AnswerFault;

/// What is asked about a policy, and what the second input is.
#[derive(Clone, Copy, Debug, PartialEq, Eq)]
pub enum Review {
    /// What another policy, whose text is the second input, changes.
    Diff,
    /// Which edits make of it another policy, whose text is the second input.
    Edits,
    /// How a line of a user is decided: the second input is `USER`, or `USER LINE`.
    Why,
    /// What a user is given for a service: the second input is `USER SERVICE`.
    Given,
    /// What is so of the lines of a table.
    Each(Table),
}

/// What the lines of a table say.
#[derive(Clone, Copy, Debug, PartialEq, Eq)]
pub enum Table {
    /// `USER LINE`: each is answered.
    Questions,
    /// `permit USER LINE`, `deny USER LINE`, `grant USER SERVICE`, `refuse USER SERVICE` or
    /// `give USER SERVICE ATTRIBUTE`: each that isn't so is printed.
    Cases,
}

/// What a question is answered, in a word.
#[derive(Clone, Copy, Debug, PartialEq, Eq)]
pub enum Permission {
    /// The line is permitted, or the service is given.
    Permitted,
    /// It isn't.
    Denied,
    /// The policy has no such user.
    Unknown,
}

/// How a review ended.
#[derive(Clone, Copy, Debug, PartialEq, Eq)]
pub enum ReviewEnd {
    /// Nothing changes for anyone, each question of a table was answered, or each case is so.
    Done,
    /// The question was answered.
    Answered(Permission),
    /// Something changes for someone, or some case isn't so.
    Differs,
    /// Edits were printed, in so many batches.
    Edited(usize),
    /// The policy of this input is refused, and the reason was printed.
    BadPolicy(Input),
    /// A batch, a question or a table is refused, and the reason was printed.
    Refused,
}

/// One of the two inputs of a review.
#[derive(Clone, Copy, Debug, PartialEq, Eq)]
pub enum Input {
    First,
    Second,
}

/// Why a review wasn't finished.
#[derive(Clone, Copy, Debug, PartialEq, Eq)]
pub struct ReviewFault {
    /// Which input it was, if one couldn't be read or is too long.
    pub input: Input,
    pub fault: AnswerFault,
}

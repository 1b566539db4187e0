//! What a case wants to be so.

use basics::Bytes;
use pol_names::Verdict;

/// What a case wants of the answer to its question.
#[derive(Debug, Drop)]
pub(crate) enum Want {
    /// The line is decided so.
    Verdict(Verdict),
    /// The service is granted.
    Grant,
    /// The service isn't granted, to a user who is in the policy.
    Refusal,
    /// The user is given this argument.
    Argument(Bytes),
}

//! What a line of a console asks for.

use pol_edit::Edit;
use tac_desk::Query;

/// What a line of a console asks for.
#[derive(Drop)]
pub enum Asked {
    /// An edit of the policy.
    Edit(Edit),
    /// A question.
    Query(Query),
    /// To keep the edits that follow, as a batch.
    Begin,
    /// To make the edits of the batch, all or none.
    Commit,
    /// To drop the edits of the batch.
    Abandon,
    /// None of these, which is answered as the refusal `BadEdit` of an edit.
    Neither,
}

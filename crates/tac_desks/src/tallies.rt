//! Tallies by the present policy, whose marks are worked out anew.

ghost use Rattle.std.specs.Prelude.{◌≡◌, true, false, Err, OnOk};
ghost use Rattle.pol_meaning.specs.Memory.{UnlessMemory};
ghost use Rattle.tac_tally.specs.Book.{Contents};
ghost use Rattle.tac_desk.specs.Reporting as reporting;
ghost use Rattle.tac_desks.specs.Kept.{meaning_of};
ghost use Rattle.tac_desks.specs.Metered.{HasMarksBy};
ghost use Rattle.tac_desk.specs.declared.query.Query.TheVariants as queries;
ghost use Rattle.tac_desk.specs.declared.query.QueryFault.TheVariants.{NoSuch};

use crate::authorisation::denies;
use crate::live_reports::tally_by_marks;
use pol_names::{Kind, SubjectId};
use pol_text::Policy;
use std::alloc::{AllocError, Global};
use tac_desk::{QueryFault, Report};
use tac_tally::Book;

// Whether there is no tally of the subject: it is a group that the policy doesn't have.
fn is_missing(policy: &Policy, subject: &SubjectId) -> bool
    ensures missing { result ≡ true → (book : Contents) →
        reporting.Reports (meaning_of policy.now book) (queries.Tally subject.now) (Err NoSuch) }
    ensures there { result ≡ false → (book : Contents) → reporting.Reports
        (meaning_of policy.now book) (queries.Tally subject.now) (Err NoSuch) → ⊥ }
{
    match subject.kind {
        Kind::User => false,
        Kind::Group => policy.find(subject).is_none(),
    }
}

// Works out anew whether the policy denies the records' lines.
fn remark(alloc: Global, policy: &Policy, book: &mut Book) -> Result<(), AllocError>
    ensures marks { OnOk result (HasMarksBy policy.now book.new) }
    ensures kept { meaning_of policy.now book.new ≡ meaning_of policy.now book.old }
{
    let recount = book.recount_all(alloc, |user, line| Ok(denies(policy, user, line)))?;
    book.settle(recount);
    Ok(())
}

/// What the records of a subject count up to, by the present policy: those of a user, who needn't
/// be in it, or those of the users of a group, which must be. The book's marks are worked out anew.
pub(crate) fn tally(
    alloc: Global,
    policy: &Policy,
    book: &mut Book,
    subject: &SubjectId,
) -> Result<Report, QueryFault>
    ensures found { UnlessMemory reporting.is_memory result
        (reporting.Reports (meaning_of policy.now book.old) (queries.Tally subject.now) result) }
    ensures sure { reporting.Reports (meaning_of policy.now book.old) (queries.Tally subject.now)
        (Err NoSuch) → result ≡ Err NoSuch }
    ensures kept { meaning_of policy.now book.new ≡ meaning_of policy.now book.old }
{
    // marks take memory, and a refusal doesn't
    if is_missing(policy, subject) {
        return Err(QueryFault::NoSuch);
    }
    remark(alloc, policy, book)?;
    tally_by_marks(alloc, policy, book, subject)
}

//! Reports by automata and marks that are there.

ghost use Rattle.std.specs.Prelude.{◌≡◌, Ok, Err, Result, IfOk};
ghost use Rattle.pol_meaning.specs.Memory.{UnlessMemory};
ghost use Rattle.tac_tally.specs.Tally.{group_tally_of};
ghost use Rattle.tac_desks.specs.Kept.{meaning_of, entries_by};
ghost use Rattle.tac_desks.specs.Metered.{HasMarksBy};
ghost use Rattle.tac_desk.specs.Reporting as reporting;
ghost use Rattle.tac_desk.specs.Reporting.{IsShadowReport, IsReachOf, is_memory};
ghost use Rattle.tac_desk.specs.declared.query.Query.TheVariants as queries;
ghost use Rattle.tac_desk.specs.declared.query.Report.{Report as ReportValue};
ghost use Rattle.tac_desk.specs.declared.query.QueryFault.{QueryFault as QueryFaultValue};
ghost use Rattle.tac_desk.specs.declared.query.QueryFault.TheVariants.{NoSuch};

use pol_live::Live;
use pol_names::{Kind, Name, SubjectId};
use pol_report::{reach, shadows};
use pol_text::Policy;
use std::alloc::{AllocError, Global};
use tac_desk::{QueryFault, Report};
use tac_tally::{Book, Tally};

/// Which rules decide no line, for each subject.
pub(crate) fn shadow_report_of(alloc: Global, live: &Live) -> Result<Report, AllocError>
    ensures found { IfOk result (λ report. IsShadowReport live.now (Ok report)) }
    ensures only { IfOk result (λ report. (other : Result ReportValue QueryFaultValue)
        → IsShadowReport live.now other → Ok report ≡ other) }
{
    let list = shadows(alloc, live)?;
    Ok(Report::Shadow(list))
}

/// By which lines the rules along the chain of a subject are reached. The policy must have the
/// subject; that it hasn't is told without memory.
pub(crate) fn reach_report_of(
    alloc: Global,
    live: &Live,
    subject: &SubjectId,
) -> Result<Report, QueryFault>
    ensures found { UnlessMemory is_memory result (IsReachOf live.now subject.now result) }
    ensures only { UnlessMemory is_memory result ((other : Result ReportValue QueryFaultValue)
        → IsReachOf live.now subject.now other → result ≡ other) }
    ensures sure { IsReachOf live.now subject.now (Err NoSuch) → result ≡ Err NoSuch }
{
    if live.policy().find(subject).is_none() {
        return Err(QueryFault::NoSuch);
    }
    let rows = reach(alloc, live, subject)?;
    Ok(Report::Reach(rows))
}

// What the records of a group's users count up to, by marks that are the policy's.
fn group_tally_by(
    alloc: Global,
    policy: &Policy,
    book: &Book,
    group: &Name,
) -> Result<Tally, AllocError>
    requires { HasMarksBy policy.now book.now }
    ensures { IfOk result (λ tally.
        tally ≡ group_tally_of policy.now group.now (entries_by policy.now book.now)) }
{
    book.group_tally(alloc, policy, group)
}

/// What the records of a subject count up to, by marks that are the policy's: those of a user, who
/// needn't be in it, or those of the users of a group, which must be.
pub(crate) fn tally_by_marks(
    alloc: Global,
    policy: &Policy,
    book: &Book,
    subject: &SubjectId,
) -> Result<Report, QueryFault>
    requires { HasMarksBy policy.now book.now }
    ensures found { UnlessMemory is_memory result
        (reporting.Reports (meaning_of policy.now book.now) (queries.Tally subject.now) result) }
    ensures sure { reporting.Reports (meaning_of policy.now book.now) (queries.Tally subject.now)
        (Err NoSuch) → result ≡ Err NoSuch }
{
    match subject.kind {
        Kind::User => Ok(Report::Tally(book.tally(subject.name.as_slice()))),
        Kind::Group => {
            if policy.find(subject).is_none() {
                return Err(QueryFault::NoSuch);
            }
            let tally = group_tally_by(alloc, policy, book, &subject.name)?;
            Ok(Report::Tally(tally))
        }
    }
}

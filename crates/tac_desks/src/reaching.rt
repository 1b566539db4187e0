//! Reports of the policy's rules, by automata that are built from nothing.

ghost use Rattle.std.specs.Prelude.{◌≡◌, Ok, Err, Result, IfOk};
ghost use Rattle.pol_meaning.specs.Sizes.{IsSmall};
ghost use Rattle.pol_meaning.specs.Memory.{UnlessMemory};
ghost use Rattle.tac_desk.specs.Reporting.{IsShadowReport, IsReachOf, is_memory};
ghost use Rattle.tac_desk.specs.declared.query.Report.{Report as ReportValue};
ghost use Rattle.tac_desk.specs.declared.query.QueryFault.{QueryFault as QueryFaultValue};
ghost use Rattle.tac_desk.specs.declared.query.QueryFault.TheVariants.{NoSuch};

use crate::live_reports::{reach_report_of, shadow_report_of};
use pol_automaton::Meter;
use pol_live::{BuildFault, Live};
use pol_names::SubjectId;
use pol_text::Policy;
use std::alloc::{AllocError, Global};
use tac_desk::{QueryFault, Report};

/// The policy with all its automata. It may stand, so only memory can run short.
pub(crate) fn live_policy(alloc: Global, policy: &Policy) -> Result<Live, AllocError>
    requires { IsSmall policy.now }
    ensures { IfOk result (λ live. live ≡ policy.now) }
{
    let copy = policy.copy(alloc)?;
    let mut meter = Meter::new();
    match Live::build(alloc, copy, &mut meter) {
        Ok(live) => Ok(live),
        Err(BuildFault::Memory) => Err(AllocError),
        // no subject of the policy is too large
        Err(BuildFault::TooManyStates(_)) => unreachable!(),
    }
}

/// Which rules decide no line, for each subject.
pub(crate) fn shadow_report(alloc: Global, policy: &Policy) -> Result<Report, AllocError>
    requires { IsSmall policy.now }
    ensures found { IfOk result (λ report. IsShadowReport policy.now (Ok report)) }
    ensures only { IfOk result (λ report. (other : Result ReportValue QueryFaultValue)
        → IsShadowReport policy.now other → Ok report ≡ other) }
{
    let live = live_policy(alloc, policy)?;
    shadow_report_of(alloc, &live)
}

/// By which lines the rules along the chain of a subject are reached. The policy must have the
/// subject; that it hasn't is told without memory.
pub(crate) fn reach_report(
    alloc: Global,
    policy: &Policy,
    subject: &SubjectId,
) -> Result<Report, QueryFault>
    requires { IsSmall policy.now }
    ensures found { UnlessMemory is_memory result (IsReachOf policy.now subject.now result) }
    ensures only { UnlessMemory is_memory result ((other : Result ReportValue QueryFaultValue)
        → IsReachOf policy.now subject.now other → result ≡ other) }
    ensures sure { IsReachOf policy.now subject.now (Err NoSuch) → result ≡ Err NoSuch }
{
    if policy.find(subject).is_none() {
        return Err(QueryFault::NoSuch);
    }
    let live = live_policy(alloc, policy)?;
    reach_report_of(alloc, &live, subject)
}

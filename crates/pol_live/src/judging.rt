//! Judging a text: the policy that it says, with its automata, or why the text is refused.

ghost use Rattle.std.specs.Prelude.{◌≡◌, ◌≤◌, ℕ, length, Ok, Err, IfOk};
ghost use Rattle.pol_text.specs.declared.fault.PolicyRefusal.{PolicyRefusal as RefusalValue};
ghost use Rattle.pol_live.specs.Judging.{Judges, IsOnlyJudged};
ghost use Rattle.pol_live.specs.Rise.{IsBuildRise, Rises};

use crate::fault::BuildFault;
use crate::live::Live;
use pol_automaton::Meter;
use pol_names::SubjectId;
use pol_text::{Policy, PolicyFault, PolicyRefusal};
use std::alloc::{AllocError, Global};

/// Why a text is refused.
#[derive(Clone, Copy, Debug, PartialEq, Eq)]
pub enum TextRefusal {
    /// It says no policy: the line, counted from 1, and what is wrong there.
    NoPolicy { line: usize, refusal: PolicyRefusal },
    /// It says a policy, of which this is the first subject that is too large.
    TooLarge(SubjectId),
}

impl Live {
    /// The policy that a text says, with its automata, all built anew; or why the text is refused.
    /// The error means that memory ran out.
    pub fn of_text(
        alloc: Global,
        text: &[u8],
        meter: &mut Meter,
    ) -> Result<Result<Live, TextRefusal>, AllocError>
        ensures found { IfOk result (Judges text.now) }
        ensures only { IfOk result (IsOnlyJudged text.now) }

        // The line of a refusal is one of the text's.
        ensures place { (line : ℕ) (refusal : RefusalValue) →
            result ≡ Ok (Err (TextRefusal.NoPolicy line refusal)) → line ≤ length text.now }

        // The meter rises by the residuals of each automaton that is made.
        ensures rises { IfOk result (λ judged. IfOk judged
            (λ live. Rises (IsBuildRise live) meter.old.total meter.new.total)) }
        ensures kept { meter.old.total ≤ meter.new.total }
    {
        let policy = match Policy::read(alloc, text) {
            Ok(policy) => policy,
            Err(PolicyFault::Refused { line, refusal }) => {
                return Ok(Err(TextRefusal::NoPolicy { line, refusal }));
            }
            Err(PolicyFault::Memory) => return Err(AllocError),
        };
        match Live::build(alloc, policy, meter) {
            Ok(live) => Ok(Ok(live)),
            Err(BuildFault::TooManyStates(subject)) => Ok(Err(TextRefusal::TooLarge(subject))),
            Err(BuildFault::Memory) => Err(AllocError),
        }
    }
}

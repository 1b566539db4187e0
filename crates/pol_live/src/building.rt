//! Building the automata of a policy.

ghost use Rattle.std.specs.Prelude.{◌≡◌, ◌<◌, ℕ, length, take, slice_get, is_some, Some, None};
ghost use Rattle.std.specs.Prelude.{IsTrue, IfOk, IfErr, OnOk, OnErr, true};
ghost use Rattle.basics.specs.Memory.{Except};
ghost use Rattle.pol_text.specs.declared.subject.Subject.{Subject as SubjectValue};
ghost use Rattle.pol_text.specs.Policy.{WellFormed};
ghost use Rattle.pol_meaning.specs.Sizes.{AreSmall, IsSmall};
ghost use Rattle.pol_live.specs.Kept.{AreParts, AreAll, HaveKeepers, Grows, is_keeper, slot};
ghost use Rattle.pol_live.specs.Counting.{Counts, NotLowered, states_of};
ghost use Rattle.pol_live.specs.Refusing.{IsRefusedFor, is_memory};

use crate::fault::BuildFault;
use crate::filling::{FillFault, fill};
use crate::parts::{Parts, blank};
use crate::sizing::first_large;
use pol_automaton::Meter;
use pol_text::Policy;
use std::alloc::{AllocError, Global};

// The automata of the subject at a place. A refusal names the first large subject.
fn fill_subject(
    alloc: Global,
    policy: &Policy,
    index: usize,
    parts: &mut Parts,
    meter: &mut Meter,
) -> Result<(), BuildFault>
    requires within { index < length policy.now }
    requires small { AreSmall policy.now (take index policy.now) }
    requires well_formed { WellFormed policy.now }
    requires right { AreParts policy.now parts.old }
    ensures right { OnOk result (AreParts policy.now parts.new) }
    ensures grows { OnOk result (Grows parts.old parts.new) }
    ensures there { OnOk result (IsTrue (is_some (slot parts.new.wholes index))) }
    ensures keeper { OnOk result ((subject : SubjectValue)
        → slice_get policy.now index ≡ Some subject → is_keeper subject ≡ true
        → IsTrue (is_some (slot parts.new.owns index))) }
    ensures err { IfErr result (λ fault. Except (is_memory fault)
        (IsRefusedFor policy.now fault)) }
    ensures counts { OnOk result (Counts meter.old.total meter.new.total
        (states_of policy.now parts.old) (states_of policy.now parts.new)) }
    ensures kept { OnErr result (NotLowered meter.old.total meter.new.total) }
{
    match fill(alloc, policy, index, Policy::MAX_CHAIN, parts, meter) {
        Ok(()) => Ok(()),
        Err(FillFault::TooManyStates(large)) => {
            let first = first_large(alloc, policy, parts, index, large)?;
            Err(BuildFault::TooManyStates(first))
        }
        Err(FillFault::Memory) => Err(BuildFault::Memory),
    }
}

/// Makes the automata that there aren't yet, in the policy's order.
pub(crate) fn complete(
    alloc: Global,
    policy: &Policy,
    parts: &mut Parts,
    meter: &mut Meter,
) -> Result<(), BuildFault>
    requires { AreParts policy.now parts.old }
    ensures right { OnOk result (AreParts policy.now parts.new) }
    ensures grows { OnOk result (Grows parts.old parts.new) }
    ensures all { OnOk result (AreAll policy.now parts.new) }
    ensures keepers { OnOk result (HaveKeepers policy.now parts.new) }
    ensures small { OnOk result (IsSmall policy.now) }
    ensures err { IfErr result (λ fault. Except (is_memory fault)
        (IsRefusedFor policy.now fault)) }
    ensures counts { OnOk result (Counts meter.old.total meter.new.total
        (states_of policy.now parts.old) (states_of policy.now parts.new)) }
    ensures kept { OnErr result (NotLowered meter.old.total meter.new.total) }
{
    for index in 0..policy.subjects().len() {
        fill_subject(alloc, policy, index, parts, meter)?;
    }
    Ok(())
}

/// No automata of the policy's subjects.
pub(crate) fn no_parts(alloc: Global, policy: &Policy) -> Result<Parts, AllocError>
    ensures right { IfOk result (λ parts. AreParts policy.now parts) }
    ensures none { IfOk result (λ parts. ((k : ℕ) → slot parts.owns k ≡ None)
        × ((k : ℕ) → slot parts.wholes k ≡ None)) }
{
    let owns = blank(alloc, policy.len())?;
    let wholes = blank(alloc, policy.len())?;
    Ok(Parts { owns, wholes })
}

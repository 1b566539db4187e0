//! The printed form of a policy.

ghost use Rattle.std.specs.Prelude.{◌≡◌, List, IfOk, OnErr};
ghost use Rattle.pol_text.specs.Text.{text_of};

use basics::Bytes;
use pol_text::Policy;
use std::alloc::{AllocError, Global};

/// Who prints a policy.
pub trait Printer: Drop {
    ghost use Rattle.pol_text.specs.declared.subject.Subject.{Subject};

    /// It may lack memory for what this policy is printed as.
    ghost lacks: { Self → List Subject → Type 0 };

    /// What the policy is printed as. The error means that memory ran out.
    fn print(&self, policy: &Policy) -> Result<Bytes, AllocError>
        ensures text { IfOk result (λ text. text ≡ text_of policy.now) }

        // Only a policy that it may lack memory for isn't printed.
        ensures err { OnErr result (lacks self.now policy.now) };
}

impl Printer for Global {
    // what memory there is, is in no contract
    ghost lacks = { λ _ _. Unit {0} };

    fn print(&self, policy: &Policy) -> Result<Bytes, AllocError> {
        policy.print(*self)
    }
}

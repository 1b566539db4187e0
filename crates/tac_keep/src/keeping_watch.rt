//! Who hands a policy over whenever that is another one.

ghost use Rattle.std.specs.Prelude.{◌≡◌, false};
ghost use Rattle.tac_keep.specs.Kept.{HandsOver, IsHandedOver, IsHandedOverLate};

use crate::printing::Printer;
use crate::tray::{HandOver, Wanted};
use pol_text::Policy;
use tac_watch::{Gauge, Watch};

/// After each accepted edit of a desk it hands over what the policy is printed as, and after an
/// accepted load that nothing is to be kept. Where there is no memory to print the policy it hands
/// over that, and tries again at the next question.
#[derive(Drop)]
pub struct KeepingWatch<P, T> {
    printer: P,
    tray: T,
    // whether the policy could not be printed when it was handed over
    is_unprinted: bool,
}

impl<P: Printer, T: HandOver> KeepingWatch<P, T> {
    /// One that handed nothing over yet.
    pub fn new(printer: P, tray: T) -> KeepingWatch<P, T>
        ensures printer { result.printer ≡ «printer» }
        ensures tray { result.tray ≡ «tray» }
        ensures printed { result.is_unprinted ≡ false }
    {
        KeepingWatch {
            printer,
            tray,
            is_unprinted: false,
        }
    }

    // Hands this policy over, or that it could not be printed.
    fn hand_over(&mut self, policy: &Policy)
        ensures handed { IsHandedOver T.told (P.lacks self.old.printer policy.now)
            self.old self.new policy.now }
        ensures printer { self.new.printer ≡ self.old.printer }
    {
        match self.printer.print(policy) {
            Ok(text) => {
                self.is_unprinted = false;
                self.tray.hand_over(Wanted::Text(text));
            }
            Err(_) => {
                self.is_unprinted = true;
                self.tray.hand_over(Wanted::Unprinted);
            }
        }
    }

    // Hands this policy over, if there is memory to print it by now.
    fn hand_over_late(&mut self, policy: &Policy)
        ensures handed { IsHandedOverLate T.told (P.lacks self.old.printer policy.now)
            self.old self.new policy.now }
        ensures printer { self.new.printer ≡ self.old.printer }
    {
        if let Ok(text) = self.printer.print(policy) {
            self.is_unprinted = false;
            self.tray.hand_over(Wanted::Text(text));
        }
    }
}

impl<P: Printer, T: HandOver> Watch for KeepingWatch<P, T> {
    ghost sees = { HandsOver T.told P.lacks };

    fn stored(&mut self, _gauge: Gauge) {}

    fn edited(&mut self, policy: &Policy, _edits: usize) {
        self.hand_over(policy);
    }

    fn loaded(&mut self, _policy: &Policy) {
        self.is_unprinted = false;
        self.tray.hand_over(Wanted::Nothing);
    }

    fn questioned(&mut self, policy: &Policy) {
        if self.is_unprinted {
            self.hand_over_late(policy);
        }
    }
}

//! Who makes the calls of a connection.

ghost use Rattle.std.specs.Prelude.{◌≡◌, ℕ, IfOk, IfErr, OnErr};
ghost use Rattle.tac_conn.specs.declared.ask.Ask.{Ask};
ghost use Rattle.tac_conn.specs.Ask.{kind_of_ask, kind_of_answer};
ghost use Rattle.tac_hall.specs.declared.call.Call.TheVariants as calls;
ghost use Rattle.tac_hall.specs.declared.call.CallAnswer.TheVariants as answers;
ghost use Rattle.tac_hall.specs.declared.fault.HallFault.{HallFault};
ghost use Rattle.tac_hall.specs.Calls.{IsOfKind};
ghost use Rattle.tac_worker.specs.Worked.{Exchange};
ghost use Rattle.tac_worker.specs.Working.{IsUnmade};

use tac_conn::{Answer, Ask, Hash};
use tac_hall::{Call, HallFault, Receipt};

/// Who makes the calls of a connection, one after another: a seat of a hall.
pub trait Caller: Drop {
    /// The caller made this exchange, and nothing else, and is this one then.
    ghost makes: { Self → Exchange → Self → Type 0 };

    /// It made no call, though it may have seen what others did.
    ghost rests: { Self → Self → Type 0 };

    /// It is refused a call of this ask so.
    ghost refuses: { Self → Ask → HallFault → Type 0 };

    /// The number of its seat.
    fn number(&self) -> u32;

    /// Calls an ask, and gives it back with the answer. Where it is refused, it did nothing.
    fn ask(&mut self, ask: Ask) -> Result<(Answer, Ask), HallFault>
        ensures makes { IfOk result (λ given. (segment : ℕ) × (place : ℕ) × makes self.old
            (record { ask = ask; segment = segment; place = place; answer = given.0 }) self.new) }
        ensures kind { IfOk result (λ given. kind_of_answer given.0 ≡ kind_of_ask ask) }
        ensures same { IfOk result (λ given. given.1 ≡ ask) }
        ensures unmade { IfErr result (IsUnmade (refuses self.new) ask) }
        ensures err { OnErr result (rests self.old self.new) };

    /// The hash that the password of this ask is compared with, if it is one. It is no call. The
    /// policy may be another by the time of the call, so that nothing is promised of it.
    fn hash(&self, _: &Ask) -> Option<Hash> {
        None
    }

    /// Who does nothing rests.
    ghost rests_so: { (caller : Self) → rests caller caller };
}

/// The ask that was called.
pub(crate) fn ask_in(call: Call) -> Ask
    requires { (ask : Ask) × (call ≡ calls.Ask ask) }
    ensures { call ≡ calls.Ask result }
{
    let Some(ask) = call.into_ask() else {
        unreachable!()
    };
    ask
}

/// The answer in the receipt of an ask.
pub(crate) fn answer_in(receipt: Receipt) -> Answer
    requires { (ask : Ask) × IsOfKind (calls.Ask ask) receipt.answer }
    ensures { receipt.answer ≡ answers.Ask result }
{
    let Some(answer) = receipt.into_answer().into_asked() else {
        unreachable!()
    };
    answer
}

//! The desk's answer to a call.

ghost use Rattle.std.specs.Prelude.{◌≡◌, false, IsOk, IfOk, OnErr};
ghost use Rattle.tac_hall.specs.Calls.{Answers, IsOfKind, is_ask};

use crate::call::{Call, CallAnswer};
use std::alloc::AllocError;
use tac_desk::Desk;

/// The desk's answer to a call. The error means that memory ran out for an ask; nothing has changed
/// then.
pub(crate) fn answer<D: Desk>(desk: &mut D, call: &Call) -> Result<CallAnswer, AllocError>
    ensures answers { IfOk result (λ told.
        Answers (D.meaning desk.old) call.now told (D.meaning desk.new)) }
    ensures kind { IfOk result (IsOfKind call.now) }
    ensures sure { is_ask call.now ≡ false → IsOk result }
    ensures err { OnErr result (D.meaning desk.new ≡ D.meaning desk.old) }
{
    match call {
        Call::Ask(ask) => {
            let answer = desk.ask(ask)?;
            Ok(CallAnswer::Ask(answer))
        }
        Call::Edit(edit) => {
            let answer = desk.edit(edit);
            Ok(CallAnswer::Edit(answer))
        }
        Call::Batch(edits) => {
            let answer = desk.edit_all(edits.as_slice());
            Ok(CallAnswer::Batch(answer))
        }
        Call::Load(policy) => {
            let answer = desk.load(policy);
            Ok(CallAnswer::Edit(answer))
        }
        Call::Query(query) => {
            let answer = desk.query(query);
            Ok(CallAnswer::Query(answer))
        }
        Call::Stop => Ok(CallAnswer::Stopped),
    }
}

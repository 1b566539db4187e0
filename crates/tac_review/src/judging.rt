//! The policy of a text, or why the text is refused.

ghost use Rattle.std.specs.Prelude.{◌≡◌, IfOk};
ghost use Rattle.pol_live.specs.Judging.{Judges, IsOnlyJudged};
ghost use Rattle.tac_review.specs.Judged as judged;

use pol_automaton::Meter;
use pol_live::{Live, TextRefusal};
use pol_text::PolicyFault;
use std::alloc::{AllocError, Global};
use tac_console::{write_policy_fault, write_size_fault};

/// The policy of a text, with its automata, or why the text is refused. Nobody asks how much was
/// built.
pub(crate) fn judge(alloc: Global, text: &[u8]) -> Result<Result<Live, TextRefusal>, AllocError>
    ensures found { IfOk result (Judges text.now) }
    ensures only { IfOk result (IsOnlyJudged text.now) }
{
    Live::of_text(alloc, text, &mut Meter::new())
}

/// The line that says why a text is refused.
pub fn refusal_line(alloc: Global, refusal: TextRefusal) -> Result<Vec<u8>, AllocError>
    ensures { IfOk result (λ printed. printed.items ≡ judged.refusal_line refusal) }
{
    let mut printed = Vec::new(alloc);
    match refusal {
        TextRefusal::NoPolicy { line, refusal } => {
            write_policy_fault(alloc, &mut printed, PolicyFault::Refused { line, refusal })?;
        }
        TextRefusal::TooLarge(subject) => write_size_fault(alloc, &mut printed, subject)?,
    }
    Ok(printed)
}

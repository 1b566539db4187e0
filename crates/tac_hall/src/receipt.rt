//! What the maker of a call is told.

use crate::call::CallAnswer;

/// What the maker of a call is told: the number of the seat, the segment in which the call stands,
/// its place in the log of that, and the answer.
pub struct Receipt {
    pub seat: u32,
    pub segment: u64,
    pub place: usize,
    pub answer: CallAnswer,
}

// By hand, so that a proof of an owner has one call at each exit, not a drop of each field.
impl Drop for Receipt {
    fn drop(self) {
        let Receipt {
            seat: _,
            segment: _,
            place: _,
            answer: _,
        } = self;
    }
}

impl Receipt {
    ghost use Rattle.std.specs.Prelude.{◌≡◌};

    /// The answer, where the rest isn't needed any more.
    pub fn into_answer(self) -> CallAnswer
        ensures { result ≡ self.answer }
    {
        let Receipt {
            seat: _,
            segment: _,
            place: _,
            answer,
        } = self;
        answer
    }
}

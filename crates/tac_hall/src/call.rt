//! What is called at a hall, and what it is answered.

ghost use Rattle.std.specs.Prelude.{◌≡◌};

use basics::Sequence;
use pol_edit::{BatchFault, Edit, EditFault};
use pol_meaning::Changes;
use pol_text::Policy;
use tac_conn::{Answer, Ask};
use tac_desk::{Query, QueryFault, Report, Shared};

/// What a seat may call at its hall. Each call is answered before the next is taken.
pub enum Call {
    /// What a connection asks the desk.
    Ask(Ask),
    /// An edit of the policy.
    Edit(Edit),
    /// Edits that are made together, all or none.
    Batch(Sequence<Edit>),
    /// Another policy, in the place of the present one.
    Load(Policy),
    /// A question to the desk.
    Query(Query),
    /// No further call is taken.
    Stop,
}

// By hand, so that a proof of an owner has one call at each exit, not a drop of each field.
impl Drop for Call {
    fn drop(self) {
        match self {
            Call::Ask(_) => {}
            Call::Edit(_) => {}
            Call::Batch(_) => {}
            Call::Load(_) => {}
            Call::Query(_) => {}
            Call::Stop => {}
        }
    }
}

impl Call {
    ghost use Rattle.std.specs.Prelude.{◌≡◌};
    ghost use Rattle.tac_hall.specs.Calls.{asked_in, is_stop};

    /// What a connection asked, if that was called.
    pub fn into_ask(self) -> Option<Ask>
        ensures { result ≡ asked_in self }
    {
        match self {
            Call::Ask(ask) => Some(ask),
            _ => None,
        }
    }

    /// Whether no further call is taken.
    pub fn is_stop(&self) -> bool
        ensures { result ≡ is_stop self.now }
    {
        matches!(self, Call::Stop)
    }
}

/// The answer to a call, of the call's kind.
pub enum CallAnswer {
    Ask(Answer),
    /// What the edit, or the policy that is loaded, changes for users; or why it is refused, a lack
    /// of memory included.
    Edit(Result<Shared<Changes>, EditFault>),
    /// What the edits change together, or which of them is refused, and why.
    Batch(Result<Shared<Changes>, BatchFault>),
    /// The report, or why there is none, a lack of memory included.
    Query(Result<Shared<Report>, QueryFault>),
    Stopped,
}

// By hand, so that a proof of an owner has one call at each exit, not a drop of each field.
impl Drop for CallAnswer {
    fn drop(self) {
        match self {
            CallAnswer::Ask(_) => {}
            CallAnswer::Edit(_) => {}
            CallAnswer::Batch(_) => {}
            CallAnswer::Query(_) => {}
            CallAnswer::Stopped => {}
        }
    }
}

impl CallAnswer {
    ghost use Rattle.std.specs.Prelude.{◌≡◌};
    ghost use Rattle.tac_hall.specs.Calls.{asked_answer};

    /// The desk's answer, if an ask was called.
    pub fn into_asked(self) -> Option<Answer>
        ensures { result ≡ asked_answer self }
    {
        match self {
            CallAnswer::Ask(answer) => Some(answer),
            _ => None,
        }
    }
}

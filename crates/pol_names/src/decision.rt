//! What a policy decides of a command line.

ghost use Rattle.std.specs.Prelude.{◌≡◌};
ghost use Rattle.pol_names.specs.Decision.{verdict_word};

use crate::subject_id::SubjectId;

/// What a rule says of the lines that its pattern holds.
#[derive(Clone, Copy, Debug, PartialEq, Eq)]
pub enum Verdict {
    Permit,
    Deny,
}

impl Verdict {
    /// The word that such a rule begins with wherever it is written, and the space after it.
    pub fn keyword(self) -> &'static str
        ensures { result.now ≡ verdict_word self }
    {
        match self {
            Verdict::Permit => "permit ",
            Verdict::Deny => "deny ",
        }
    }
}

/// What decided: a rule, by its owner and its number there, from 1, or that no rule matched.
#[derive(Clone, Copy, Debug, PartialEq, Eq)]
pub enum By {
    Rule(SubjectId, u16),
    Default,
}

/// What a policy says of a user's line, and what decided it.
#[derive(Clone, Copy, Debug, PartialEq, Eq)]
pub struct Decision {
    pub verdict: Verdict,
    pub by: By,
}

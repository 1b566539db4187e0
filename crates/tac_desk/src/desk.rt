//! What a desk is, however it keeps what it represents.

ghost use Rattle.std.specs.Prelude.{◌≡◌, ◌↔◌, false, Err, IsOk, IsTrue, IfOk, OnOk, OnErr};
ghost use Rattle.tac_conn.specs.Ask.{kind_of_ask, kind_of_answer};
ghost use Rattle.pol_edit.specs.Applying.{is_memory};
ghost use Rattle.pol_edit.specs.Batches.{ran_out};
ghost use Rattle.pol_meaning.specs.Memory.{UnlessMemory};
ghost use Rattle.tac_desk.specs.Meaning.{Meaning};
ghost use Rattle.tac_desk.specs.Asking.{asked, hash_for, takes_memory, Passes};
ghost use Rattle.tac_desk.specs.Editing as editing;
ghost use Rattle.tac_desk.specs.Reporting as reporting;
ghost use Rattle.tac_desk.specs.declared.query.QueryFault.TheVariants.{NoSuch};

use crate::query::{Query, QueryFault, Report};
use crate::shared::Shared;
use crate::state::State;
use pol_edit::{BatchFault, Edit, EditFault};
use pol_meaning::Changes;
use pol_text::Policy;
use std::alloc::AllocError;
use std::slice;
use tac_conn::{Answer, Ask, Hash};

/// A desk: it answers the asks of connections, takes edits of its policy, and answers questions.
/// Each call is one step, and what it answers depends on what the desk represents, and on nothing
/// else: the policy, the accepted records that are kept, their limit, and how many were forgotten.
pub trait Desk: Drop {
    /// What the desk represents.
    ghost meaning: { Self → Meaning };

    /// Answers what is asked for a packet. A refusal means that memory ran out.
    fn ask(&mut self, ask: &Ask) -> Result<Answer, AllocError>
        ensures answer { IfOk result (λ answer.
            answer ≡ (asked (meaning self.old) ask.now).answer) }
        ensures after { OnOk result
            (meaning self.new ≡ (asked (meaning self.old) ask.now).meaning) }
        ensures kind { IfOk result (λ answer. kind_of_answer answer ≡ kind_of_ask ask.now) }

        // A login passes exactly for a user who is there, and proves to know the secret.
        ensures passes { (result ≡ Ok Answer.Pass) ↔ Passes (meaning self.old) ask.now }

        // Only a record that is to be stored and an answer with arguments take memory, and a
        // refusal changes nothing.
        ensures sure { takes_memory (meaning self.old) ask.now ≡ false → IsOk result }
        ensures err { OnErr result (meaning self.new ≡ meaning self.old) };

    /// The hash that the password of this ask is compared with, if it is one: what a password may
    /// be worked out under before it is asked. Takes a look-up of the user, and no memory.
    fn hash(&self, ask: &Ask) -> Option<Hash>
        ensures { result ≡ hash_for (meaning self.now) ask.now };

    /// Makes an edit, and answers what it changes for users. Refused as the edit is, and then where
    /// a subject of the new policy is too large, with the first such subject in its order. A
    /// refused edit changes nothing, also where memory ran out.
    fn edit(&mut self, edit: &Edit) -> Result<Shared<Changes>, EditFault>
        ensures found { UnlessMemory is_memory result
            (editing.Edits (meaning self.old) edit.now result (meaning self.new)) }
        ensures only { UnlessMemory is_memory result
            (editing.IsOnly (meaning self.old) edit.now result (meaning self.new)) }
        ensures err { OnErr result (meaning self.new ≡ meaning self.old) }
    {
        self.edit_all(slice::from_ref(edit))
            .map_err(|refusal| refusal.fault)
    }

    /// Makes the edits one after another, all or none, and answers what they change together for
    /// users. Refused as the first edit is that is refused on what those before it made, with its
    /// number, and then where a subject of the last policy is too large, with the first such
    /// subject in its order. A policy in between may be too large. Refused edits change nothing,
    /// also where memory ran out. No edits at all are accepted, and change nothing.
    fn edit_all(&mut self, edits: &[Edit]) -> Result<Shared<Changes>, BatchFault>
        ensures found { UnlessMemory ran_out result
            (editing.EditsAll (meaning self.old) edits.now result (meaning self.new)) }
        ensures only { UnlessMemory ran_out result
            (editing.IsOnlyAll (meaning self.old) edits.now result (meaning self.new)) }
        ensures err { OnErr result (meaning self.new ≡ meaning self.old) };

    /// Puts another policy in the place of the present one in one step, and answers what that
    /// changes for users, as an edit would. Refused only where a subject of it is too large, with
    /// the first such subject in its order, or where memory ran out; then nothing changes. Records
    /// stay as they are.
    fn load(&mut self, policy: &Policy) -> Result<Shared<Changes>, EditFault>
        ensures found { UnlessMemory is_memory result
            (editing.Loads (meaning self.old) policy.now result (meaning self.new)) }
        ensures only { UnlessMemory is_memory result
            (editing.IsOnlyLoaded (meaning self.old) policy.now result (meaning self.new)) }
        ensures err { OnErr result (meaning self.new ≡ meaning self.old) };

    /// Answers a question, and changes nothing.
    fn query(&mut self, query: &Query) -> Result<Shared<Report>, QueryFault>
        ensures found { UnlessMemory reporting.is_memory result
            (reporting.Reports (meaning self.old) query.now result) }
        ensures only { UnlessMemory reporting.is_memory result
            (reporting.IsOnly (meaning self.old) query.now result) }
        ensures kind { IfOk result (λ report. IsTrue (reporting.is_report_to query.now report)) }

        // A refusal takes no memory.
        ensures sure { reporting.Reports (meaning self.old) query.now (Err NoSuch) →
            result ≡ Err NoSuch }
        ensures after { meaning self.new ≡ meaning self.old };

    /// The present policy. It is lent, so this takes no memory.
    fn policy(&self) -> &Policy
        ensures { result.now ≡ (meaning self.now).policy };

    /// What the desk represents. The error means that memory ran out.
    fn state(&self) -> Result<State, AllocError>
        ensures { IfOk result (λ state. state ≡ meaning self.now) };
}

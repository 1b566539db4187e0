//! Batches: the edits between `begin` and `commit` are kept, and made together.

ghost use Rattle.std.specs.Prelude.{◌≡◌, List, Some, None, IsTrue, IfOk, OnOk, OnErr};
ghost use Rattle.tac_console.specs.Batching as batches;
ghost use Rattle.tac_console.specs.declared.asked.Asked.{Asked as AskedValue};
ghost use Rattle.tac_console.specs.declared.asked.Asked.TheVariants as asks;
ghost use Rattle.tac_console.specs.declared.batching.Action.TheVariants as acts;

use crate::asked::Asked;
use basics::Sequence;
use pol_edit::{Edit, EditFault};
use std::alloc::{AllocError, Global};
use std::marker::Model;
use tac_desk::Query;

/// What a line is told where the desk isn't asked.
#[derive(Clone, Copy, Debug, PartialEq, Eq)]
pub enum Notice {
    /// A batch begins, or is dropped.
    Done,
    /// An edit is kept: how many are, with it.
    Kept(usize),
    /// The line is refused.
    Refused(EditFault),
}

/// What is to be done for a line.
#[derive(Drop)]
pub enum Action {
    /// The edit is made.
    Edit(Edit),
    /// The edits are made in their order, all or none.
    Commit(Sequence<Edit>),
    /// The question is answered by the policy as it is, without the edits that are kept.
    Query(Query),
    /// The desk isn't asked.
    Tell(Notice),
}

/// The batch of a console: none is open, or the edits that are kept since `begin`.
#[derive(Drop)]
pub struct Batch {
    kept: Option<Sequence<Edit>>,
}

impl Model for Batch {
    ghost use Rattle.std.specs.Prelude.{Option, List};
    ghost use Rattle.pol_edit.specs.declared.edit.Edit.{Edit};

    ghost Value = { Option (List Edit) };

    ghost view = { λ batch. batch.kept };
}

// Keeps the edit, if there is room for it.
fn keep(kept: &mut Sequence<Edit>, edit: Edit) -> Result<Notice, AllocError>
    ensures action { IfOk result (λ notice. acts.Tell notice
        ≡ batches.action_in kept.old (asks.Edit edit)) }
    ensures kept { OnOk result (Some kept.new ≡ batches.after_in kept.old (asks.Edit edit)) }
    ensures memory { OnErr result (IsTrue (batches.has_room kept.old)) }
{
    if kept.len() >= Batch::MOST {
        return Ok(Notice::Refused(EditFault::Limit));
    }
    kept.push(edit)?;
    Ok(Notice::Kept(kept.len()))
}

impl Batch {
    /// The most edits that a batch keeps.
    pub const MOST: usize = 64;

    /// No batch is open. Takes no memory.
    pub fn closed() -> Batch
        ensures { result ≡ None }
    {
        Batch { kept: None }
    }

    /// Takes what a line asks, and answers what is to be done for it. Amortised constant time.
    ///
    /// The error means that memory ran out to keep an edit. Then no batch is open any more.
    #[tactic(auto, using(crate::proofs::BatchFacts::has_first))]
    pub fn take(&mut self, alloc: Global, asked: Asked) -> Result<Action, AllocError>
        ensures action { IfOk result (λ action. action ≡ batches.action_of self.old asked) }
        ensures batch { OnOk result (self.new ≡ batches.batch_after self.old asked) }

        // Where an edit can't be kept, none is.
        ensures dropped { OnErr result (self.new ≡ None) }
        ensures memory { OnErr result (IsTrue (batches.keeps self.old asked)) }

        // What `commit` hands on are the first edits since `begin`, in their order.
        ensures first { (lines : List AskedValue) → batches.HasFirst lines }
    {
        match self.kept.take() {
            Some(kept) => self.take_in(kept, asked),
            None => Ok(self.take_alone(alloc, asked)),
        }
    }

    /// Drops the batch, if one is open.
    pub fn abandon(&mut self)
        ensures { self.new ≡ None }
    {
        self.kept = None;
    }

    // Where no batch is open.
    fn take_alone(&mut self, alloc: Global, asked: Asked) -> Action
        requires { self.old ≡ None }
        ensures action { result ≡ batches.action_alone asked }
        ensures batch { self.new ≡ batches.after_alone asked }
    {
        match asked {
            Asked::Edit(edit) => Action::Edit(edit),
            Asked::Query(query) => Action::Query(query),
            Asked::Begin => {
                self.kept = Some(Sequence::new(alloc));
                Action::Tell(Notice::Done)
            }
            Asked::Commit | Asked::Abandon | Asked::Neither => {
                Action::Tell(Notice::Refused(EditFault::BadEdit))
            }
        }
    }

    // In a batch that has kept these. It is closed where they aren't put back.
    fn take_in(&mut self, kept: Sequence<Edit>, asked: Asked) -> Result<Action, AllocError>
        requires { self.old ≡ None }
        ensures action { IfOk result (λ action. action ≡ batches.action_in kept asked) }
        ensures batch { OnOk result (self.new ≡ batches.after_in kept asked) }
        ensures dropped { OnErr result (self.new ≡ None) }
        ensures memory { OnErr result (IsTrue (batches.keeps (Some kept) asked)) }
    {
        let mut kept = kept;
        let action = match asked {
            Asked::Edit(edit) => Action::Tell(keep(&mut kept, edit)?),
            Asked::Query(query) => Action::Query(query),
            Asked::Begin | Asked::Neither => Action::Tell(Notice::Refused(EditFault::BadEdit)),
            Asked::Commit => return Ok(Action::Commit(kept)),
            Asked::Abandon => return Ok(Action::Tell(Notice::Done)),
        };
        self.kept = Some(kept);
        Ok(action)
    }
}

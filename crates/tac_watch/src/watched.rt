//! A desk that is watched.

ghost use Rattle.std.specs.Prelude.{◌≡◌, ◌↔◌, false, Ok, Err, IsOk, IsTrue, IfOk, OnOk, OnErr};
ghost use Rattle.std.specs.Prelude.{length};
ghost use Rattle.pol_edit.specs.Applying.{is_memory};
ghost use Rattle.pol_edit.specs.Batches.{ran_out};
ghost use Rattle.pol_meaning.specs.Memory.{UnlessMemory};
ghost use Rattle.tac_conn.specs.Ask.{kind_of_ask, kind_of_answer};
ghost use Rattle.tac_conn.specs.declared.ask.Answer.TheVariants as answers;
ghost use Rattle.tac_desk.specs.Asking.{asked, takes_memory, Passes};
ghost use Rattle.tac_desk.specs.Editing as editing;
ghost use Rattle.tac_desk.specs.Reporting as reporting;
ghost use Rattle.tac_desk.specs.declared.query.QueryFault.TheVariants.{NoSuch};
ghost use Rattle.tac_watch.specs.Filling as filling;
ghost use Rattle.tac_watch.specs.Watching as watching;

use crate::gauge::Gauge;
use crate::watch::Watch;
use pol_edit::{BatchFault, Edit, EditFault};
use pol_meaning::Changes;
use pol_text::Policy;
use std::alloc::AllocError;
use tac_conn::{Answer, Ask, Hash};
use tac_desk::{Desk, Query, QueryFault, Report, Shared, State};
use tac_tally::RecordLimit;

/// Another desk, which is asked and edited as that one is. Who watches it is told of each record
/// that is stored, of each accepted edit or load with the policy that it makes, and of each question
/// before it is answered: within the call, so that is the policy at this place of the history.
#[derive(Drop)]
pub struct Watched<D, W> {
    desk: D,
    watch: W,
    gauge: Gauge,
}

impl<D: Desk, W: Watch> Watched<D, W> {
    /// This desk, which has no records yet, with this limit to them, and who watches it.
    pub fn new(desk: D, limit: RecordLimit, watch: W) -> Watched<D, W>
        ensures desk { result.desk ≡ «desk» }
        ensures watch { result.watch ≡ «watch» }
        ensures gauge { result.gauge ≡ filling.empty limit }
    {
        Watched {
            desk,
            watch,
            gauge: Gauge::new(limit),
        }
    }

    // A record was stored.
    fn count(&mut self)
        ensures desk { self.new.desk ≡ self.old.desk }
        ensures gauge { self.new.gauge ≡ filling.counted self.old.gauge }
        ensures seen { W.sees self.old.watch (watching.stored self.new.gauge) self.new.watch }
    {
        self.gauge.count();
        self.watch.stored(self.gauge);
    }

    // So many edits were made.
    fn tell(&mut self, edits: usize)
        ensures desk { self.new.desk ≡ self.old.desk }
        ensures gauge { self.new.gauge ≡ self.old.gauge }
        ensures seen { W.sees self.old.watch
            (watching.edited (D.meaning self.old.desk).policy edits) self.new.watch }
    {
        self.watch.edited(self.desk.policy(), edits);
    }
}

impl<D: Desk, W: Watch> Desk for Watched<D, W> {
    ghost meaning = { λ desk. D.meaning desk.desk };

    fn ask(&mut self, ask: &Ask) -> Result<Answer, AllocError>
        ensures answer { IfOk result (λ answer.
            answer ≡ (asked (D.meaning self.old.desk) ask.now).answer) }
        ensures after { OnOk result
            (D.meaning self.new.desk ≡ (asked (D.meaning self.old.desk) ask.now).meaning) }
        ensures kind { IfOk result (λ answer. kind_of_answer answer ≡ kind_of_ask ask.now) }
        ensures passes { (result ≡ Ok answers.Pass) ↔ Passes (D.meaning self.old.desk) ask.now }
        ensures sure { takes_memory (D.meaning self.old.desk) ask.now ≡ false → IsOk result }
        ensures err { OnErr result (D.meaning self.new.desk ≡ D.meaning self.old.desk) }

        // A record that is answered as stored is counted and told, and nothing else is.
        ensures gauge { self.new.gauge ≡ filling.after result self.old.gauge }
        ensures seen { watching.SeesAsk W.sees result self.new.gauge self.old.watch
            self.new.watch }
    {
        let answered = self.desk.ask(ask);
        if let Ok(Answer::Stored) = &answered {
            self.count();
        }
        answered
    }

    fn hash(&self, ask: &Ask) -> Option<Hash> {
        self.desk.hash(ask)
    }

    fn edit(&mut self, edit: &Edit) -> Result<Shared<Changes>, EditFault>
        ensures found { UnlessMemory is_memory result (editing.Edits (D.meaning self.old.desk)
            edit.now result (D.meaning self.new.desk)) }
        ensures only { UnlessMemory is_memory result (editing.IsOnly (D.meaning self.old.desk)
            edit.now result (D.meaning self.new.desk)) }
        ensures err { OnErr result (D.meaning self.new.desk ≡ D.meaning self.old.desk) }
        ensures gauge { self.new.gauge ≡ self.old.gauge }

        // The policy with the edit is told, and of a refused one nothing is.
        ensures seen { OnOk result (W.sees self.old.watch
            (watching.edited (D.meaning self.new.desk).policy 1) self.new.watch) }
        ensures refused { OnErr result (self.new.watch ≡ self.old.watch) }
    {
        let edited = self.desk.edit(edit);
        if edited.is_ok() {
            self.tell(1);
        }
        edited
    }

    fn edit_all(&mut self, edits: &[Edit]) -> Result<Shared<Changes>, BatchFault>
        ensures found { UnlessMemory ran_out result (editing.EditsAll (D.meaning self.old.desk)
            edits.now result (D.meaning self.new.desk)) }
        ensures only { UnlessMemory ran_out result (editing.IsOnlyAll (D.meaning self.old.desk)
            edits.now result (D.meaning self.new.desk)) }
        ensures err { OnErr result (D.meaning self.new.desk ≡ D.meaning self.old.desk) }
        ensures gauge { self.new.gauge ≡ self.old.gauge }

        // The policy with all of the edits is told, and how many they are.
        ensures seen { OnOk result (W.sees self.old.watch
            (watching.edited (D.meaning self.new.desk).policy (length edits.now))
            self.new.watch) }
        ensures refused { OnErr result (self.new.watch ≡ self.old.watch) }
    {
        let edited = self.desk.edit_all(edits);
        if edited.is_ok() {
            self.tell(edits.len());
        }
        edited
    }

    fn load(&mut self, policy: &Policy) -> Result<Shared<Changes>, EditFault>
        ensures found { UnlessMemory is_memory result (editing.Loads (D.meaning self.old.desk)
            policy.now result (D.meaning self.new.desk)) }
        ensures only { UnlessMemory is_memory result
            (editing.IsOnlyLoaded (D.meaning self.old.desk)
            policy.now result (D.meaning self.new.desk)) }
        ensures err { OnErr result (D.meaning self.new.desk ≡ D.meaning self.old.desk) }
        ensures gauge { self.new.gauge ≡ self.old.gauge }

        // That it was loaded is told, and not that it was edited.
        ensures seen { OnOk result (W.sees self.old.watch
            (watching.loaded (D.meaning self.new.desk).policy) self.new.watch) }
        ensures refused { OnErr result (self.new.watch ≡ self.old.watch) }
    {
        let loaded = self.desk.load(policy);
        if loaded.is_ok() {
            self.watch.loaded(self.desk.policy());
        }
        loaded
    }

    fn query(&mut self, query: &Query) -> Result<Shared<Report>, QueryFault>
        ensures found { UnlessMemory reporting.is_memory result
            (reporting.Reports (D.meaning self.old.desk) query.now result) }
        ensures only { UnlessMemory reporting.is_memory result
            (reporting.IsOnly (D.meaning self.old.desk) query.now result) }
        ensures kind { IfOk result (λ report.
            IsTrue (reporting.is_report_to query.now report)) }
        ensures sure { reporting.Reports (D.meaning self.old.desk) query.now (Err NoSuch) →
            result ≡ Err NoSuch }
        ensures after { D.meaning self.new.desk ≡ D.meaning self.old.desk }
        ensures gauge { self.new.gauge ≡ self.old.gauge }

        // However it is answered, that it was asked is told.
        ensures seen { W.sees self.old.watch
            (watching.questioned (D.meaning self.old.desk).policy) self.new.watch }
    {
        self.watch.questioned(self.desk.policy());
        self.desk.query(query)
    }

    fn policy(&self) -> &Policy {
        self.desk.policy()
    }

    fn state(&self) -> Result<State, AllocError> {
        self.desk.state()
    }
}

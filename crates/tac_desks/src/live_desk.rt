//! The desk that keeps what follows from its policy.

ghost use Rattle.std.specs.Prelude.{◌≡◌, ◌≤◌, ◌↔◌, [], ◌∷◌, true, false, Ok, Err, IsOk, IsTrue};
ghost use Rattle.std.specs.Prelude.{IfOk, OnOk, OnErr};
ghost use Rattle.pol_edit.specs.Applying as applying;
ghost use Rattle.pol_edit.specs.Batches.{ran_out};
ghost use Rattle.pol_meaning.specs.Memory.{UnlessMemory};
ghost use Rattle.pol_live.specs.Refusing.{is_memory};
ghost use Rattle.pol_live.specs.Rise.{IsBuildRise, IsEditRise, IsReplacingRise, Rises};
ghost use Rattle.tac_conn.specs.Ask.{kind_of_ask, kind_of_answer};
ghost use Rattle.tac_conn.specs.declared.ask.Answer.TheVariants as answers;
ghost use Rattle.tac_tally.specs.Keeping.{refusing};
ghost use Rattle.tac_desks.specs.Opening.{Opens, IsOnlyOpened};
ghost use Rattle.tac_desks.specs.Metered.{unmetered};
ghost use Rattle.tac_desk.specs.Asking as asking;
ghost use Rattle.tac_desk.specs.Asking.{asked, takes_memory, Passes};
ghost use Rattle.tac_desk.specs.Editing as editing;
ghost use Rattle.tac_desk.specs.Meaning.{opened};
ghost use Rattle.tac_desk.specs.Reporting as reporting;
ghost use Rattle.tac_desk.specs.declared.query.QueryFault.TheVariants.{NoSuch};

use crate::authentication::{authentication, hash_for};
use crate::deciding::{authorisation_by, is_denied};
use crate::live_editing::{change_kept, load_kept};
use crate::live_reports::{reach_report_of, shadow_report_of, tally_by_marks};
use crate::records::{copy_records, numbered};
use crate::remembering::Remembered;
use crate::serving::service_answer;
use pol_automaton::Meter;
use pol_edit::{BatchFault, Edit, EditFault};
use pol_given::given;
use pol_live::{BuildFault, Live};
use pol_meaning::Changes;
use pol_text::Policy;
use std::alloc::{AllocError, Global};
use std::marker::Model;
use std::slice;
use tac_conn::{Answer, Ask, Hash};
use tac_desk::{Desk, Query, QueryFault, Report, Shared, State};
use tac_tally::{Book, Record, RecordLimit};

/// A desk that keeps the automata of its policy, the decisions on the lines that were asked last,
/// and beside each record whether the policy denies its line. A line is decided by what is
/// remembered, or by a walk along it, and an edit works out anew only what it changes.
/// A contract sees what the desk represents, and its meter.
pub struct LiveDesk {
    alloc: Global,
    live: Live,
    // of all automata that were built for `live`
    meter: Meter,
    // its marks are the policy's
    book: Book,
    // of decisions of the policy
    remembered: Remembered,
}

// By hand, so that a proof of an owner has one call at each exit, not a drop of each field.
impl Drop for LiveDesk {
    fn drop(self) {
        let LiveDesk {
            alloc: _,
            live: _,
            meter: _,
            book: _,
            remembered: _,
        } = self;
    }
}

impl Model for LiveDesk {
    ghost use Rattle.tac_desks.specs.Kept.{meaning_of};
    ghost use Rattle.tac_desks.specs.Metered.{Metered, HasMarksBy};
    ghost use Rattle.tac_desks.specs.Remembered.{AreDecisionsBy};

    ghost Value = { Metered };

    ghost view = { λ desk. record {
      meaning = meaning_of desk.live desk.book;
      meter = desk.meter.total;
    } };

    ghost invariant = { λ desk. HasMarksBy desk.live desk.book
        × AreDecisionsBy desk.live desk.remembered.kept.entries };
}

impl LiveDesk {
    /// A desk of this policy, without records, that accepts at most so many. Refused where a
    /// subject is too large, with the first such subject in the policy's order. Builds all automata
    /// once.
    pub fn new(alloc: Global, policy: Policy, record_limit: usize) -> Result<LiveDesk, BuildFault>
        ensures found { UnlessMemory is_memory result
            (Opens policy (refusing record_limit) (unmetered result)) }
        ensures only { UnlessMemory is_memory result
            (IsOnlyOpened policy (refusing record_limit) (unmetered result)) }
        ensures rises { IfOk result (λ desk. Rises (IsBuildRise policy) 0 desk.meter) }
    {
        LiveDesk::with_limit(alloc, policy, RecordLimit::refusing(record_limit))
    }

    /// A desk of this policy, without records, which keeps them as the limit says. Refused where a
    /// subject is too large, with the first such subject in the policy's order. Builds all automata
    /// once.
    pub fn with_limit(
        alloc: Global,
        policy: Policy,
        limit: RecordLimit,
    ) -> Result<LiveDesk, BuildFault>
        ensures found { UnlessMemory is_memory result (Opens policy limit (unmetered result)) }
        ensures only { UnlessMemory is_memory result
            (IsOnlyOpened policy limit (unmetered result)) }

        // The meter rises from nothing, by the residuals of each automaton that is made.
        ensures rises { IfOk result (λ desk. Rises (IsBuildRise policy) 0 desk.meter) }
    {
        let mut meter = Meter::new();
        let live = Live::build(alloc, policy, &mut meter)?;
        let desk = LiveDesk::of_live(alloc, live, meter, limit)?;
        Ok(desk)
    }

    /// A desk of a policy that has its automata, without records, which keeps them as the limit
    /// says. The meter says how many states were built so far, and goes on from there.
    pub fn of_live(
        alloc: Global,
        live: Live,
        meter: Meter,
        limit: RecordLimit,
    ) -> Result<LiveDesk, AllocError>
        ensures meaning { IfOk result (λ desk. desk.meaning ≡ opened live limit) }
        ensures meter { IfOk result (λ desk. desk.meter ≡ meter.total) }
    {
        let remembered = Remembered::new(alloc)?;
        Ok(LiveDesk {
            alloc,
            live,
            meter,
            book: Book::with_limit(alloc, limit),
            remembered,
        })
    }

    /// How many states of automata were built. Takes no memory.
    pub fn meter(&self) -> u128
        ensures { result ≡ self.now.meter }
    {
        self.meter.total()
    }

    // Stores a copy of the record, if there is room.
    fn store(&mut self, item: &Record) -> Result<Answer, AllocError>
        ensures answer { IfOk result (λ answer.
            answer ≡ (asking.stored self.old.meaning item.now).answer) }
        ensures after { OnOk result
            (self.new.meaning ≡ (asking.stored self.old.meaning item.now).meaning) }
        ensures sure { asking.is_full self.old.meaning ≡ true → IsOk result }
        ensures err { OnErr result (self.new.meaning ≡ self.old.meaning) }
        ensures meter { self.new.meter ≡ self.old.meter }
    {
        if self.book.is_full() {
            return Ok(Answer::BookFull);
        }
        let copy = item.copy(self.alloc)?;
        let denied = is_denied(&self.live, item);
        self.book.store(copy, denied).map_err(|_| AllocError)?;
        Ok(Answer::Stored)
    }

    // What a question is answered.
    fn report(&self, query: &Query) -> Result<Report, QueryFault>
        ensures found { UnlessMemory reporting.is_memory result
            (reporting.Reports self.now.meaning query.now result) }
        ensures only { UnlessMemory reporting.is_memory result
            (reporting.IsOnly self.now.meaning query.now result) }
        ensures sure { reporting.Reports self.now.meaning query.now (Err NoSuch) →
            result ≡ Err NoSuch }
    {
        match query {
            Query::Policy => {
                let policy = self.live.policy().copy(self.alloc)?;
                Ok(Report::Policy(policy))
            }
            Query::Shadow => {
                let report = shadow_report_of(self.alloc, &self.live)?;
                Ok(report)
            }
            Query::Reach(subject) => reach_report_of(self.alloc, &self.live, subject),
            Query::Tally(subject) => {
                tally_by_marks(self.alloc, self.live.policy(), &self.book, subject)
            }
            Query::Why { user, line } => Ok(Report::Why(self.live.decide(user, line.as_slice()))),
            Query::Given { user, service } => {
                let decision = self.live.decide(user, b"");
                let policy = self.live.policy();
                let given = given(self.alloc, policy, user, service, decision)?;
                Ok(Report::Given(given))
            }
            Query::Records => {
                let records = numbered(self.alloc, &self.book)?;
                Ok(Report::Records(records))
            }
        }
    }
}

impl Desk for LiveDesk {
    ghost meaning = { λ desk. desk.meaning };

    fn ask(&mut self, ask: &Ask) -> Result<Answer, AllocError>
        ensures answer { IfOk result (λ answer.
            answer ≡ (asked self.old.meaning ask.now).answer) }
        ensures after { OnOk result
            (self.new.meaning ≡ (asked self.old.meaning ask.now).meaning) }
        ensures kind { IfOk result (λ answer. kind_of_answer answer ≡ kind_of_ask ask.now) }
        ensures passes { (result ≡ Ok answers.Pass) ↔ Passes self.old.meaning ask.now }
        ensures sure { takes_memory self.old.meaning ask.now ≡ false → IsOk result }
        ensures err { OnErr result (self.new.meaning ≡ self.old.meaning) }
        ensures meter { self.new.meter ≡ self.old.meter }
    {
        match ask {
            Ask::Authenticate {
                user,
                service,
                proof,
            } => Ok(authentication(self.live.policy(), user.as_slice(), *service, proof)),
            Ask::Authorise { user, line } => authorisation_by(
                self.alloc,
                &self.live,
                &mut self.remembered,
                user.as_slice(),
                line.as_slice(),
            ),
            Ask::Serve {
                user,
                service,
                protocol,
            } => service_answer(
                self.alloc,
                self.live.policy(),
                user.as_slice(),
                service.as_slice(),
                protocol.as_ref().map(|protocol| protocol.as_slice()),
            ),
            Ask::Account(item) => self.store(item),
        }
    }

    fn hash(&self, ask: &Ask) -> Option<Hash> {
        hash_for(self.live.policy(), ask)
    }

    fn edit(&mut self, edit: &Edit) -> Result<Shared<Changes>, EditFault>
        ensures found { UnlessMemory applying.is_memory result
            (editing.Edits self.old.meaning edit.now result self.new.meaning) }
        ensures only { UnlessMemory applying.is_memory result
            (editing.IsOnly self.old.meaning edit.now result self.new.meaning) }
        ensures err { OnErr result (self.new.meaning ≡ self.old.meaning) }

        // The meter rises by the residuals of each automaton that the edit makes anew.
        ensures rises { OnOk result (Rises (IsEditRise (edit.now ∷ []) self.new.meaning.policy)
            self.old.meter self.new.meter) }
        ensures kept { OnErr result (self.old.meter ≤ self.new.meter) }
    {
        self.edit_all(slice::from_ref(edit))
            .map_err(|refusal| refusal.fault)
    }

    fn edit_all(&mut self, edits: &[Edit]) -> Result<Shared<Changes>, BatchFault>
        ensures found { UnlessMemory ran_out result
            (editing.EditsAll self.old.meaning edits.now result self.new.meaning) }
        ensures only { UnlessMemory ran_out result
            (editing.IsOnlyAll self.old.meaning edits.now result self.new.meaning) }
        ensures err { OnErr result (self.new.meaning ≡ self.old.meaning) }

        // The meter rises by the residuals of each automaton that the edits together make anew.
        ensures rises { OnOk result (Rises (IsEditRise edits.now self.new.meaning.policy)
            self.old.meter self.new.meter) }
        ensures kept { OnErr result (self.old.meter ≤ self.new.meter) }
    {
        let shared = change_kept(
            self.alloc,
            &mut self.live,
            &mut self.meter,
            &mut self.book,
            edits,
        )?;
        self.remembered.clear();
        Ok(shared)
    }

    fn load(&mut self, policy: &Policy) -> Result<Shared<Changes>, EditFault>
        ensures found { UnlessMemory applying.is_memory result
            (editing.Loads self.old.meaning policy.now result self.new.meaning) }
        ensures only { UnlessMemory applying.is_memory result
            (editing.IsOnlyLoaded self.old.meaning policy.now result self.new.meaning) }
        ensures err { OnErr result (self.new.meaning ≡ self.old.meaning) }

        // The meter rises by the residuals of each automaton that differs.
        ensures rises { OnOk result
            (Rises (IsReplacingRise self.old.meaning.policy self.new.meaning.policy)
            self.old.meter self.new.meter) }
        ensures kept { OnErr result (self.old.meter ≤ self.new.meter) }
    {
        let shared = load_kept(
            self.alloc,
            &mut self.live,
            &mut self.meter,
            &mut self.book,
            policy,
        )?;
        self.remembered.clear();
        Ok(shared)
    }

    #[tactic(auto, using(crate::proofs::Reports::kind))]
    fn query(&mut self, query: &Query) -> Result<Shared<Report>, QueryFault>
        ensures found { UnlessMemory reporting.is_memory result
            (reporting.Reports self.old.meaning query.now result) }
        ensures only { UnlessMemory reporting.is_memory result
            (reporting.IsOnly self.old.meaning query.now result) }
        ensures kind { IfOk result (λ report.
            IsTrue (reporting.is_report_to query.now report)) }
        ensures sure { reporting.Reports self.old.meaning query.now (Err NoSuch) →
            result ≡ Err NoSuch }
        ensures after { self.new.meaning ≡ self.old.meaning }
        ensures meter { self.new.meter ≡ self.old.meter }
    {
        let report = self.report(query)?;
        let shared = Shared::new(self.alloc, report)?;
        Ok(shared)
    }

    fn policy(&self) -> &Policy {
        self.live.policy()
    }

    fn state(&self) -> Result<State, AllocError> {
        let policy = self.live.policy().copy(self.alloc)?;
        let records = copy_records(self.alloc, self.book.records())?;
        Ok(State {
            policy,
            records,
            record_limit: self.book.limit(),
            forgotten: self.book.forgotten(),
        })
    }
}

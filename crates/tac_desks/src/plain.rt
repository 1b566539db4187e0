//! The desk that searches and counts each time.

ghost use Rattle.std.specs.Prelude.{◌≡◌, true, Err, IsOk, IfOk, OnOk, OnErr};
ghost use Rattle.pol_meaning.specs.Memory.{UnlessMemory};
ghost use Rattle.pol_live.specs.Refusing.{is_memory};
ghost use Rattle.tac_tally.specs.Keeping.{refusing};
ghost use Rattle.tac_desks.specs.Opening.{Opens, IsOnlyOpened};
ghost use Rattle.tac_desk.specs.Asking as asking;
ghost use Rattle.tac_desk.specs.Reporting as reporting;
ghost use Rattle.tac_desk.specs.declared.query.QueryFault.TheVariants.{NoSuch};

use crate::authentication::{authentication, hash_for};
use crate::authorisation::authorisation;
use crate::editing::{change, load};
use crate::reaching::{live_policy, reach_report, shadow_report};
use crate::records::{copy_records, numbered};
use crate::serving::service_answer;
use crate::tallies::tally;
use pol_automaton::Meter;
use pol_edit::{BatchFault, Edit, EditFault};
use pol_given::given;
use pol_live::{BuildFault, Live};
use pol_meaning::Changes;
use pol_text::Policy;
use std::alloc::{AllocError, Global};
use std::marker::Model;
use tac_conn::{Answer, Ask, Hash};
use tac_desk::{Desk, Query, QueryFault, Report, Shared, State};
use tac_tally::{Book, Record, RecordLimit};

/// A desk that keeps the policy and the records, and nothing that follows from them: each ask
/// searches the policy from the top, each tally counts over all records, and each edit or batch of
/// edits and each report of rules builds the automata of all subjects. A contract sees what it
/// represents.
pub struct PlainDesk {
    alloc: Global,
    // no subject is too large
    policy: Policy,
    // its marks are worked out before each tally, and say nothing until then
    book: Book,
}

// By hand, so that a proof of an owner has one call at each exit, not a drop of each field.
impl Drop for PlainDesk {
    fn drop(self) {
        let PlainDesk {
            alloc: _,
            policy: _,
            book: _,
        } = self;
    }
}

impl Model for PlainDesk {
    ghost use Rattle.pol_meaning.specs.Sizes.{IsSmall};
    ghost use Rattle.tac_desk.specs.Meaning.{Meaning};
    ghost use Rattle.tac_desks.specs.Kept.{meaning_of};

    ghost Value = { Meaning };

    ghost view = { λ desk. meaning_of desk.policy desk.book };

    ghost invariant = { λ desk. IsSmall desk.policy };
}

impl PlainDesk {
    /// A desk of this policy, without records, that accepts at most so many. Refused where a
    /// subject is too large, with the first such subject in the policy's order. Builds all automata
    /// once.
    pub fn new(alloc: Global, policy: Policy, record_limit: usize) -> Result<PlainDesk, BuildFault>
        ensures found { UnlessMemory is_memory result
            (Opens policy (refusing record_limit) result) }
        ensures only { UnlessMemory is_memory result
            (IsOnlyOpened policy (refusing record_limit) result) }
    {
        PlainDesk::with_limit(alloc, policy, RecordLimit::refusing(record_limit))
    }

    /// A desk of this policy, without records, which keeps them as the limit says. Refused where a
    /// subject is too large, with the first such subject in the policy's order. Builds all automata
    /// once.
    pub fn with_limit(
        alloc: Global,
        policy: Policy,
        limit: RecordLimit,
    ) -> Result<PlainDesk, BuildFault>
        ensures found { UnlessMemory is_memory result (Opens policy limit result) }
        ensures only { UnlessMemory is_memory result (IsOnlyOpened policy limit result) }
    {
        let mut meter = Meter::new();
        let live = Live::build(alloc, policy, &mut meter)?;
        Ok(PlainDesk {
            alloc,
            policy: live.into_policy(),
            book: Book::with_limit(alloc, limit),
        })
    }

    // Stores a copy of the record, if there is room.
    fn store(&mut self, item: &Record) -> Result<Answer, AllocError>
        ensures answer { IfOk result (λ answer.
            answer ≡ (asking.stored self.old item.now).answer) }
        ensures after { OnOk result
            (self.new ≡ (asking.stored self.old item.now).meaning) }
        ensures sure { asking.is_full self.old ≡ true → IsOk result }
        ensures err { OnErr result (self.new ≡ self.old) }
    {
        if self.book.is_full() {
            return Ok(Answer::BookFull);
        }
        let copy = item.copy(self.alloc)?;
        self.book.store(copy, false).map_err(|_| AllocError)?;
        Ok(Answer::Stored)
    }

    // What a question is answered.
    fn report(&mut self, query: &Query) -> Result<Report, QueryFault>
        ensures found { UnlessMemory reporting.is_memory result
            (reporting.Reports self.old query.now result) }
        ensures only { UnlessMemory reporting.is_memory result
            (reporting.IsOnly self.old query.now result) }
        ensures sure { reporting.Reports self.old query.now (Err NoSuch) → result ≡ Err NoSuch }
        ensures kept { self.new ≡ self.old }
    {
        match query {
            Query::Policy => {
                let policy = self.policy.copy(self.alloc)?;
                Ok(Report::Policy(policy))
            }
            Query::Shadow => {
                let report = shadow_report(self.alloc, &self.policy)?;
                Ok(report)
            }
            Query::Reach(subject) => reach_report(self.alloc, &self.policy, subject),
            Query::Tally(subject) => tally(self.alloc, &self.policy, &mut self.book, subject),
            Query::Why { user, line } => {
                let decision = self.policy.plain_decide(user, line.as_slice())?;
                Ok(Report::Why(decision))
            }
            Query::Given { user, service } => {
                let decision = self.policy.plain_decide(user, b"")?;
                let given = given(self.alloc, &self.policy, user, service, decision)?;
                Ok(Report::Given(given))
            }
            Query::Records => {
                let records = numbered(self.alloc, &self.book)?;
                Ok(Report::Records(records))
            }
        }
    }
}

impl Desk for PlainDesk {
    ghost meaning = { λ desk. desk };

    fn ask(&mut self, ask: &Ask) -> Result<Answer, AllocError> {
        match ask {
            Ask::Authenticate {
                user,
                service,
                proof,
            } => Ok(authentication(&self.policy, user.as_slice(), *service, proof)),
            Ask::Authorise { user, line } => authorisation(
                self.alloc,
                &self.policy,
                user.as_slice(),
                line.as_slice(),
            ),
            Ask::Serve {
                user,
                service,
                protocol,
            } => service_answer(
                self.alloc,
                &self.policy,
                user.as_slice(),
                service.as_slice(),
                protocol.as_ref().map(|protocol| protocol.as_slice()),
            ),
            Ask::Account(item) => self.store(item),
        }
    }

    fn hash(&self, ask: &Ask) -> Option<Hash> {
        hash_for(&self.policy, ask)
    }

    fn edit_all(&mut self, edits: &[Edit]) -> Result<Shared<Changes>, BatchFault> {
        let mut live = live_policy(self.alloc, &self.policy)?;
        let changes = change(self.alloc, &mut live, edits)?;
        self.policy = live.into_policy();
        Ok(changes)
    }

    fn load(&mut self, policy: &Policy) -> Result<Shared<Changes>, EditFault> {
        let mut live = live_policy(self.alloc, &self.policy)?;
        let changes = load(self.alloc, &mut live, policy)?;
        self.policy = live.into_policy();
        Ok(changes)
    }

    #[tactic(auto, using(crate::proofs::Reports::kind))]
    fn query(&mut self, query: &Query) -> Result<Shared<Report>, QueryFault> {
        let report = self.report(query)?;
        let shared = Shared::new(self.alloc, report)?;
        Ok(shared)
    }

    fn policy(&self) -> &Policy {
        &self.policy
    }

    fn state(&self) -> Result<State, AllocError> {
        let policy = self.policy.copy(self.alloc)?;
        let records = copy_records(self.alloc, self.book.records())?;
        Ok(State {
            policy,
            records,
            record_limit: self.book.limit(),
            forgotten: self.book.forgotten(),
        })
    }
}

//! A desk that has no memory for edits, for a list of its records, nor for a record.

ghost use Rattle.std.specs.Prelude.{◌≡◌, []};

use pol_edit::{BatchFault, Edit, EditFault};
use pol_meaning::Changes;
use pol_text::Policy;
use std::alloc::{AllocError, Global};
use std::marker::Model;
use tac_conn::{Answer, Ask, Hash};
use tac_desk::{Desk, Query, QueryFault, Report, Shared, State};
use tac_desks::{BuildFault, PlainDesk};

/// Never has a record, though its limit is nine. A contract sees the desk inside.
#[derive(Drop)]
pub(crate) struct Starved {
    inner: PlainDesk,
}

impl Model for Starved {
    ghost use Rattle.std.specs.Prelude.{◌≡◌, []};
    ghost use Rattle.tac_tally.specs.Keeping.{refusing};
    ghost use Rattle.tac_desk.specs.Meaning.{Meaning};

    ghost Value = { Meaning };

    ghost view = { λ desk. desk.inner };

    ghost invariant = { λ desk. (desk.inner.records ≡ []) × (desk.inner.limit ≡ refusing 9)
        × (desk.inner.forgotten ≡ 0) };
}

impl Starved {
    pub(crate) fn new(alloc: Global, policy: Policy) -> Result<Starved, BuildFault> {
        let inner = PlainDesk::new(alloc, policy, 9)?;
        Ok(Starved { inner })
    }
}

impl Desk for Starved {
    ghost meaning = { λ desk. desk };

    fn ask(&mut self, ask: &Ask) -> Result<Answer, AllocError> {
        match ask {
            Ask::Authenticate { .. } | Ask::Authorise { .. } | Ask::Serve { .. } => {
                self.inner.ask(ask)
            }
            Ask::Account(_) => Err(AllocError),
        }
    }

    fn hash(&self, ask: &Ask) -> Option<Hash> {
        self.inner.hash(ask)
    }

    fn edit_all(&mut self, _edits: &[Edit]) -> Result<Shared<Changes>, BatchFault> {
        Err(BatchFault::of_all(EditFault::Memory))
    }

    fn load(&mut self, _policy: &Policy) -> Result<Shared<Changes>, EditFault> {
        Err(EditFault::Memory)
    }

    fn query(&mut self, query: &Query) -> Result<Shared<Report>, QueryFault> {
        match query {
            Query::Records => Err(QueryFault::Memory),
            _ => self.inner.query(query),
        }
    }

    fn policy(&self) -> &Policy {
        self.inner.policy()
    }

    fn state(&self) -> Result<State, AllocError> {
        self.inner.state()
    }
}

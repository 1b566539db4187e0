//! Questions to a desk, and what they are answered.

use crate::numbered::Numbered;
use basics::{Bytes, Sequence, StructuralEq};
use pol_given::Given;
use pol_meaning::{Reached, Shadowed};
use pol_names::{Decision, Name, ServiceId, SubjectId};
use pol_text::Policy;
use std::alloc::{AllocError, AllocFailed};
use std::error::Error;
use std::fmt;
use tac_tally::Tally;

/// A question to a desk.
#[derive(Debug, PartialEq, Eq)]
pub enum Query {
    /// What the policy is.
    Policy,
    /// Which rules decide no line, for each subject.
    Shadow,
    /// By which lines the rules along a subject's chain are reached.
    Reach(SubjectId),
    /// What the records of a user, or those of a group's users, count up to.
    Tally(SubjectId),
    /// What the policy says of a user's command line, and by which rule.
    Why { user: Name, line: Bytes },
    /// What a user is given for a service, and who gives it.
    Given { user: Name, service: ServiceId },
    /// Which records are kept.
    Records,
}

// By hand, so that a proof of an owner has one call at each exit, not a drop of each field.
impl Drop for Query {
    fn drop(self) {
        match self {
            Query::Policy => {}
            Query::Shadow => {}
            Query::Reach(_) => {}
            Query::Tally(_) => {}
            Query::Why { user: _, line: _ } => {}
            Query::Given {
                user: _,
                service: _,
            } => {}
            Query::Records => {}
        }
    }
}

impl StructuralEq for Query {
    ghost use Rattle.std.proofs.Common.{rules};

    ghost identical = { Prim.search rules };
}

/// What a question is answered.
#[derive(PartialEq, Eq)]
pub enum Report {
    Policy(Policy),
    /// For each subject in the policy's order, in the order of the rules along its chain.
    Shadow(Sequence<Shadowed>),
    /// All rules along the chain, the subject's own first.
    Reach(Sequence<Reached>),
    Tally(Tally),
    /// Nothing where the policy has no such user.
    Why(Option<Decision>),
    Given(Given),
    /// In the order in which they came.
    Records(Sequence<Numbered>),
}

// By hand, so that a proof of an owner has one call at each exit, not a drop of each field.
impl Drop for Report {
    fn drop(self) {
        match self {
            Report::Policy(_) => {}
            Report::Shadow(_) => {}
            Report::Reach(_) => {}
            Report::Tally(_) => {}
            Report::Why(_) => {}
            Report::Given(_) => {}
            Report::Records(_) => {}
        }
    }
}

impl Report {
    ghost use Rattle.std.specs.Prelude.{◌≡◌, ◌↔◌, IsTrue};

    /// Whether the two are the same.
    pub fn same(&self, other: &Report) -> bool
        ensures { IsTrue result ↔ (self.now ≡ other.now) }
    {
        match (self, other) {
            (Report::Policy(one), Report::Policy(two)) => one.same(two),
            (Report::Shadow(one), Report::Shadow(two)) => one.same(two),
            (Report::Reach(one), Report::Reach(two)) => one.same(two),
            (Report::Tally(one), Report::Tally(two)) => one == two,
            (Report::Why(one), Report::Why(two)) => one == two,
            (Report::Given(one), Report::Given(two)) => one.same(two),
            (Report::Records(one), Report::Records(two)) => one.same(two),
            _ => false,
        }
    }
}

/// Why a question isn't answered.
#[derive(Clone, Copy, Debug, PartialEq, Eq)]
pub enum QueryFault {
    /// The policy has no such subject, or no such group.
    NoSuch,
    /// Memory ran out.
    Memory,
}

impl fmt::Display for QueryFault {
    ghost use Rattle.std.specs.Prelude.{Some};
    ghost use Rattle.tac_desk.specs.FaultText.{fault_text};

    ghost output = { λ fault. Some (fault_text fault) };

    fn fmt<W: fmt::Write>(&self, f: &mut fmt::Formatter<W>) -> fmt::Result {
        match self {
            QueryFault::NoSuch => write!(f, "2 NoSuch"),
            QueryFault::Memory => write!(f, "12 Memory"),
        }
    }
}

impl Error for QueryFault {}

impl From<AllocError> for QueryFault {
    ghost use Rattle.std.specs.Prelude.{◌≡◌};
    ghost use Rattle.tac_desk.specs.declared.query.QueryFault.TheVariants.{Memory};

    ghost from_gives = { λ _ fault. fault ≡ Memory };

    fn from(_error: AllocError) -> QueryFault {
        QueryFault::Memory
    }
}

impl<T: Drop> From<AllocFailed<T>> for QueryFault {
    ghost use Rattle.std.specs.Prelude.{◌≡◌};
    ghost use Rattle.tac_desk.specs.declared.query.QueryFault.TheVariants.{Memory};

    ghost from_gives = { λ _ fault. fault ≡ Memory };

    fn from(_error: AllocFailed<T>) -> QueryFault {
        QueryFault::Memory
    }
}

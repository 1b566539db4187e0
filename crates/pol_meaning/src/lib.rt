//! What a policy decides, and what a change of it brings, apart from how either is worked out:
//! definitions, and the types of what is reported.
#![tactic(auto)]

ghost use Rattle.std.specs.Prelude.{◌≡◌, ◌↔◌, IsTrue, []};

use basics::{Bytes, Sequence, StructuralEq};
use pol_names::{Name, ServiceId, SubjectId};

/// A user to whom a change of the policy permits a line that was denied, or denies one that was
/// permitted.
#[derive(Debug, PartialEq, Eq)]
pub struct Changed {
    pub user: Name,
    /// The least line that is permitted now and was denied before, if there is one.
    pub permits: Option<Bytes>,
    /// The least line that is denied now and was permitted before, if there is one.
    pub denies: Option<Bytes>,
}

// By hand, so that a proof of an owner has one call at each exit, not a drop of each field.
impl Drop for Changed {
    fn drop(self) {
        let Changed {
            user: _,
            permits: _,
            denies: _,
        } = self;
    }
}

impl StructuralEq for Changed {
    ghost use Rattle.std.proofs.Common.{rules};

    ghost identical = { Prim.search rules };
}

/// A user who is given something else for a service after a change of the policy.
#[derive(Debug)]
pub struct ServiceChange {
    pub user: Name,
    pub service: ServiceId,
    /// The arguments that the user was given; `None` where the service wasn't granted.
    pub was: Option<Sequence<Bytes>>,
    /// The arguments that the user is given now; `None` where the service isn't granted.
    pub is: Option<Sequence<Bytes>>,
}

// By hand, so that a proof of an owner has one call at each exit, not a drop of each field.
impl Drop for ServiceChange {
    fn drop(self) {
        let ServiceChange {
            user: _,
            service: _,
            was: _,
            is: _,
        } = self;
    }
}

// Not derived, so that contracts compare changes by the test of the definitions.
impl PartialEq for ServiceChange {
    ghost use Rattle.std.specs.Cmp.{decided, partial_equiv_from_equiv};
    ghost use Rattle.pol_meaning.specs.SameChange.{same_change, same_change-Decides};

    ghost eq = { same_change };

    ghost laws = { partial_equiv_from_equiv (decided same_change same_change-Decides) };

    fn eq(&self, other: &ServiceChange) -> bool {
        self.user == other.user
            && self.service == other.service
            && self.was == other.was
            && self.is == other.is
    }
}

impl Eq for ServiceChange {
    ghost use Rattle.std.specs.Cmp.{decided};
    ghost use Rattle.pol_meaning.specs.SameChange.{same_change, same_change-Decides};

    ghost laws = { decided same_change same_change-Decides };
}

impl StructuralEq for ServiceChange {
    ghost use Rattle.pol_meaning.specs.SameChange.{same_change-identical};

    ghost identical = { same_change-identical };
}

/// What a change of the policy brings users: those of the new policy in its order, and then those
/// of the old one alone.
#[derive(Debug)]
pub struct Changes {
    /// The users to whom it permits or denies a line otherwise.
    pub lines: Sequence<Changed>,
    /// For each user what is given otherwise: for the shell, then for the services that the new
    /// policy names, in the order in which it first does, then for those of the old one alone.
    pub services: Sequence<ServiceChange>,
}

// By hand, so that a proof of an owner has one call at each exit, not a drop of each field.
impl Drop for Changes {
    fn drop(self) {
        let Changes {
            lines: _,
            services: _,
        } = self;
    }
}

impl Changes {
    /// Whether the two are the same. Linear in what they hold.
    pub fn same(&self, other: &Changes) -> bool
        ensures { IsTrue result ↔ (self.now ≡ other.now) }
    {
        self.lines.same(&other.lines) && self.services.same(&other.services)
    }

    /// Whether nothing changes.
    pub fn is_empty(&self) -> bool
        ensures { IsTrue result ↔ (self.now ≡ record { lines = []; services = [] }) }
    {
        self.lines.is_empty() && self.services.is_empty()
    }
}

/// A rule that decides no line of a subject, since earlier ones decide all that it matches.
#[derive(Clone, Copy, Debug, PartialEq, Eq)]
pub struct Shadowed {
    pub subject: SubjectId,
    pub owner: SubjectId,
    /// The rule's number in its owner, from 1.
    pub number: u16,
}

impl StructuralEq for Shadowed {
    ghost use Rattle.std.proofs.Common.{rules};

    ghost identical = { Prim.search rules };
}

/// A rule along a subject's chain, and the least line of the subject that it decides.
#[derive(Debug, Drop, PartialEq, Eq)]
pub struct Reached {
    pub owner: SubjectId,
    /// The rule's number in its owner, from 1.
    pub number: u16,
    /// The least line, if the rule decides any.
    pub text: Option<Bytes>,
}

impl StructuralEq for Reached {
    ghost use Rattle.std.proofs.Common.{rules};

    ghost identical = { Prim.search rules };
}

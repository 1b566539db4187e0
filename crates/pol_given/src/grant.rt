//! What a user is given for a service, and by whom.

ghost use Rattle.std.specs.Prelude.{◌↔◌, ◌≡◌, IsTrue};
ghost use Rattle.pol_given.specs.Granting as granting;

use basics::{Bytes, Sequence, StructuralEq};
use pol_names::{Decision, SubjectId};
use std::alloc::Global;

/// Whether a user is given a service, and who says so.
#[derive(Clone, Copy, Debug, PartialEq, Eq)]
pub enum Grant {
    /// The policy has no such user.
    UnknownUser,
    /// Nobody along the user's chain says anything of the service.
    Unserved,
    /// The nearest subject that says anything of it refuses it.
    Refused(SubjectId),
    /// The nearest subject that says anything of it allows it.
    Granted(SubjectId),
    /// A shell is what the empty command line asks for, and this is what rules decide of that.
    Decided(Decision),
}

/// An argument that a device is sent, and who gives it.
#[derive(Debug, Drop, PartialEq, Eq)]
pub struct GivenArgument {
    pub owner: SubjectId,
    /// As it is sent: `NAME=VALUE` or `NAME*VALUE` (RFC 8907, section 6.1).
    pub argument: Bytes,
}

impl StructuralEq for GivenArgument {
    ghost use Rattle.std.proofs.Common.{rules};

    ghost identical = { Prim.search rules };
}

/// What a user is given for a service.
#[derive(Debug, Drop, PartialEq, Eq)]
pub struct Given {
    pub grant: Grant,
    /// In the order in which they are sent.
    pub arguments: Sequence<GivenArgument>,
}

impl Given {
    // Nothing, for this reason.
    pub(crate) fn nothing(alloc: Global, grant: Grant) -> Given
        ensures { result ≡ granting.nothing grant }
    {
        Given {
            grant,
            arguments: Sequence::new(alloc),
        }
    }
    /// Whether the two are the same.
    pub fn same(&self, other: &Given) -> bool
        ensures { IsTrue result ↔ (self.now ≡ other.now) }
    {
        self.grant == other.grant && self.arguments.same(&other.arguments)
    }
}

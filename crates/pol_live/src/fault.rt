//! Why a policy is not built.

ghost use Rattle.std.specs.Prelude.{◌≡◌, Some};
ghost use Rattle.pol_edit.specs.Batches.{of_all};
ghost use Rattle.pol_live.specs.declared.fault.BuildFault.TheVariants.{Memory};
ghost use Rattle.pol_live.specs.Refusing.{build_fault_text, edit_fault};

use pol_edit::{BatchFault, EditFault};
use pol_names::SubjectId;
use std::alloc::AllocError;
use std::error::Error;
use std::fmt;

/// Why a policy is not built.
#[derive(Clone, Copy, Debug, PartialEq, Eq)]
pub enum BuildFault {
    /// The subject's rules and those along its chain have too many residuals.
    TooManyStates(SubjectId),
    /// Memory ran out.
    Memory,
}

impl fmt::Display for BuildFault {
    ghost output = { λ fault. Some (build_fault_text fault) };

    fn fmt<W: fmt::Write>(&self, f: &mut fmt::Formatter<W>) -> fmt::Result {
        match self {
            BuildFault::TooManyStates(subject) => write!(f, "TooManyStates {subject}"),
            BuildFault::Memory => write!(f, "Memory"),
        }
    }
}

impl Error for BuildFault {}

impl From<AllocError> for BuildFault {
    ghost from_gives = { λ _ fault. fault ≡ Memory };

    fn from(_error: AllocError) -> BuildFault {
        BuildFault::Memory
    }
}

/// The refusal of an edit that makes such a policy.
impl From<BuildFault> for EditFault {
    ghost from_gives = { λ build fault. fault ≡ edit_fault build };

    fn from(fault: BuildFault) -> EditFault {
        match fault {
            BuildFault::TooManyStates(subject) => EditFault::TooManyStates(subject),
            BuildFault::Memory => EditFault::Memory,
        }
    }
}

/// The refusal of edits that make such a policy together, which is that of no single edit.
impl From<BuildFault> for BatchFault {
    ghost from_gives = { λ build fault. fault ≡ of_all (edit_fault build) };

    fn from(fault: BuildFault) -> BatchFault {
        BatchFault::of_all(EditFault::from(fault))
    }
}

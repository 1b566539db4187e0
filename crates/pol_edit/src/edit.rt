//! What an edit asks for.

ghost use Rattle.std.specs.Prelude.{◌≡◌};

use basics::{Bytes, StructuralEq};
use pol_names::{Credential, Name, ServiceId, ServiceLine, SubjectId, Verdict};

/// An edit. Secrets, hashes, attributes and patterns are kept as they were written, and judged when
/// the edit is applied; rules are counted from 1.
#[derive(PartialEq, Eq)]
pub enum Edit {
    /// Adds a group, last, without rules.
    AddGroup {
        name: Name,
        parent: Option<Name>,
    },
    /// Adds a user, last, without rules.
    AddUser {
        name: Name,
        parent: Option<Name>,
    },
    /// Removes the subject.
    Remove {
        subject: SubjectId,
    },
    /// Gives the subject another parent, or none.
    SetParent {
        subject: SubjectId,
        parent: Option<Name>,
    },
    /// Sets the secret that a user logs in with, or clears it.
    SetLogin {
        user: Name,
        secret: Option<Bytes>,
    },
    /// Sets the secret that a user enables with, or clears it.
    SetEnable {
        user: Name,
        secret: Option<Bytes>,
    },
    /// Sets the hash of what a user logs in or enables with, in place of the secret that is there.
    SetHash {
        user: Name,
        credential: Credential,
        hash: Bytes,
    },
    /// Sets the level of the subject's shells, or clears it.
    SetPriv {
        subject: SubjectId,
        level: Option<u16>,
    },
    /// Adds a line about a service to the subject, last.
    AddService {
        subject: SubjectId,
        line: ServiceLine,
    },
    /// Clears the subject's lines about a service, or the one that gives this attribute.
    ClearService {
        subject: SubjectId,
        service: ServiceId,
        attribute: Option<Bytes>,
    },
    /// Inserts a rule, so that it has this number.
    InsertRule {
        subject: SubjectId,
        at: u16,
        verdict: Verdict,
        pattern: Bytes,
    },
    /// Removes the rule of this number.
    RemoveRule {
        subject: SubjectId,
        at: u16,
    },
    /// Moves the rule of one number, so that it has the other.
    MoveRule {
        subject: SubjectId,
        from: u16,
        to: u16,
    },
}

// By hand, so that a proof of an owner has one call at each exit, not a drop of each field.
impl Drop for Edit {
    fn drop(self) {
        match self {
            Edit::AddGroup { name: _, parent: _ } => {}
            Edit::AddUser { name: _, parent: _ } => {}
            Edit::Remove { subject: _ } => {}
            Edit::SetParent {
                subject: _,
                parent: _,
            } => {}
            Edit::SetLogin { user: _, secret: _ } => {}
            Edit::SetEnable { user: _, secret: _ } => {}
            Edit::SetHash {
                user: _,
                credential: _,
                hash: _,
            } => {}
            Edit::SetPriv {
                subject: _,
                level: _,
            } => {}
            Edit::AddService {
                subject: _,
                line: _,
            } => {}
            Edit::ClearService {
                subject: _,
                service: _,
                attribute: _,
            } => {}
            Edit::InsertRule {
                subject: _,
                at: _,
                verdict: _,
                pattern: _,
            } => {}
            Edit::RemoveRule { subject: _, at: _ } => {}
            Edit::MoveRule {
                subject: _,
                from: _,
                to: _,
            } => {}
        }
    }
}

// Of each kind by itself: the prover doesn't split all pairs of kinds at once.
impl StructuralEq for Edit {
    ghost use Rattle.std.specs.Prelude.{true};
    ghost use Rattle.std.proofs.Common.{rules};
    ghost use Rattle.pol_edit.specs.declared.edit.Edit.{Edit as EditValue};
    ghost use Rattle.pol_names.specs.SameService.{same_service-identical, same_line-identical};
    ghost use Rattle.pol_edit.specs.declared.edit.Edit.TheVariants.{AddGroup, AddUser, Remove};
    ghost use Rattle.pol_edit.specs.declared.edit.Edit.TheVariants.{SetParent, SetLogin};
    ghost use Rattle.pol_edit.specs.declared.edit.Edit.TheVariants.{SetEnable, SetHash, SetPriv};
    ghost use Rattle.pol_edit.specs.declared.edit.Edit.TheVariants.{AddService, ClearService};
    ghost use Rattle.pol_edit.specs.declared.edit.Edit.TheVariants.{InsertRule, RemoveRule};
    ghost use Rattle.pol_edit.specs.declared.edit.Edit.TheVariants.{MoveRule};

    ghost identical = { λ x. elim x as (λ k.
        (y : EditValue) → ⟦<Edit as PartialEq>⟧.eq k y ≡ true → k ≡ y) [
          | AddGroup a b ↦ λ y e. Prim.search rules
          | AddUser a b ↦ λ y e. Prim.search rules
          | Remove a ↦ λ y e. Prim.search rules
          | SetParent a b ↦ λ y e. Prim.search rules
          | SetLogin a b ↦ λ y e. Prim.search rules
          | SetEnable a b ↦ λ y e. Prim.search rules
          | SetHash a b c ↦ λ y e. Prim.search rules
          | SetPriv a b ↦ λ y e. Prim.search rules
          | AddService a b ↦ λ y e. Prim.search (rules, same_line-identical)
          | ClearService a b c ↦ λ y e. Prim.search (rules, same_service-identical)
          | InsertRule a b c d ↦ λ y e. Prim.search rules
          | RemoveRule a b ↦ λ y e. Prim.search rules
          | MoveRule a b c ↦ λ y e. Prim.search rules
        ] };
}

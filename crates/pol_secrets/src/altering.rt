//! Which secrets of users differ between two policies.

ghost use Rattle.std.specs.Prelude.{◌≡◌, ◌++◌, Some, IfOk, OnOk};
ghost use Rattle.std.specs.List.{flat_map};
ghost use Rattle.std.specs.Option.{option_copied};
ghost use Rattle.pol_names.specs.SubjectId.{same_kind};
ghost use Rattle.pol_names.specs.declared.subject_id.Kind.TheVariants.{User};
ghost use Rattle.pol_meaning.specs.LineChanges.{users_of, users_alone, is_alone as alone_test};
ghost use Rattle.pol_secrets.specs.Altering.{AreAllOf, alteration_of, secret_in, secret_change};
ghost use Rattle.pol_secrets.specs.Altering.{secret_changes_of, secret_changes as changes_by};

use crate::secret_change::{Alteration, SecretChange};
use basics::Sequence;
use pol_names::{Credential, Kind, Name, Secret, SubjectId};
use pol_text::{Policy, Subject};
use std::alloc::{AllocError, Global};

fn is_user(subject: &Subject) -> bool
    ensures { result ≡ same_kind subject.now.kind User }
{
    matches!(subject.kind, Kind::User)
}

// Whether it is a user whom the policy doesn't have.
fn is_alone(policy: &Policy, subject: &Subject) -> bool
    ensures { result ≡ alone_test policy.now subject.now }
{
    is_user(subject) && policy.find(&subject.id()).is_none()
}

// What the user logs in or enables with, if anything.
fn secret<'a>(policy: &'a Policy, user: &Name, credential: Credential) -> Option<&'a Secret>
    ensures { option_copied result ≡ secret_in policy.now user.now credential }
{
    let Some(subject) = policy.find(&SubjectId::user(*user)) else {
        return None;
    };
    match credential {
        Credential::Login => subject.login.as_ref(),
        Credential::Enable => subject.enable.as_ref(),
    }
}

// What became of a secret that there was and is.
fn replacement(was: &Secret, is: &Secret) -> Option<Alteration>
    ensures { result ≡ alteration_of (Some was.now) (Some is.now) }
{
    if was == is {
        return None;
    }
    Some(Alteration::Changed)
}

// What became of a secret, if anything did.
fn alteration(was: Option<&Secret>, is: Option<&Secret>) -> Option<Alteration>
    ensures { result ≡ alteration_of (option_copied was.entry) (option_copied is.entry) }
{
    match (was, is) {
        (None, None) => None,
        (None, Some(_)) => Some(Alteration::Set),
        (Some(_), None) => Some(Alteration::Cleared),
        (Some(was), Some(is)) => replacement(was, is),
    }
}

// Lists what became of a secret of the user, if anything did.
fn list_secret(
    changes: &mut Sequence<SecretChange>,
    before: &Policy,
    after: &Policy,
    user: &Name,
    credential: Credential,
) -> Result<(), AllocError>
    ensures { OnOk result (changes.new
        ≡ changes.old ++ secret_change before.now after.now user.now credential) }
{
    let was = secret(before, user, credential);
    let is = secret(after, user, credential);
    if let Some(alteration) = alteration(was, is) {
        changes.push(SecretChange {
            user: *user,
            credential,
            alteration,
        })?;
    }
    Ok(())
}

// Lists what became of the user's secrets.
fn list_user(
    changes: &mut Sequence<SecretChange>,
    before: &Policy,
    after: &Policy,
    user: &Name,
) -> Result<(), AllocError>
    ensures { OnOk result (changes.new
        ≡ changes.old ++ secret_changes_of before.now after.now user.now) }
{
    list_secret(changes, before, after, user, Credential::Login)?;
    list_secret(changes, before, after, user, Credential::Enable)
}

// Lists what became of the secrets of the new policy's users.
fn list_present(
    changes: &mut Sequence<SecretChange>,
    before: &Policy,
    after: &Policy,
) -> Result<(), AllocError>
    ensures { OnOk result (changes.new ≡ changes.old
        ++ flat_map (secret_changes_of before.now after.now) (users_of after.now)) }
{
    'subjects: for subject in after.subjects() {
        if is_user(subject) {
            list_user(changes, before, after, &subject.name)?;
        }
    }
    Ok(())
}

// Lists what became of the secrets of those users whom the old policy alone has.
fn list_gone(
    changes: &mut Sequence<SecretChange>,
    before: &Policy,
    after: &Policy,
) -> Result<(), AllocError>
    ensures { OnOk result (changes.new ≡ changes.old
        ++ flat_map (secret_changes_of before.now after.now) (users_alone after.now before.now)) }
{
    'subjects: for subject in before.subjects() {
        if is_alone(after, subject) {
            list_user(changes, before, after, &subject.name)?;
        }
    }
    Ok(())
}

// Lists what became of secrets.
fn list_changes(
    alloc: Global,
    before: &Policy,
    after: &Policy,
) -> Result<Sequence<SecretChange>, AllocError>
    ensures { IfOk result (λ changes. changes ≡ changes_by before.now after.now) }
{
    let mut changes = Sequence::new(alloc);
    list_present(&mut changes, before, after)?;
    list_gone(&mut changes, before, after)?;
    Ok(changes)
}

/// Which secrets were set, changed or cleared from the old policy to the new one: of the users of
/// the new policy in its order, and then of those of the old one alone. A user whom a policy
/// doesn't have has no secret there. Takes a few hash look-ups for each subject.
pub fn secret_changes(
    alloc: Global,
    old: &Policy,
    new: &Policy,
) -> Result<Sequence<SecretChange>, AllocError>
    ensures changes { IfOk result (λ changes. changes ≡ changes_by old.now new.now) }
    ensures exact { IfOk result (AreAllOf old.now new.now) }
{
    let changes = list_changes(alloc, old, new)?;
    Ok(changes)
}

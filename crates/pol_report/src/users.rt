//! Which subjects are users.

ghost use Rattle.std.specs.Prelude.{◌≡◌};
ghost use Rattle.pol_names.specs.SubjectId.{same_kind};
ghost use Rattle.pol_names.specs.declared.subject_id.Kind.TheVariants.{User};
ghost use Rattle.pol_meaning.specs.LineChanges.{is_alone as alone_test};

use pol_names::Kind;
use pol_text::{Policy, Subject};

pub(crate) fn is_user(subject: &Subject) -> bool
    ensures { result ≡ same_kind subject.now.kind User }
{
    matches!(subject.kind, Kind::User)
}

/// Whether it is a user whom the policy doesn't have.
pub(crate) fn is_alone(policy: &Policy, subject: &Subject) -> bool
    ensures { result ≡ alone_test policy.now subject.now }
{
    is_user(subject) && policy.find(&subject.id()).is_none()
}

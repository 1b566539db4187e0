//! The users of a policy, and what becomes of them where another one takes its place.

ghost use Rattle.std.specs.Prelude.{◌≡◌, filter, is_some, length};
ghost use Rattle.pol_text.specs.Policy.{find_subject};
ghost use Rattle.tac_hall_console.specs.Users as specified;

use pol_names::{Kind, SubjectId};
use pol_text::{Policy, Subject};

/// What becomes of the users of a policy where another one takes its place.
#[derive(Clone, Copy)]
pub(crate) struct Turnover {
    /// How many there were.
    pub(crate) had: usize,
    /// How many of these the other policy doesn't have, by name.
    pub(crate) gone: usize,
    /// How many there are then.
    pub(crate) has: usize,
}

#[tactic(auto, unfolding(crate::specs::Users::is_user))]
fn is_user(subject: &Subject) -> bool
    ensures { result ≡ specified.is_user subject.now }
{
    match subject.kind {
        Kind::Group => false,
        Kind::User => true,
    }
}

fn has_subject(policy: &Policy, id: &SubjectId) -> bool
    ensures { result ≡ is_some (find_subject id.now policy.now) }
{
    policy.find(id).is_some()
}

fn is_gone(new: &Policy, subject: &Subject) -> bool
    ensures { result ≡ specified.is_gone new.now subject.now }
{
    is_user(subject) && !has_subject(new, &subject.id())
}

fn count_users(subjects: &[Subject]) -> usize
    ensures { result ≡ length (filter specified.is_user subjects.now) }
{
    let mut count = 0;
    'subjects: for subject in subjects {
        if is_user(subject) {
            count += 1;
        }
    }
    count
}

fn count_gone(old: &Policy, new: &Policy) -> usize
    ensures { result ≡ length (filter (specified.is_gone new.now) old.now) }
{
    let subjects = old.subjects();
    subjects
        .iter()
        .filter(|subject| is_gone(new, subject))
        .count()
}

/// Whether anybody could log in by a policy: it has a user. Linear.
pub fn has_user(policy: &Policy) -> bool
    ensures { result ≡ specified.has_user policy.now }
{
    policy.subjects().iter().any(is_user)
}

impl Turnover {
    /// Where the new policy takes the place of the old one. Looks each subject up.
    pub(crate) fn between(old: &Policy, new: &Policy) -> Turnover
        ensures { result ≡ specified.turnover old.now new.now }
    {
        Turnover {
            had: count_users(old.subjects()),
            gone: count_gone(old, new),
            has: count_users(new.subjects()),
        }
    }

    /// Whether nobody is left who could log in.
    pub(crate) fn shuts_out(self) -> bool
        ensures { result ≡ specified.shuts_out self }
    {
        self.had > 0 && self.has == 0
    }

    /// Whether fewer than half of them are there still.
    pub(crate) fn most_are_gone(self) -> bool
        ensures { result ≡ specified.most_are_gone self }
    {
        self.had.saturating_sub(self.gone) < self.gone
    }
}

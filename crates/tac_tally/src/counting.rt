//! Counting: the tallies of users and of groups.

ghost use Rattle.std.specs.Prelude.{◌≡◌, ◌^◌, IfOk};
ghost use Rattle.tac_tally.specs.Tally.{tally_of, group_tally_of, IsBelow};
ghost use Rattle.tac_tally.specs.Tally.{is_user_below as below_test};

use crate::book::Book;
use crate::tally::Tally;
use pol_names::{Kind, Name, SubjectId};
use pol_text::{Policy, Subject};
use std::alloc::{AllocError, Global};

// Whether the subject is a user whose chain holds the group.
fn is_user_below(
    alloc: Global,
    policy: &Policy,
    group: &Name,
    subject: &Subject,
) -> Result<bool, AllocError>
    ensures { IfOk result (λ below. below ≡ below_test policy.now group.now subject.now) }
{
    match subject.kind {
        Kind::Group => Ok(false),
        Kind::User => {
            let chain = policy.chain(alloc, &subject.id())?;
            let holds = chain.as_slice().contains(&SubjectId::group(*group));
            Ok(holds)
        }
    }
}

impl Book {
    /// What a user's records count up to, by the marks as they are. The user may be any bytes, and
    /// need not be in a policy. One look-up: the counts are kept, and asking takes no memory.
    pub fn tally(&self, user: &[u8]) -> Tally
        ensures value { result ≡ tally_of user.now self.now.entries }

        // No number reaches two to the power of 96: the sums of tallies fit.
        ensures small { IsBelow (2 ^ 96) result }
    {
        match self.accounts.get(user) {
            Some(account) => account.tally(),
            None => Tally::NONE,
        }
    }

    /// The sum of the tallies of the policy's users whose chain holds the group: those of the group
    /// itself, and of the groups below it. Records of users that aren't in the policy don't count,
    /// and a group that isn't there has no users. The error means that memory ran out.
    /// One pass over the policy's subjects, with a look-up for each of these users.
    pub fn group_tally(
        &self,
        alloc: Global,
        policy: &Policy,
        group: &Name,
    ) -> Result<Tally, AllocError>
        ensures { IfOk result
            (λ tally. tally ≡ group_tally_of policy.now group.now self.now.entries) }
    {
        let mut total = Tally::NONE;
        'subjects: for subject in policy.subjects() {
            if !is_user_below(alloc, policy, group, subject)? {
                continue;
            }
            let tally = self.tally(subject.name.as_slice());
            total = total.plus(tally);
        }
        Ok(total)
    }
}

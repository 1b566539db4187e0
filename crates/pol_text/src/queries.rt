//! Questions about the groups of a policy.

ghost use Rattle.std.specs.Prelude.{◌≡◌, ◌<◌, IfSome, length, false, slice_get};
ghost use Rattle.std.specs.Option.{option_map_or, option_and_then};
ghost use Rattle.std.specs.Str.{bytes_eq};
ghost use Rattle.pol_text.specs.Policy.{WellFormed, find_subject};
ghost use Rattle.pol_text.specs.Change.{has_room_below as room_test, is_parent as parent_test};

use crate::chains;
use crate::policy::Policy;
use crate::subject::Subject;
use pol_names::{Name, SubjectId};

// Whether the group is the parent of the subject.
fn is_below(group: &Name, subject: &Subject) -> bool
    ensures { result ≡ option_map_or (bytes_eq group.now) subject.now.parent false }
{
    match &subject.parent {
        Some(parent) => group.as_slice() == parent.as_slice(),
        None => false,
    }
}

impl Policy {
    /// Where the subject of this kind and name stands, counted from 0. A hash look-up.
    pub fn index_of(&self, id: &SubjectId) -> Option<usize>
        ensures found { find_subject id.now self.now
            ≡ option_and_then (slice_get self.now) result }
        ensures within { IfSome result (λ at. at < length self.now) }
        ensures well_formed { WellFormed self.now }
    {
        self.places.get_index_of(id)
    }

    /// Whether the group is there, and one more subject may stand below it.
    pub fn has_room_below(&self, group: &Name) -> bool
        ensures { result ≡ room_test group.now self.now }
    {
        match self.find(&SubjectId::group(*group)) {
            Some(subject) => chains::ends_within(
                &self.subjects,
                &self.places,
                Policy::MAX_CHAIN - 1,
                subject,
            ),
            None => false,
        }
    }

    /// Whether a subject has the group as its parent. Linear.
    pub fn is_parent(&self, group: &Name) -> bool
        ensures { result ≡ parent_test group.now self.now }
    {
        self.subjects
            .as_slice()
            .iter()
            .any(|subject| is_below(group, subject))
    }
}

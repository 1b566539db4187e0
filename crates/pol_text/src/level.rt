//! The privilege level of a subject's shells.

ghost use Rattle.std.specs.Prelude.{◌≡◌};
ghost use Rattle.pol_text.specs.Policy.{chain, first_level, level_of as level_by};

use crate::policy::Policy;
use crate::subject::Subject;
use pol_names::SubjectId;

impl Policy {
    // The nearest level along the chain of the subject.
    fn nearest_level(&self, subject: &Subject) -> Option<u8>
        ensures { result ≡ first_level (chain self.now subject.now) }
    {
        let mut present = subject;
        'chain: for _ in 0..Policy::MAX_CHAIN {
            if let Some(level) = present.priv_lvl {
                return Some(level);
            }
            match self.parent_of(present) {
                Some(parent) => present = parent,
                None => return None,
            }
        }
        None
    }

    /// The level of the subject's shells (RFC 8907, section 9): its own, or that of the nearest of
    /// its chain that has one.
    pub fn level_of(&self, id: &SubjectId) -> Option<u8>
        ensures { result ≡ level_by self.now id.now }
    {
        match self.find(id) {
            Some(subject) => self.nearest_level(subject),
            None => None,
        }
    }
}

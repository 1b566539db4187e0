//! Which subject: groups and users, by name.

ghost use Rattle.std.specs.Prelude.{◌≡◌, ◌≤◌, ◌↔◌, length, IsTrue};
ghost use Rattle.std.specs.Hash as fed;
ghost use Rattle.pol_names.specs.Name.{is_name};
ghost use Rattle.pol_names.specs.SubjectId.{kind_word, group_id, user_id};

use crate::name::Name;
use std::fmt;

#[derive(Clone, Copy, Debug, PartialEq, Eq, Hash)]
pub enum Kind {
    Group,
    User,
}

impl Kind {
    /// The word that such a subject begins with wherever it is named, and the space after it.
    pub fn keyword(self) -> &'static str
        ensures value { result.now ≡ kind_word self }
        ensures fits { length result.now ≤ 6 }
    {
        match self {
            Kind::Group => "group ",
            Kind::User => "user ",
        }
    }
}

/// Which subject: a group and a user may have the same name.
#[derive(Clone, Copy, Debug, Hash)]
pub struct SubjectId {
    pub kind: Kind,
    pub name: Name,
}

// Not derived, so that contracts compare kinds and names by the test of the definitions.
impl PartialEq for SubjectId {
    ghost use Rattle.std.specs.Cmp.{decided, partial_equiv_from_equiv};
    ghost use Rattle.pol_names.specs.SubjectId.{same_id, same_id-Decides};

    ghost eq = { same_id };

    ghost laws = { partial_equiv_from_equiv (decided same_id same_id-Decides) };

    fn eq(&self, other: &SubjectId) -> bool
        ensures eq { result ≡ same_id self.now other.now }
        ensures same { IsTrue result ↔ (self.now ≡ other.now) }
    {
        self.kind == other.kind && self.name == other.name
    }
}

impl Eq for SubjectId {
    ghost use Rattle.std.specs.Cmp.{decided};
    ghost use Rattle.pol_names.specs.SubjectId.{same_id, same_id-Decides};

    ghost laws = { decided same_id same_id-Decides };
}

impl SubjectId {
    /// The group of this name.
    pub fn group(name: Name) -> SubjectId
        ensures { result ≡ group_id name }
    {
        SubjectId {
            kind: Kind::Group,
            name,
        }
    }

    /// The user of this name.
    pub fn user(name: Name) -> SubjectId
        ensures { result ≡ user_id name }
    {
        SubjectId {
            kind: Kind::User,
            name,
        }
    }
}

/// `group NAME` or `user NAME`.
impl fmt::Display for SubjectId {
    ghost use Rattle.std.specs.Prelude.{Some};
    ghost use Rattle.pol_names.specs.SubjectId.{subject_text};

    ghost output = { λ subject. Some (subject_text subject) };

    fn fmt<W: fmt::Write>(&self, f: &mut fmt::Formatter<W>) -> fmt::Result {
        f.write_str(self.kind.keyword())?;
        f.write_str(self.name.as_str())
    }
}

//! The fields of an edit's line.

ghost use Rattle.std.specs.Prelude.{◌≡◌};
ghost use Rattle.std.specs.Option.{option_map};
ghost use Rattle.pol_edit.specs.EditText.{kind_of, verdict_of, count_of, subject_of};
ghost use Rattle.pol_edit.specs.EditText.{subject_before as subject_in_front, parent_of_text};

use basics::{read_number, split_once};
use pol_names::{Kind, Name, SubjectId, Verdict};

/// Which kind of subject.
pub(crate) fn kind(word: &[u8]) -> Option<Kind>
    ensures { result ≡ kind_of word.now }
{
    if word == b"group".as_slice() {
        return Some(Kind::Group);
    }
    if word == b"user".as_slice() {
        return Some(Kind::User);
    }
    None
}

/// What a rule says.
pub(crate) fn verdict(word: &[u8]) -> Option<Verdict>
    ensures { result ≡ verdict_of word.now }
{
    if word == b"permit".as_slice() {
        return Some(Verdict::Permit);
    }
    if word == b"deny".as_slice() {
        return Some(Verdict::Deny);
    }
    None
}

/// The number of a rule, or a level: 1 to 4 digits.
pub(crate) fn count(text: &[u8]) -> Option<u16>
    ensures { result ≡ count_of text.now }
{
    let value = read_number(text, 4)?;
    u16::try_from(value).ok()
}

/// `KIND NAME`.
#[tactic(auto, unfolding(crate::specs::EditText::subject_of))]
pub(crate) fn subject(text: &[u8]) -> Option<SubjectId>
    ensures { result ≡ subject_of text.now }
{
    let (word, name) = split_once(text, b' ')?;
    let kind = kind(word)?;
    let name = Name::read(name)?;
    Some(SubjectId { kind, name })
}

/// `KIND NAME`, a space, and the rest.
#[tactic(auto, unfolding(crate::specs::EditText::subject_before))]
pub(crate) fn subject_before(text: &[u8]) -> Option<(SubjectId, &[u8])>
    ensures { option_map (λ front. (front.0, front.1.now)) result ≡ subject_in_front text.now }
{
    let (word, named) = split_once(text, b' ')?;
    let kind = kind(word)?;
    let (name, rest) = split_once(named, b' ')?;
    let name = Name::read(name)?;
    Some((SubjectId { kind, name }, rest))
}

/// `in NAME`.
#[tactic(auto, unfolding(crate::specs::EditText::parent_of_text))]
pub(crate) fn parent(text: &[u8]) -> Option<Name>
    ensures { result ≡ parent_of_text text.now }
{
    let (word, name) = split_once(text, b' ')?;
    if word != b"in".as_slice() {
        return None;
    }
    Name::read(name)
}

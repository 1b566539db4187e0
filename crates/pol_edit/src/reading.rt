//! Reading the line of an edit.

ghost use Rattle.std.specs.Prelude.{◌≡◌, ◌⊎◌, ℕ, List, Option, Some, None, Ok, Err, IfOk, IfErr};
ghost use Rattle.std.specs.Prelude.{IsTrue, OnErr};
ghost use Rattle.std.specs.Option.{option_map};
ghost use Rattle.pol_edit.specs.declared.edit.Edit.{Edit as EditValue};
ghost use Rattle.pol_edit.specs.declared.edit.Edit.TheVariants.{SetLogin, SetEnable, InsertRule};
ghost use Rattle.pol_edit.specs.declared.fault.EditFault.TheVariants.{BadEdit, Memory};
ghost use Rattle.pol_edit.specs.Spelling.{Spells};
ghost use Rattle.pol_edit.specs.EditText.{parted, added as added_by, add_of, move_of, secret_for};
ghost use Rattle.pol_edit.specs.EditText.{hash_for, clear_of, priv_of, insert_of, drop_of};
ghost use Rattle.pol_edit.specs.EditText.{shift_of, edit_by, edit_of, has_text_in, has_attribute};
ghost use Rattle.pol_edit.specs.EditText.{service_allowed, service_refused, service_cleared};
ghost use Rattle.pol_edit.specs.EditText.{setting_cleared};
ghost use Rattle.pol_names.specs.Service.{attributed_of};

use crate::edit::Edit;
use crate::fault::EditFault;
use crate::fields::{count, kind, parent, subject, subject_before, verdict};
use basics::{Bytes, is_text, split_once};
use pol_names::{Credential, Kind, Name, Says, ServiceId, ServiceLine, SubjectId, Verdict};
use std::alloc::{AllocError, Global};

// `NAME` or `NAME in PARENT`, after the kind.
fn added(kind: Kind, text: &[u8]) -> Option<Edit>
    ensures { result ≡ added_by kind text.now (parted text.now) }
{
    let (name, parent) = match split_once(text, b' ') {
        Some((name, rest)) => (Name::read(name)?, Some(parent(rest)?)),
        None => (Name::read(text)?, None),
    };
    Some(match kind {
        Kind::Group => Edit::AddGroup { name, parent },
        Kind::User => Edit::AddUser { name, parent },
    })
}

// `add KIND NAME` or `add KIND NAME in PARENT`, after its first word, as with all that follow.
#[tactic(auto, unfolding(crate::specs::EditText::add_of))]
fn add(rest: &[u8]) -> Option<Edit>
    ensures { result ≡ add_of rest.now }
{
    let (word, rest) = split_once(rest, b' ')?;
    added(kind(word)?, rest)
}

// `move KIND NAME in PARENT` or `move KIND NAME out`.
#[tactic(auto, unfolding(crate::specs::EditText::move_of))]
fn move_subject(rest: &[u8]) -> Option<Edit>
    ensures { result ≡ move_of rest.now }
{
    let Some((subject, rest)) = subject_before(rest) else {
        return None;
    };
    if rest == b"out".as_slice() {
        return Some(Edit::SetParent {
            subject,
            parent: None,
        });
    }
    let parent = Some(parent(rest)?);
    Some(Edit::SetParent { subject, parent })
}

// `NAME TEXT`.
#[tactic(auto, unfolding(crate::specs::EditText::secret_for))]
fn secret(alloc: Global, rest: &[u8]) -> Result<Option<(Name, Bytes)>, AllocError>
    ensures read { IfOk result (λ read. (setting : List ℕ → Option (List ℕ) → EditValue) →
        option_map (λ parts. setting parts.0 (Some parts.1)) read ≡ secret_for setting rest.now) }
    ensures memory { OnErr result (IsTrue (has_text_in (secret_for SetLogin rest.now))
        × IsTrue (has_text_in (secret_for SetEnable rest.now))) }
{
    let Some((name, text)) = split_once(rest, b' ') else {
        return Ok(None);
    };
    let Some(name) = Name::read(name) else {
        return Ok(None);
    };
    let text = Bytes::from_slice(alloc, text)?;
    Ok(Some((name, text)))
}

// `login NAME TEXT`.
fn login(alloc: Global, rest: &[u8]) -> Result<Option<Edit>, AllocError>
    ensures edit { IfOk result (λ edit. edit ≡ secret_for SetLogin rest.now) }
    ensures memory { OnErr result (IsTrue (has_text_in (secret_for SetLogin rest.now))) }
{
    let Some((user, text)) = secret(alloc, rest)? else {
        return Ok(None);
    };
    Ok(Some(Edit::SetLogin {
        user,
        secret: Some(text),
    }))
}

// `enable NAME TEXT`.
fn enable(alloc: Global, rest: &[u8]) -> Result<Option<Edit>, AllocError>
    ensures edit { IfOk result (λ edit. edit ≡ secret_for SetEnable rest.now) }
    ensures memory { OnErr result (IsTrue (has_text_in (secret_for SetEnable rest.now))) }
{
    let Some((user, text)) = secret(alloc, rest)? else {
        return Ok(None);
    };
    Ok(Some(Edit::SetEnable {
        user,
        secret: Some(text),
    }))
}

// `login-hash NAME HASH` or `enable-hash NAME HASH`.
#[tactic(auto, unfolding(crate::specs::EditText::hash_for))]
fn hash(alloc: Global, credential: Credential, rest: &[u8]) -> Result<Option<Edit>, AllocError>
    ensures edit { IfOk result (λ edit. edit ≡ hash_for credential rest.now) }
    ensures memory { OnErr result (IsTrue (has_text_in (hash_for credential rest.now))) }
{
    let Some((name, text)) = split_once(rest, b' ') else {
        return Ok(None);
    };
    let Some(user) = Name::read(name) else {
        return Ok(None);
    };
    let hash = Bytes::from_slice(alloc, text)?;
    Ok(Some(Edit::SetHash {
        user,
        credential,
        hash,
    }))
}

// A service, and the attribute that follows after a space.
fn attributed(alloc: Global, text: &[u8]) -> Result<Option<(ServiceId, Option<Bytes>)>, AllocError>
    ensures read { IfOk result (λ read. read ≡ attributed_of text.now) }
    ensures memory { OnErr result (IsTrue (has_attribute text.now)) }
{
    match split_once(text, b' ') {
        Some((name, text)) => {
            let Some(service) = ServiceId::read(name) else {
                return Ok(None);
            };
            let attribute = Bytes::from_slice(alloc, text)?;
            Ok(Some((service, Some(attribute))))
        }
        None => match ServiceId::read(text) {
            Some(service) => Ok(Some((service, None))),
            None => Ok(None),
        },
    }
}

// `service KIND NAME S` or `service KIND NAME S ATTRIBUTE`.
#[tactic(auto, unfolding(crate::specs::EditText::service_allowed))]
fn allow_service(alloc: Global, rest: &[u8]) -> Result<Option<Edit>, AllocError>
    ensures edit { IfOk result (λ edit. edit ≡ service_allowed rest.now) }
    ensures memory { OnErr result (IsTrue (has_text_in (service_allowed rest.now))) }
{
    let Some((subject, rest)) = subject_before(rest) else {
        return Ok(None);
    };
    let Some((service, attribute)) = attributed(alloc, rest)? else {
        return Ok(None);
    };
    let says = Says::Allows(attribute);
    let line = ServiceLine { service, says };
    Ok(Some(Edit::AddService { subject, line }))
}

// `refuse KIND NAME S`.
#[tactic(auto, unfolding(crate::specs::EditText::service_refused))]
fn refuse_service(rest: &[u8]) -> Option<Edit>
    ensures { result ≡ service_refused rest.now }
{
    let Some((subject, rest)) = subject_before(rest) else {
        return None;
    };
    let service = ServiceId::read(rest)?;
    let says = Says::Refuses;
    let line = ServiceLine { service, says };
    Some(Edit::AddService { subject, line })
}

// `clear service KIND NAME S` or `clear service KIND NAME S ATTRIBUTE`, after its second word.
#[tactic(auto, unfolding(crate::specs::EditText::service_cleared))]
fn clear_service(alloc: Global, rest: &[u8]) -> Result<Option<Edit>, AllocError>
    ensures edit { IfOk result (λ edit. edit ≡ service_cleared rest.now) }
    ensures memory { OnErr result (IsTrue (has_text_in (service_cleared rest.now))) }
{
    let Some((subject, rest)) = subject_before(rest) else {
        return Ok(None);
    };
    let Some((service, attribute)) = attributed(alloc, rest)? else {
        return Ok(None);
    };
    Ok(Some(Edit::ClearService {
        subject,
        service,
        attribute,
    }))
}

// `clear login NAME`, `clear enable NAME` or `clear priv KIND NAME`.
fn clear_setting(word: &[u8], rest: &[u8]) -> Option<Edit>
    ensures { result ≡ setting_cleared word.now rest.now }
{
    if word == b"login".as_slice() {
        let user = Name::read(rest)?;
        return Some(Edit::SetLogin { user, secret: None });
    }
    if word == b"enable".as_slice() {
        let user = Name::read(rest)?;
        return Some(Edit::SetEnable { user, secret: None });
    }
    if word == b"priv".as_slice() {
        let subject = subject(rest)?;
        return Some(Edit::SetPriv {
            subject,
            level: None,
        });
    }
    None
}

// The lines of `clear`.
#[tactic(auto, unfolding(crate::specs::EditText::clear_of))]
fn clear(alloc: Global, rest: &[u8]) -> Result<Option<Edit>, AllocError>
    ensures edit { IfOk result (λ edit. edit ≡ clear_of rest.now) }
    ensures memory { OnErr result (IsTrue (has_text_in (clear_of rest.now))) }
{
    let Some((word, rest)) = split_once(rest, b' ') else {
        return Ok(None);
    };
    if word == b"service".as_slice() {
        return clear_service(alloc, rest);
    }
    Ok(clear_setting(word, rest))
}

// `priv KIND NAME LEVEL`.
#[tactic(auto, unfolding(crate::specs::EditText::priv_of))]
fn level(rest: &[u8]) -> Option<Edit>
    ensures { result ≡ priv_of rest.now }
{
    let Some((subject, level)) = subject_before(rest) else {
        return None;
    };
    let level = Some(count(level)?);
    Some(Edit::SetPriv { subject, level })
}

// The subject, the place, the verdict and the pattern of a rule that is to be inserted.
#[tactic(auto, unfolding(crate::specs::EditText::insert_of))]
fn placed_rule(rest: &[u8]) -> Option<(SubjectId, u16, Verdict, &[u8])>
    ensures { option_map (λ rule. InsertRule rule.0 rule.1 rule.2 rule.3.now) result
        ≡ insert_of rest.now }
{
    let Some((subject, rest)) = subject_before(rest) else {
        return None;
    };
    let (at, rest) = split_once(rest, b' ')?;
    let at = count(at)?;
    let (word, pattern) = split_once(rest, b' ')?;
    let verdict = verdict(word)?;
    Some((subject, at, verdict, pattern))
}

// `insert KIND NAME AT permit PATTERN` or `insert KIND NAME AT deny PATTERN`.
fn insert_rule(alloc: Global, rest: &[u8]) -> Result<Option<Edit>, AllocError>
    ensures edit { IfOk result (λ edit. edit ≡ insert_of rest.now) }
    ensures memory { OnErr result (IsTrue (has_text_in (insert_of rest.now))) }
{
    let Some((subject, at, verdict, pattern)) = placed_rule(rest) else {
        return Ok(None);
    };
    let pattern = Bytes::from_slice(alloc, pattern)?;
    Ok(Some(Edit::InsertRule {
        subject,
        at,
        verdict,
        pattern,
    }))
}

// `drop KIND NAME AT`.
#[tactic(auto, unfolding(crate::specs::EditText::drop_of))]
fn drop_rule(rest: &[u8]) -> Option<Edit>
    ensures { result ≡ drop_of rest.now }
{
    let Some((subject, at)) = subject_before(rest) else {
        return None;
    };
    let at = count(at)?;
    Some(Edit::RemoveRule { subject, at })
}

// `shift KIND NAME FROM TO`.
#[tactic(auto, unfolding(crate::specs::EditText::shift_of))]
fn shift_rule(rest: &[u8]) -> Option<Edit>
    ensures { result ≡ shift_of rest.now }
{
    let Some((subject, places)) = subject_before(rest) else {
        return None;
    };
    let (from, to) = split_once(places, b' ')?;
    let from = count(from)?;
    let to = count(to)?;
    Some(Edit::MoveRule { subject, from, to })
}

// An edit of this first word, which a space follows.
#[tactic(auto, unfolding(crate::specs::EditText::edit_by))]
fn worded(alloc: Global, word: &[u8], rest: &[u8]) -> Result<Option<Edit>, AllocError>
    ensures edit { IfOk result (λ edit. edit ≡ edit_by word.now rest.now) }
    ensures memory { OnErr result (IsTrue (has_text_in (edit_by word.now rest.now))) }
{
    if word == b"add".as_slice() {
        return Ok(add(rest));
    }
    if word == b"remove".as_slice() {
        return Ok(subject(rest).map(|subject| Edit::Remove { subject }));
    }
    if word == b"move".as_slice() {
        return Ok(move_subject(rest));
    }
    if word == b"login".as_slice() {
        return login(alloc, rest);
    }
    if word == b"enable".as_slice() {
        return enable(alloc, rest);
    }
    if word == b"login-hash".as_slice() {
        return hash(alloc, Credential::Login, rest);
    }
    if word == b"enable-hash".as_slice() {
        return hash(alloc, Credential::Enable, rest);
    }
    if word == b"service".as_slice() {
        return allow_service(alloc, rest);
    }
    if word == b"refuse".as_slice() {
        return Ok(refuse_service(rest));
    }
    if word == b"clear".as_slice() {
        return clear(alloc, rest);
    }
    if word == b"priv".as_slice() {
        return Ok(level(rest));
    }
    if word == b"insert".as_slice() {
        return insert_rule(alloc, rest);
    }
    if word == b"drop".as_slice() {
        return Ok(drop_rule(rest));
    }
    if word == b"shift".as_slice() {
        return Ok(shift_rule(rest));
    }
    Ok(None)
}

// The edit that a line of symbols says.
#[tactic(auto, unfolding(crate::specs::EditText::edit_of))]
fn edit(alloc: Global, line: &[u8]) -> Result<Option<Edit>, AllocError>
    ensures edit { IfOk result (λ edit. edit ≡ edit_of line.now) }
    ensures memory { OnErr result (IsTrue (has_text_in (edit_of line.now))) }
{
    if !is_text(line) {
        return Ok(None);
    }
    let Some((word, rest)) = split_once(line, b' ') else {
        return Ok(None);
    };
    worded(alloc, word, rest)
}

/// Reads the line of an edit. Any other line is `BadEdit`.
#[tactic(auto, using(crate::proofs::SpelledSo::spelled_so, crate::proofs::ReadBack::read_back))]
pub fn read_edit(alloc: Global, line: &[u8]) -> Result<Edit, EditFault>
    // Which lines are read, and as which edit.
    ensures ok { IfOk result (λ edit. edit_of line.now ≡ Some edit) }
    // Only an edit that has a text takes memory.
    ensures err { IfErr result (λ fault.
        ((fault ≡ Memory) × IsTrue (has_text_in (edit_of line.now)))
        ⊎ ((fault ≡ BadEdit) × (edit_of line.now ≡ None))) }

    // What is read is spelled so.
    ensures found { IfOk result (λ edit. Spells line.now edit) }

    // What is spelled so is read, unless memory runs out.
    ensures only { (edit : EditValue) → Spells line.now edit →
        (result ≡ Ok edit) ⊎ (result ≡ Err Memory) }
{
    match edit(alloc, line)? {
        Some(edit) => Ok(edit),
        None => Err(EditFault::BadEdit),
    }
}

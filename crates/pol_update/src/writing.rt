//! Writing the line of an edit.

ghost use Rattle.std.specs.Prelude.{◌≡◌, ◌++◌, ◌∷◌, List, [], codes, Ok, OnOk};
ghost use Rattle.std.specs.Fmt.{decimal};
ghost use Rattle.pol_names.specs.Secret.{hash_word};
ghost use Rattle.pol_names.specs.Service.{service_text, attributed_text, attribute_in};
ghost use Rattle.pol_names.specs.SubjectId.{subject_text};
ghost use Rattle.pol_text.specs.Policy.{WellFormed};
ghost use Rattle.pol_text.specs.declared.subject.Subject.{Subject as SubjectValue};
ghost use Rattle.pol_edit.specs.Applying.{applied};
ghost use Rattle.pol_edit.specs.Spelling.{Spells, IsName, IsParent, parent_text};
ghost use Rattle.pol_update.specs.Line.{edit_line, secret_line, level_line, HasNames};

use basics::Bytes;
use pol_edit::Edit;
use pol_names::{Credential, Name, Says, ServiceId, ServiceLine, SubjectId};
use std::alloc::AllocError;
use std::io::Write;

// `WORD KIND NAME`, where the word has its space.
fn write_subject(out: &mut Vec<u8>, word: &str, subject: &SubjectId) -> Result<(), AllocError>
    ensures text { OnOk result
        (out.new.items ≡ out.old.items ++ (word.now ++ subject_text subject.now)) }
    ensures name { IsName subject.now.name }
{
    let name = subject.name.as_slice();
    out.extend_from_slice(word.as_bytes())?;
    out.extend_from_slice(subject.kind.keyword().as_bytes())?;
    out.extend_from_slice(name)
}

// ` in PARENT`, or this where there is no parent.
fn write_parent(out: &mut Vec<u8>, parent: &Option<Name>, none: &str) -> Result<(), AllocError>
    ensures text { OnOk result
        (out.new.items ≡ out.old.items ++ parent_text parent.now none.now) }
    ensures name { IsParent parent.now }
{
    match parent {
        Some(parent) => {
            let name = parent.as_slice();
            out.extend_from_slice(b" in ")?;
            out.extend_from_slice(name)
        }
        None => out.extend_from_slice(none.as_bytes()),
    }
}

// A space and the number.
fn write_number(out: &mut Vec<u8>, number: u16) -> Result<(), AllocError>
    ensures { OnOk result (out.new.items ≡ out.old.items ++ (codes " " ++ decimal number)) }
{
    match write!(out, " {number}") {
        Ok(()) => Ok(()),
        Err(_) => Err(AllocError),
    }
}

// A new subject: `WORD NAME` or `WORD NAME in PARENT`.
fn write_added(
    out: &mut Vec<u8>,
    word: &str,
    name: &Name,
    parent: &Option<Name>,
) -> Result<(), AllocError>
    ensures text { OnOk result
        (out.new.items ≡ out.old.items ++ (word.now ++ name.now ++ parent_text parent.now [])) }
    ensures names { OnOk result (IsName name.now × IsParent parent.now) }
{
    out.extend_from_slice(word.as_bytes())?;
    out.extend_from_slice(name.as_slice())?;
    write_parent(out, parent, "")
}

// `login NAME TEXT` or `clear login NAME`.
fn write_secret(
    out: &mut Vec<u8>,
    credential: Credential,
    user: &Name,
    secret: &Option<Bytes>,
) -> Result<(), AllocError>
    ensures text { OnOk result
        (out.new.items ≡ out.old.items ++ secret_line credential user.now secret.now) }
    ensures name { OnOk result (IsName user.now) }
{
    match secret {
        Some(text) => {
            out.extend_from_slice(credential.keyword().as_bytes())?;
            out.extend_from_slice(user.as_slice())?;
            out.extend_from_slice(b" ")?;
            out.extend_from_slice(text.as_slice())
        }
        None => {
            out.extend_from_slice(b"clear ")?;
            out.extend_from_slice(credential.keyword().as_bytes())?;
            out.extend_from_slice(user.as_slice())
        }
    }
}

// `login-hash NAME HASH` or `enable-hash NAME HASH`.
fn write_hash(
    out: &mut Vec<u8>,
    credential: Credential,
    user: &Name,
    hash: &[u8],
) -> Result<(), AllocError>
    ensures text { OnOk result (out.new.items
        ≡ out.old.items ++ (hash_word credential ++ user.now ++ codes " " ++ hash.now)) }
    ensures name { OnOk result (IsName user.now) }
{
    out.extend_from_slice(credential.hash_keyword().as_bytes())?;
    out.extend_from_slice(user.as_slice())?;
    out.extend_from_slice(b" ")?;
    out.extend_from_slice(hash)
}

// `priv KIND NAME LEVEL` or `clear priv KIND NAME`.
fn write_level(out: &mut Vec<u8>, subject: &SubjectId, level: Option<u16>) -> Result<(), AllocError>
    ensures text { OnOk result
        (out.new.items ≡ out.old.items ++ level_line subject.now level) }
    ensures name { OnOk result (IsName subject.now.name) }
{
    match level {
        Some(level) => {
            write_subject(out, "priv ", subject)?;
            write_number(out, level)
        }
        None => write_subject(out, "clear priv ", subject),
    }
}

// A space and the service.
fn write_service(out: &mut Vec<u8>, service: &ServiceId) -> Result<(), AllocError>
    ensures { OnOk result
        (out.new.items ≡ out.old.items ++ (codes " " ++ service_text service.now)) }
{
    match write!(out, " {service}") {
        Ok(()) => Ok(()),
        Err(_) => Err(AllocError),
    }
}

// A space, the service, and its attribute after another space.
fn write_attributed(
    out: &mut Vec<u8>,
    service: &ServiceId,
    attribute: &Option<Bytes>,
) -> Result<(), AllocError>
    ensures { OnOk result (out.new.items
        ≡ out.old.items ++ (codes " " ++ attributed_text service.now attribute.now)) }
{
    write_service(out, service)?;
    match attribute {
        Some(text) => {
            out.extend_from_slice(b" ")?;
            out.extend_from_slice(text.as_slice())
        }
        None => Ok(()),
    }
}

// What follows the subject in the line of an edit that says this of a service.
fn write_said(out: &mut Vec<u8>, line: &ServiceLine) -> Result<(), AllocError>
    ensures { OnOk result (out.new.items ≡ out.old.items
        ++ (codes " " ++ attributed_text line.now.service (attribute_in line.now.says))) }
{
    match &line.says {
        Says::Allows(attribute) => write_attributed(out, &line.service, attribute),
        Says::Refuses => write_service(out, &line.service),
    }
}

// The edit's words.
fn write_words(out: &mut Vec<u8>, edit: &Edit) -> Result<(), AllocError>
    ensures text { OnOk result (out.new.items ≡ out.old.items ++ edit_line edit.now) }
    ensures names { OnOk result (HasNames edit.now) }
{
    match edit {
        Edit::AddGroup { name, parent } => write_added(out, "add group ", name, parent),
        Edit::AddUser { name, parent } => write_added(out, "add user ", name, parent),
        Edit::Remove { subject } => write_subject(out, "remove ", subject),
        Edit::SetParent { subject, parent } => {
            write_subject(out, "move ", subject)?;
            write_parent(out, parent, " out")
        }
        Edit::SetLogin { user, secret } => write_secret(out, Credential::Login, user, secret),
        Edit::SetEnable { user, secret } => write_secret(out, Credential::Enable, user, secret),
        Edit::SetHash {
            user,
            credential,
            hash,
        } => write_hash(out, *credential, user, hash.as_slice()),
        Edit::SetPriv { subject, level } => write_level(out, subject, *level),
        Edit::AddService { subject, line } => {
            write_subject(out, line.keyword(), subject)?;
            write_said(out, line)
        }
        Edit::ClearService {
            subject,
            service,
            attribute,
        } => {
            write_subject(out, "clear service ", subject)?;
            write_attributed(out, service, attribute)
        }
        Edit::InsertRule {
            subject,
            at,
            verdict,
            pattern,
        } => {
            write_subject(out, "insert ", subject)?;
            write_number(out, *at)?;
            out.extend_from_slice(b" ")?;
            out.extend_from_slice(verdict.keyword().as_bytes())?;
            out.extend_from_slice(pattern.as_slice())
        }
        Edit::RemoveRule { subject, at } => {
            write_subject(out, "drop ", subject)?;
            write_number(out, *at)
        }
        Edit::MoveRule { subject, from, to } => {
            write_subject(out, "shift ", subject)?;
            write_number(out, *from)?;
            write_number(out, *to)
        }
    }
}

/// Writes the line that the console reads the edit from, with its end. The error is out of memory.
pub fn write_edit(out: &mut Vec<u8>, edit: &Edit) -> Result<(), AllocError>
    ensures line { OnOk result
        (out.new.items ≡ out.old.items ++ (edit_line edit.now ++ 10 ∷ [])) }

    // The line of an edit that a policy takes spells that edit, which so is read from it.
    ensures spelled { OnOk result ((policy made : List SubjectValue) → WellFormed policy
        → applied policy edit.now ≡ Ok made → Spells (edit_line edit.now) edit.now) }
{
    write_words(out, edit)?;
    out.push(b'\n')?;
    Ok(())
}

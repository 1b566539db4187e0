//! What stands under a user or a group.

use crate::blocks::{read_command, read_password, read_service};
use crate::configuration::{Extra, Setting, Subject};
use crate::fault::{FileFault, Mistake};
use crate::keyword::Keyword;
use crate::reader::Reader;
use basics::Bytes;
use pol_names::Kind;
use std::alloc::Global;

// Passes over a setting that has no equal.
fn read_extra(reader: &mut Reader<'_>, keyword: Keyword) -> Result<Setting, FileFault> {
    match keyword {
        Keyword::Before | Keyword::After => {
            reader.take_this(b"authorization")?;
            reader.take_text()?;
            Ok(match keyword {
                Keyword::Before => Setting::BeforeAuthorization,
                _ => Setting::AfterAuthorization,
            })
        }
        Keyword::Setting(
            setting @ (Setting::Expires
            | Setting::Message
            | Setting::AccessList
            | Setting::EnableAccessList
            | Setting::MaxSessions),
        ) => {
            reader.take_value()?;
            Ok(setting)
        }
        _ => Err(reader.wrong(Mistake::NoSetting)),
    }
}

fn read_default(reader: &mut Reader<'_>, subject: &mut Subject) -> Result<(), FileFault> {
    let line = reader.line();
    if let Some((first, _)) = subject.default {
        return Err(reader.wrong(Mistake::Repeated(first)));
    }
    reader.take_this(b"service")?;
    reader.take_equals()?;
    let verdict = reader.take_verdict()?;
    subject.default = Some((line, verdict));
    Ok(())
}

// What a keyword begins.
fn read_setting(
    reader: &mut Reader<'_>,
    subject: &mut Subject,
    extras: &mut Vec<Extra>,
    keyword: Keyword,
) -> Result<(), FileFault> {
    match keyword {
        Keyword::Purpose(purpose) => {
            let password = read_password(reader, purpose)?;
            subject.passwords.push(password)?;
            Ok(())
        }
        Keyword::Default => read_default(reader, subject),
        Keyword::Member => reader.take_once(&mut subject.parent),
        Keyword::Service => {
            let service = read_service(reader)?;
            subject.services.push(service)?;
            Ok(())
        }
        Keyword::Command => {
            let command = read_command(reader)?;
            subject.commands.push(command)?;
            Ok(())
        }
        // a name in full changes nothing
        Keyword::Name => {
            reader.take_value()?;
            Ok(())
        }
        _ => {
            let line = reader.line();
            let setting = read_extra(reader, keyword)?;
            extras.push(Extra { line, setting })?;
            Ok(())
        }
    }
}

/// A subject of which nothing but its name is read.
pub(crate) fn new_subject(
    alloc: Global,
    line: usize,
    kind: Kind,
    name: Bytes,
    number: usize,
) -> Subject {
    Subject {
        line,
        kind,
        name,
        number,
        parent: None,
        default: None,
        passwords: Vec::new(alloc),
        services: Vec::new(alloc),
        commands: Vec::new(alloc),
    }
}

// What stands between the braces of a subject.
fn read_settings(
    reader: &mut Reader<'_>,
    subject: &mut Subject,
    extras: &mut Vec<Extra>,
) -> Result<(), FileFault> {
    'settings: for _ in 0..reader.left() {
        let Some(keyword) = reader.take_inner(Mistake::NoSetting)? else {
            return Ok(());
        };
        read_setting(reader, subject, extras, keyword)?;
    }
    Err(reader.wrong(Mistake::OpenBrace))
}

/// A user or a group, whose name has been taken.
pub(crate) fn read_subject(
    reader: &mut Reader<'_>,
    subject: &mut Subject,
    extras: &mut Vec<Extra>,
) -> Result<(), FileFault> {
    reader.take_open()?;
    read_settings(reader, subject, extras)
}

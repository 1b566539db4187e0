//! Reading a whole file.

use crate::blocks::{read_access_list, read_host};
use crate::configuration::{Configuration, Extra, Host, Names, Place, Setting};
use crate::fault::{FileFault, Mistake};
use crate::keyword::Keyword;
use crate::newer::refusal_of;
use crate::reader::{Reader, Token};
use crate::subject::{new_subject, read_subject};
use pol_names::Kind;
use std::alloc::Global;
use std::collections::BTreeMap;

// What is read of a file, and who is there by now.
struct Draft {
    read: Configuration,
    users: Names,
    hosts: Names,
}

// By hand, so that a proof of an owner has one call at each exit, not a drop of each field.
impl Drop for Draft {
    fn drop(self) {
        let Draft {
            read: _,
            users: _,
            hosts: _,
        } = self;
    }
}

impl Draft {
    fn new(alloc: Global) -> Draft {
        Draft {
            read: Configuration {
                key: None,
                hosts: Vec::new(alloc),
                subjects: Vec::new(alloc),
                groups: BTreeMap::new(alloc),
                extras: Vec::new(alloc),
            },
            users: BTreeMap::new(alloc),
            hosts: BTreeMap::new(alloc),
        }
    }

    fn finish(self) -> Configuration {
        let Draft {
            read,
            users: _,
            hosts: _,
        } = self;
        read
    }
}

// Notes that this name's subject or device begins here, or refuses a second one.
fn add_name(
    reader: &Reader<'_>,
    names: &mut Names,
    name: &[u8],
    at: usize,
) -> Result<(), FileFault> {
    let line = reader.line();
    let name = Vec::from_slice(reader.alloc(), name)?;
    match names.insert(name, Place { line, at })? {
        Some(first) => Err(reader.wrong(Mistake::Repeated(first.line))),
        None => Ok(()),
    }
}

fn take_subject(reader: &mut Reader<'_>, draft: &mut Draft, kind: Kind) -> Result<(), FileFault> {
    let line = reader.line();
    let name = reader.take_value()?;
    let at = draft.read.subjects.len();
    let names = match kind {
        Kind::User => &mut draft.users,
        Kind::Group => &mut draft.read.groups,
    };
    let number = names.len();
    add_name(reader, names, name.as_slice(), at)?;
    let mut subject = new_subject(reader.alloc(), line, kind, name, number);
    read_subject(reader, &mut subject, &mut draft.read.extras)?;
    draft.read.subjects.push(subject)?;
    Ok(())
}

fn take_host(reader: &mut Reader<'_>, draft: &mut Draft) -> Result<(), FileFault> {
    let line = reader.line();
    let name = reader.take_value()?;
    let at = draft.read.hosts.len();
    add_name(reader, &mut draft.hosts, name.as_slice(), at)?;
    let mut host = Host {
        line,
        name,
        key: None,
    };
    read_host(reader, &mut host, &mut draft.read.extras)?;
    draft.read.hosts.push(host)?;
    Ok(())
}

// Passes over `accounting ..`.
fn take_accounting(reader: &mut Reader<'_>) -> Result<Setting, FileFault> {
    let word = reader.take_plain(Mistake::NoSetting)?;
    if word == b"syslog".as_slice() {
        Ok(Setting::AccountingSyslog)
    } else if word == b"file".as_slice() {
        reader.take_value()?;
        Ok(Setting::AccountingFile)
    } else {
        Err(reader.wrong(Mistake::NoSetting))
    }
}

// Passes over `default ..`.
fn take_default(reader: &mut Reader<'_>) -> Result<Setting, FileFault> {
    let word = reader.take_plain(Mistake::NoSetting)?;
    reader.take_equals()?;
    if word == b"authorization".as_slice() {
        reader.take_verdict()?;
        Ok(Setting::DefaultAuthorization)
    } else if word == b"authentication".as_slice() {
        reader.take_this(b"file")?;
        reader.take_text()?;
        Ok(Setting::DefaultAuthentication)
    } else {
        Err(reader.wrong(Mistake::NoSetting))
    }
}

// Passes over what has no equal.
fn take_extra(reader: &mut Reader<'_>, keyword: Keyword) -> Result<Setting, FileFault> {
    match keyword {
        Keyword::Accounting => take_accounting(reader),
        Keyword::Default => take_default(reader),
        Keyword::Setting(Setting::Logging) => {
            reader.take_value()?;
            Ok(Setting::Logging)
        }
        Keyword::Setting(Setting::AccessList) => {
            read_access_list(reader)?;
            Ok(Setting::AccessList)
        }
        Keyword::Include => Err(reader.wrong(Mistake::Include)),
        _ => Err(reader.wrong(Mistake::NoSetting)),
    }
}

// What a keyword outside of all braces begins.
fn take_item(
    reader: &mut Reader<'_>,
    draft: &mut Draft,
    keyword: Keyword,
) -> Result<(), FileFault> {
    match keyword {
        Keyword::User => take_subject(reader, draft, Kind::User),
        Keyword::Group => take_subject(reader, draft, Kind::Group),
        Keyword::Key => reader.take_once(&mut draft.read.key),
        Keyword::Host => take_host(reader, draft),
        _ => {
            let line = reader.line();
            let setting = take_extra(reader, keyword)?;
            draft.read.extras.push(Extra { line, setting })?;
            Ok(())
        }
    }
}

fn read_items(reader: &mut Reader<'_>, draft: &mut Draft) -> Result<(), FileFault> {
    'items: for _ in 0..reader.left() {
        let keyword = match reader.take()? {
            Token::Word(word) => Keyword::read(word),
            Token::End => break,
            _ => None,
        };
        match keyword {
            Some(keyword) => take_item(reader, draft, keyword)?,
            None => return Err(reader.wrong(Mistake::NoSetting)),
        }
    }
    Ok(())
}

/// What a file says, as tac_plus F4.0.4 reads it; or the first line that isn't one of its files, or
/// that makes it one of another tac_plus.
///
/// Linear in the file, but for the look-up of names. Braces stand in braces at most twice, so
/// nothing here goes deeper than that.
pub fn read_configuration(alloc: Global, text: &[u8]) -> Result<Configuration, FileFault> {
    let mut reader = Reader::new(alloc, text);
    let mut draft = Draft::new(alloc);
    if let Err(fault) = read_items(&mut reader, &mut draft) {
        return Err(refusal_of(alloc, text, fault));
    }
    Ok(draft.finish())
}

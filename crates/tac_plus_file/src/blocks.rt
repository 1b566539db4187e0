//! What stands between braces: services, commands and devices.

use crate::configuration::{
    Attribute, Command, Extra, Host, Method, Password, Purpose, Rule, Service, Setting,
};
use crate::fault::{FileFault, Mistake};
use crate::keyword::Keyword;
use crate::reader::{Reader, Token};
use basics::Bytes;
use pol_names::Verdict;

// Whether it is this word without quotes.
fn is_word(token: Token<'_>, wanted: &[u8]) -> bool {
    match token {
        Token::Word(word) => word == wanted,
        _ => false,
    }
}

// An attribute of a service, which begins by this token.
fn read_attribute(reader: &mut Reader<'_>, first: Token<'_>) -> Result<Attribute, FileFault> {
    let is_optional = is_word(first, b"optional");
    let token = if is_optional { reader.take()? } else { first };
    let line = reader.line();
    let name = reader.text_of(token)?;
    let value = reader.take_value()?;
    Ok(Attribute {
        line,
        is_optional,
        name,
        value,
    })
}

// Whether a service permits attributes that it doesn't list. The word `default` has been taken.
fn read_default(reader: &mut Reader<'_>, service: &mut Service) -> Result<(), FileFault> {
    let line = reader.line();
    if let Some((first, _)) = service.default {
        return Err(reader.wrong(Mistake::Repeated(first)));
    }
    reader.take_this(b"attribute")?;
    reader.take_equals()?;
    let verdict = reader.take_verdict()?;
    service.default = Some((line, verdict));
    Ok(())
}

// What stands between the braces of a service.
fn read_attributes(reader: &mut Reader<'_>, service: &mut Service) -> Result<(), FileFault> {
    'attributes: for _ in 0..reader.left() {
        match reader.take()? {
            Token::Close => return Ok(()),
            Token::End => break,
            token if is_word(token, b"default") => read_default(reader, service)?,
            token => {
                let attribute = read_attribute(reader, token)?;
                service.attributes.push(attribute)?;
            }
        }
    }
    Err(reader.wrong(Mistake::OpenBrace))
}

// The protocol of a service, if it has one, and its `{`.
fn read_protocol(reader: &mut Reader<'_>) -> Result<Option<Bytes>, FileFault> {
    let token = reader.take()?;
    if is_word(token, b"protocol") {
        let protocol = reader.take_value()?;
        reader.take_open()?;
        return Ok(Some(protocol));
    }
    match token {
        Token::Open => Ok(None),
        _ => Err(reader.wrong(Mistake::NoOpen)),
    }
}

/// A service, whose keyword has been taken.
pub(crate) fn read_service(reader: &mut Reader<'_>) -> Result<Service, FileFault> {
    let line = reader.line();
    let name = reader.take_value()?;
    let protocol = read_protocol(reader)?;
    let mut service = Service {
        line,
        name,
        protocol,
        default: None,
        attributes: Vec::new(reader.alloc()),
    };
    read_attributes(reader, &mut service)?;
    Ok(service)
}

// A rule, whose verdict has been taken.
fn read_rule(reader: &mut Reader<'_>, verdict: Verdict) -> Result<Rule, FileFault> {
    let line = reader.line();
    let expression = reader.take_text()?;
    Ok(Rule {
        line,
        verdict,
        expression,
    })
}

// The rules of a command, up to its end.
fn read_rules(reader: &mut Reader<'_>, rules: &mut Vec<Rule>) -> Result<(), FileFault> {
    'rules: for _ in 0..reader.left() {
        let Some(verdict) = reader.take_inner_verdict()? else {
            return Ok(());
        };
        let rule = read_rule(reader, verdict)?;
        rules.push(rule)?;
    }
    Err(reader.wrong(Mistake::OpenBrace))
}

/// A command, whose keyword has been taken.
pub(crate) fn read_command(reader: &mut Reader<'_>) -> Result<Command, FileFault> {
    let line = reader.line();
    let name = reader.take_value()?;
    reader.take_open()?;
    let mut command = Command {
        line,
        name,
        rules: Vec::new(reader.alloc()),
    };
    read_rules(reader, &mut command.rules)?;
    Ok(command)
}

// How a password is kept.
fn take_method(reader: &mut Reader<'_>) -> Result<Method, FileFault> {
    let word = reader.take_value()?;
    match Keyword::read(word.as_slice()) {
        Some(Keyword::Method(method)) => Ok(method),
        _ => Err(reader.wrong(Mistake::NoMethod)),
    }
}

/// A password for this, whose keyword has been taken.
pub(crate) fn read_password(
    reader: &mut Reader<'_>,
    purpose: Purpose,
) -> Result<Password, FileFault> {
    let line = reader.line();
    let method = take_method(reader)?;
    let text = match method {
        Method::Cleartext | Method::Des | Method::File => reader.take_whole()?,
        Method::Skey | Method::NoPassword | Method::Pam => Bytes::new(reader.alloc()),
    };
    Ok(Password {
        line,
        purpose,
        method,
        text,
    })
}

// Passes over what has no equal of a device's settings.
fn pass_host_setting(reader: &mut Reader<'_>, keyword: Keyword) -> Result<Setting, FileFault> {
    match keyword {
        Keyword::Setting(setting @ (Setting::HostPrompt | Setting::HostType)) => {
            reader.take_value()?;
            Ok(setting)
        }
        Keyword::Purpose(Purpose::Enable) => {
            read_password(reader, Purpose::Enable)?;
            Ok(Setting::HostEnable)
        }
        _ => Err(reader.wrong(Mistake::NoSetting)),
    }
}

// What a keyword of a device's settings begins.
fn read_host_setting(
    reader: &mut Reader<'_>,
    host: &mut Host,
    extras: &mut Vec<Extra>,
    keyword: Keyword,
) -> Result<(), FileFault> {
    if let Keyword::Key = keyword {
        return reader.take_once(&mut host.key);
    }
    let line = reader.line();
    let setting = pass_host_setting(reader, keyword)?;
    extras.push(Extra { line, setting })?;
    Ok(())
}

/// The settings of a device, up to its end.
pub(crate) fn read_host(
    reader: &mut Reader<'_>,
    host: &mut Host,
    extras: &mut Vec<Extra>,
) -> Result<(), FileFault> {
    reader.take_open()?;
    'settings: for _ in 0..reader.left() {
        let Some(keyword) = reader.take_inner(Mistake::NoSetting)? else {
            return Ok(());
        };
        read_host_setting(reader, host, extras, keyword)?;
    }
    Err(reader.wrong(Mistake::OpenBrace))
}

/// Passes over a list of addresses, whose keyword has been taken.
pub(crate) fn read_access_list(reader: &mut Reader<'_>) -> Result<(), FileFault> {
    reader.take_value()?;
    reader.take_open()?;
    'entries: for _ in 0..reader.left() {
        if reader.take_inner_verdict()?.is_none() {
            return Ok(());
        }
        reader.take_value()?;
    }
    Err(reader.wrong(Mistake::OpenBrace))
}

//! The words that mean something in a file.

use crate::configuration::{Method, Purpose, Setting};
use pol_names::Verdict;

/// What a word means.
#[derive(Clone, Copy)]
pub(crate) enum Keyword {
    Accounting,
    After,
    Before,
    Command,
    Default,
    Group,
    Host,
    Include,
    Key,
    Member,
    Name,
    Service,
    User,
    Method(Method),
    Purpose(Purpose),
    /// What is passed over.
    Setting(Setting),
    Verdict(Verdict),
}

/// How each is spelled.
const SPELLED: [(&[u8], Keyword); 39] = [
    (b"PAM", Keyword::Method(Method::Pam)),
    (b"accounting", Keyword::Accounting),
    (b"acl", Keyword::Setting(Setting::AccessList)),
    (b"after", Keyword::After),
    (b"arap", Keyword::Purpose(Purpose::Arap)),
    (b"before", Keyword::Before),
    (b"chap", Keyword::Purpose(Purpose::Chap)),
    (b"cleartext", Keyword::Method(Method::Cleartext)),
    (b"cmd", Keyword::Command),
    (b"default", Keyword::Default),
    (b"deny", Keyword::Verdict(Verdict::Deny)),
    (b"des", Keyword::Method(Method::Des)),
    (b"enable", Keyword::Purpose(Purpose::Enable)),
    (b"enableacl", Keyword::Setting(Setting::EnableAccessList)),
    (b"expires", Keyword::Setting(Setting::Expires)),
    (b"file", Keyword::Method(Method::File)),
    (b"global", Keyword::Purpose(Purpose::Global)),
    (b"group", Keyword::Group),
    (b"host", Keyword::Host),
    (b"include", Keyword::Include),
    (b"key", Keyword::Key),
    (b"logging", Keyword::Setting(Setting::Logging)),
    (b"login", Keyword::Purpose(Purpose::Login)),
    (b"maxsess", Keyword::Setting(Setting::MaxSessions)),
    (b"member", Keyword::Member),
    (b"message", Keyword::Setting(Setting::Message)),
    (b"ms-chap", Keyword::Purpose(Purpose::MsChap)),
    (b"mschap", Keyword::Purpose(Purpose::MsChap)),
    (b"name", Keyword::Name),
    (b"nopassword", Keyword::Method(Method::NoPassword)),
    (b"opap", Keyword::Purpose(Purpose::OutboundPap)),
    (b"pam", Keyword::Method(Method::Pam)),
    (b"pap", Keyword::Purpose(Purpose::Pap)),
    (b"permit", Keyword::Verdict(Verdict::Permit)),
    (b"prompt", Keyword::Setting(Setting::HostPrompt)),
    (b"service", Keyword::Service),
    (b"skey", Keyword::Method(Method::Skey)),
    (b"type", Keyword::Setting(Setting::HostType)),
    (b"user", Keyword::User),
];

impl Keyword {
    /// The keyword that a word is.
    pub(crate) fn read(word: &[u8]) -> Option<Keyword> {
        let (_, keyword) = SPELLED.iter().find(|(name, _)| *name == word)?;
        Some(*keyword)
    }
}

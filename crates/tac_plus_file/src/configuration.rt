//! What a file says, in its order.

use basics::Bytes;
use pol_names::{Kind, Verdict};
use std::collections::BTreeMap;

/// A word and its line.
#[derive(Drop)]
pub struct Word {
    pub line: usize,
    pub text: Bytes,
}

/// What is read and has no equal in a policy.
#[derive(Clone, Copy, Debug, PartialEq, Eq)]
pub enum Setting {
    AccessList,
    AccountingFile,
    AccountingSyslog,
    AfterAuthorization,
    BeforeAuthorization,
    DefaultAuthentication,
    DefaultAuthorization,
    EnableAccessList,
    Expires,
    HostEnable,
    HostPrompt,
    HostType,
    Logging,
    MaxSessions,
    Message,
}

/// Where a setting without an equal stands.
#[derive(Clone, Copy, Debug, PartialEq, Eq)]
pub struct Extra {
    pub line: usize,
    pub setting: Setting,
}

/// What a password is for.
#[derive(Clone, Copy, Debug, PartialEq, Eq)]
pub enum Purpose {
    Login,
    Enable,
    Pap,
    Chap,
    MsChap,
    Arap,
    OutboundPap,
    /// All of these that have none of their own.
    Global,
}

/// How a password is kept.
#[derive(Clone, Copy, Debug, PartialEq, Eq)]
pub enum Method {
    /// The text is the password.
    Cleartext,
    /// The text is what crypt(3) makes of it.
    Des,
    /// The text is the path of a file like /etc/passwd.
    File,
    /// There is no text with these.
    Skey,
    NoPassword,
    Pam,
}

/// A password of a user or a group.
#[derive(Drop)]
pub struct Password {
    pub line: usize,
    pub purpose: Purpose,
    pub method: Method,
    pub text: Bytes,
}

/// `NAME = VALUE` within a service.
#[derive(Drop)]
pub struct Attribute {
    pub line: usize,
    pub is_optional: bool,
    pub name: Bytes,
    pub value: Bytes,
}

/// `service = NAME { .. }`, or `service = NAME protocol = PROTOCOL { .. }`.
#[derive(Drop)]
pub struct Service {
    pub line: usize,
    pub name: Bytes,
    pub protocol: Option<Bytes>,
    /// The `default attribute`, and its line.
    pub default: Option<(usize, Verdict)>,
    pub attributes: Vec<Attribute>,
}

/// `permit EXPRESSION` or `deny EXPRESSION` within a command.
#[derive(Drop)]
pub struct Rule {
    pub line: usize,
    pub verdict: Verdict,
    pub expression: Bytes,
}

/// `cmd = NAME { .. }`.
#[derive(Drop)]
pub struct Command {
    pub line: usize,
    pub name: Bytes,
    pub rules: Vec<Rule>,
}

/// A user or a group.
pub struct Subject {
    pub line: usize,
    pub kind: Kind,
    pub name: Bytes,
    /// How many of its kind stand before it.
    pub number: usize,
    /// The group that it is a member of.
    pub parent: Option<Word>,
    /// The `default service`, and its line.
    pub default: Option<(usize, Verdict)>,
    pub passwords: Vec<Password>,
    pub services: Vec<Service>,
    pub commands: Vec<Command>,
}

// By hand, so that a proof of an owner has one call at each exit, not a drop of each field.
impl Drop for Subject {
    fn drop(self) {
        let Subject {
            line: _,
            kind: _,
            name: _,
            number: _,
            parent: _,
            default: _,
            passwords: _,
            services: _,
            commands: _,
        } = self;
    }
}

/// A device with settings of its own.
#[derive(Drop)]
pub struct Host {
    pub line: usize,
    pub name: Bytes,
    pub key: Option<Word>,
}

/// Where a subject or a device begins: at which line, and how many subjects or devices stand before it.
#[derive(Clone, Copy)]
pub struct Place {
    pub line: usize,
    pub at: usize,
}

/// Names, and where what they name begins.
pub type Names = BTreeMap<Vec<u8>, Place>;

/// All that a file says.
pub struct Configuration {
    pub key: Option<Word>,
    pub hosts: Vec<Host>,
    pub subjects: Vec<Subject>,
    /// Where each group stands among the subjects.
    pub groups: Names,
    /// What has no equal in a policy, wherever it stands.
    pub extras: Vec<Extra>,
}

// By hand, as above.
impl Drop for Configuration {
    fn drop(self) {
        let Configuration {
            key: _,
            hosts: _,
            subjects: _,
            groups: _,
            extras: _,
        } = self;
    }
}

//! What is told of a file's lines: what was left out, and what was decided.

use std::{fmt, str};
use tac_plus_file::{Purpose, Setting};

/// What is told of a word, by what stands after it.
#[derive(Clone, Copy)]
pub(crate) enum What {
    /// Something isn't said.
    LeftOut(&'static str),
    /// Something was only decided.
    Decided(&'static str),
}

impl What {
    pub(crate) const COMMAND_NAME: What = What::LeftOut(" is no command of one word: left out");

    pub(crate) const SECOND_COMMAND: What = What::Decided(
        " is a second 'cmd' of this name, and the first decides",
    );

    pub(crate) const SECOND_SERVICE: What = What::Decided(
        " is a second 'service' of this name, and the first decides",
    );

    pub(crate) const METHOD: What = What::LeftOut(
        " is no password in the clear and no hash that begins with '$6$': left out",
    );

    pub(crate) const MORE_ROUNDS: What = What::LeftOut(
        " is a SHA-512 hash with more rounds than are taken, 999999: left out",
    );

    pub(crate) const FEWER_ROUNDS: What = What::LeftOut(
        " is a SHA-512 hash with fewer rounds than are taken, 1000: left out",
    );

    pub(crate) const ROUNDS: What = What::LeftOut(
        " is a SHA-512 hash whose rounds aren't a number in its fewest digits: left out",
    );

    pub(crate) const EMPTY_SALT: What = What::LeftOut(
        " is a SHA-512 hash with an empty salt: left out",
    );

    pub(crate) const SALT: What = What::LeftOut(
        " is a SHA-512 hash whose salt isn't 1 to 16 of './0-9A-Za-z': left out",
    );

    pub(crate) const DIGEST: What = What::LeftOut(
        " is a SHA-512 hash whose salt isn't followed by '$' and 86 of './0-9A-Za-z': left out",
    );

    pub(crate) const SECRET: What = What::LeftOut(" isn't 1 to 128 printable characters: left out");

    pub(crate) const OTHER_PASSWORD: What = What::LeftOut(
        " isn't the login, and a user has one here: left out",
    );

    pub(crate) const IS_LOGIN: What = What::Decided(" is the login here, by whichever way");

    pub(crate) const SECOND_ENABLE: What = What::LeftOut(
        " is a second one, and the first counts: left out",
    );

    pub(crate) const USER_NAME: What = What::LeftOut(" is no name of a user here: left out");

    pub(crate) const DEFAULT_USER: What = What::LeftOut(
        " stands for all who aren't listed, and here each user is: left out",
    );

    pub(crate) const ENABLE_USER: What = What::LeftOut(
        " is a secret for all, and here each user has an 'enable': left out",
    );

    pub(crate) const RENAMED: What = What::Decided(
        " is no name of a group here, so it is called by its line",
    );

    pub(crate) const NO_GROUP: What = What::LeftOut(" is no group of the file: left out");

    pub(crate) const TOO_DEEP: What = What::LeftOut(
        " is in over 7 groups above one another, or in a circle: left out",
    );

    pub(crate) const TOO_MANY_SUBJECTS: What = What::LeftOut(
        " is beyond the 1024th of users and groups: left out",
    );

    pub(crate) const GROUP_LEFT_OUT: What = What::LeftOut(
        " is in a group that is left out: left out",
    );

    pub(crate) const TOO_MANY_RULES: What = What::LeftOut(
        " has over 255 rules: the rest is left out and denied",
    );

    pub(crate) const LONG_COMMAND: What = What::LeftOut(
        " has a command too long for a pattern: the rest is left out and denied",
    );

    pub(crate) const TOO_MANY_LINES: What = What::LeftOut(
        " is beyond the 64th line about services: left out",
    );

    pub(crate) const SERVICE_NAME: What = What::LeftOut(" is no service here: left out");

    pub(crate) const CLOSED_SERVICE: What = What::LeftOut(
        " refuses mandatory arguments that it doesn't list, which are permitted here: left out",
    );

    pub(crate) const SHELL_SERVICE: What = What::LeftOut(
        " is asked for as a shell, which 'exec' is: left out",
    );

    pub(crate) const ATTRIBUTE: What = What::LeftOut(" is no attribute here: left out");

    pub(crate) const LEVEL: What = What::LeftOut(
        " is no level of 0 to 15, or a second one: left out",
    );

    pub(crate) const OPTIONAL_LEVEL: What = What::Decided(" is given as mandatory here");

    pub(crate) const LEVEL_ONE: What = What::Decided(
        " has no 'priv-lvl' and its groups have one: 'priv 1' is written",
    );

    pub(crate) const ALL_SERVICES: What = What::LeftOut(
        " permits services that nobody lists, which are refused here: left out",
    );

    pub(crate) const COPIED: What = What::Decided(
        " has another default than its group, so it repeats the group's commands",
    );

    pub(crate) const KEY_UNASKED: What = What::LeftOut(
        " is written by '--key-to' or '--devices-to': left out",
    );

    pub(crate) const HOST_UNASKED: What = What::LeftOut(" is written by '--devices-to': left out");

    pub(crate) const HOST_ADDRESS: What = What::LeftOut(" is no IP address: left out");

    pub(crate) const SAME_ADDRESS: What = What::LeftOut(
        " is the address of an earlier host: left out",
    );

    pub(crate) const HOST_KEY: What = What::LeftOut(" has no key: left out");

    pub(crate) const TOO_MANY_HOSTS: What = What::LeftOut(" is beyond the 4095th device: left out");
}

/// The words by which a file sets this, and what is told of them.
pub(crate) fn told_of(setting: Setting) -> (&'static str, &'static str) {
    let devices = " has no equal here, '--devices' says which devices may call: left out";
    let syslog = " isn't set here, rsyslog can send on what 'serve --log PATH' writes: left out";
    let nothing = " has no equal here: left out";
    match setting {
        Setting::AccessList => ("acl", devices),
        Setting::AccountingFile => (
            "accounting file",
            " isn't set here, 'serve --log PATH' writes each record: left out",
        ),
        Setting::AccountingSyslog => ("accounting syslog", syslog),
        Setting::AfterAuthorization => ("after authorization", nothing),
        Setting::BeforeAuthorization => ("before authorization", nothing),
        Setting::DefaultAuthentication => (
            "default authentication",
            " has no equal here, each user has a login of its own: left out",
        ),
        Setting::DefaultAuthorization => (
            "default authorization",
            " has no equal here, each user is listed: left out",
        ),
        Setting::EnableAccessList => ("enableacl", devices),
        Setting::Expires => ("expires", nothing),
        Setting::HostEnable => (
            "enable",
            " has no equal here, each user has an 'enable' of its own: left out",
        ),
        Setting::HostPrompt => ("prompt", nothing),
        Setting::HostType => ("type", nothing),
        Setting::Logging => ("logging", syslog),
        Setting::MaxSessions => ("maxsess", nothing),
        Setting::Message => ("message", nothing),
    }
}

/// The word by which a file gives such a password.
pub(crate) fn purpose_word(purpose: Purpose) -> &'static [u8] {
    match purpose {
        Purpose::Login => b"login",
        Purpose::Enable => b"enable",
        Purpose::Pap => b"pap",
        Purpose::Chap => b"chap",
        Purpose::MsChap => b"ms-chap",
        Purpose::Arap => b"arap",
        Purpose::OutboundPap => b"opap",
        Purpose::Global => b"global",
    }
}

/// What is told of a line.
pub struct Remark {
    pub line: usize,
    /// Whether something isn't said: the rest was only decided.
    pub is_left_out: bool,
    // of symbols alone
    text: Vec<u8>,
}

// By hand, so that a proof of an owner has one call at each exit, not a drop of each field.
impl Drop for Remark {
    fn drop(self) {
        let Remark {
            line: _,
            is_left_out: _,
            text: _,
        } = self;
    }
}

impl Remark {
    pub(crate) fn new(line: usize, is_left_out: bool, text: Vec<u8>) -> Remark {
        Remark {
            line,
            is_left_out,
            text,
        }
    }
}

impl fmt::Display for Remark {
    fn fmt<W: fmt::Write>(&self, f: &mut fmt::Formatter<W>) -> fmt::Result {
        let line = self.line;
        let text = str::from_utf8(self.text.as_slice()).unwrap_or("");
        write!(f, "line {line}: {text}")
    }
}

//! The words that `ask` takes.

use crate::command_line::{
    KEY, KEY_FILE, USER, WORD, flag, number, required, rest, text, with_page,
};
use crate::help::Page;
use clap::{Arg, ArgGroup, Command};
use std::alloc::{AllocError, Global};

/// The word that asks a server.
pub const ASK: &str = "ask";

/// What it is asked: whether a user may log in.
pub const LOGIN: &str = "login";

/// Whether a user may give a command line.
pub const COMMAND: &str = "command";

/// Whether a user gets a shell.
pub const SHELL: &str = "shell";

/// What a user is given for another service.
pub const SERVICE: &str = "service";

/// That it takes a record.
pub const RECORD: &str = "record";

/// Where the server is.
pub const TO: &str = "to";

/// Whether packets are sent as they are.
pub const CLEAR: &str = "clear";

/// Where the user is.
pub const FROM: &str = "from";

/// At which port he is.
pub const PORT_NAME: &str = "port-name";

/// How many seconds all may take.
pub const TIMEOUT: &str = "timeout";

/// Whether it is told how long it took.
pub const TIMES: &str = "times";

/// How the password is shown to the server: where it asks for it.
const ASCII: &str = "ascii";

/// In the first packet.
pub const PAP: &str = "pap";

/// By the response to a challenge.
pub const CHAP: &str = "chap";

/// Whether a level is asked for, and not a shell.
pub const ENABLE: &str = "enable";

/// Which service is asked for.
pub const NAME: &str = "S";

/// By which attributes it is asked for.
pub const ATTRIBUTE: &str = "ATTRIBUTE";

/// Which kind of record is sent.
pub const KIND: &str = "KIND";

/// Of which task it is.
pub const TASK: &str = "task-id";

/// The record of a task that begins.
pub const START: &str = "start";

/// That of one that has ended.
pub const STOP: &str = "stop";

/// That of one that goes on.
pub const WATCHDOG: &str = "watchdog";

/// The same, with what has changed of it.
const UPDATE: &str = "update";

// How the key is told, by one of these options.
const DOOR: &str = "door";

// How the password is shown, by one of these.
const METHOD: &str = "method";

const ASK_PAGE: Page = Page {
    about: "Asks a TACACS+ server as a device does, and prints its answer",
    long_about: "Asks any TACACS+ server (RFC 8907) one thing, as a device does, and prints its
answer.

The server is at --to: a host, with ':' and a port unless that is 49. An IPv6
address stands in brackets where a port follows, as [2001:db8::1]:49. The key is
the one that the server has for this machine. Give it by --key-file: a key on
the command line can be seen by everyone with a login on this machine. With
--clear packets have no pad, as between a TLS proxy and a server (RFC 9887).

The password of a login is the first line of standard input. It is shown to the
server as --ascii, --pap or --chap says; without one of them it is --ascii, as
most devices log their users in: the server asks for it. By --pap it stands in
the first packet, so there is one reply, and by --chap the response to a
challenge does.",
    after_help: "Example:
  tacd ask --key-file tacd.key command bob show version

'tacd ask --help' describes what is printed.",
    after_long_help: "What is printed, on one line:
  STATUS ARGUMENT..    the status, and the arguments that the server sends; one
                       with a blank in it stands between apostrophes
  STATUS MESSAGE       where it sends none, its message
A message after arguments begins with '; message ', and data with '; data '. The
statuses are those of RFC 8907: of a login PASS, FAIL, ERROR and what else a
server may want, as GETDATA; of 'command', 'shell' and 'service' PASS_ADD,
PASS_REPL, FAIL and ERROR; of a record SUCCESS and ERROR; FOLLOW of each. What
isn't printable ASCII is printed as \\x and two hexadecimal digits, and so are
the backslash, and the apostrophe in an argument.

With --times a second line tells how long it took, from the call to the last
reply: 'took N ms'. So it can watch over a server: 'shell' of a user that isn't
there ends with status 1 as long as the server answers.

Examples:
  $ tacd ask --key-file tacd.key login bob < password
  PASS
  $ tacd ask --key-file tacd.key shell bob
  PASS_ADD priv-lvl=15
  $ tacd ask --key-file tacd.key command bob show running-config
  FAIL denied by group ops rule 2
  $ tacd ask --key-file tacd.key --times record stop bob show version
  SUCCESS
  took 0.412 ms

Exit status:
  0  the server granted it, or took the record: PASS, PASS_ADD, PASS_REPL or
     SUCCESS
  1  it answered otherwise
  2  the command line, the key or the password is wrong
  3  memory ran out
  4  it can't be called, no whole reply came in time, or what came is no reply
     to what was asked: its key, session, number, type, length or status is
     another; or a file can't be read, or the output can't be written",
};

const TO_HELP: &str = "The server, by address or name";

const KEY_FILE_HELP: &str = "The file whose first line is the key";

const KEY_HELP: &str = "The key; other users of this machine see it";

const CLEAR_HELP: &str = "Send packets without a pad, as inside TLS";

const FROM_HELP: &str = "Where the user is, as 192.0.2.7: rem_addr";

const PORT_NAME_HELP: &str = "At which port of a device he is";

const TIMEOUT_HELP: &str = "How long all may take, 1 to 3600";

const TIMES_HELP: &str = "Print how long it took, too";

const LOGIN_ABOUT: &str = "Asks whether a user may log in, or be given a level";

const COMMAND_ABOUT: &str = "Asks whether a user may give a command line";

const SHELL_ABOUT: &str = "Asks whether a user gets a shell, and with what";

const SERVICE_ABOUT: &str = "Asks what a user is given for another service";

const RECORD_ABOUT: &str = "Sends an accounting record";

const USER_HELP: &str = "The user whom it is about";

const ASCII_HELP: &str = "The server asks for the password; the default";

const PAP_HELP: &str = "The password stands in the first packet";

const CHAP_HELP: &str = "The response to a challenge stands there";

const ENABLE_HELP: &str = "Ask for level 15, as 'enable' does";

const LINE_HELP: &str = "The words of the line, as a device sends them";

const NAME_HELP: &str = "The service, as 'ppp', or 'ppp/ip' with a protocol";

const ATTRIBUTE_HELP: &str = "An attribute to ask by, as 'cisco-av-pair*'";

const KIND_HELP: &str = "Whether a task begins, has ended, or goes on";

const RECORDED_HELP: &str = "The words of a line; without any it is a shell";

const TASK_HELP: &str = "The task; a stop has that of its start";

// Of whom something is asked.
fn user<'a>(alloc: Global) -> Arg<'a> {
    required(alloc, USER, USER_HELP)
}

fn login<'a>(alloc: Global) -> Result<Command<'a>, AllocError> {
    let method = ArgGroup::new(alloc, METHOD)
        .arg(ASCII)?
        .arg(PAP)?
        .arg(CHAP)?;
    Command::new(alloc, LOGIN)
        .about(LOGIN_ABOUT)
        .arg(flag(alloc, ASCII, ASCII_HELP))?
        .arg(flag(alloc, PAP, PAP_HELP))?
        .arg(flag(alloc, CHAP, CHAP_HELP))?
        .arg(flag(alloc, ENABLE, ENABLE_HELP))?
        .group(method)?
        .arg(user(alloc))
}

fn command<'a>(alloc: Global) -> Result<Command<'a>, AllocError> {
    Command::new(alloc, COMMAND)
        .about(COMMAND_ABOUT)
        .arg(user(alloc))?
        .arg(rest(alloc, WORD, LINE_HELP).num_args(1..).required(true))
}

fn shell<'a>(alloc: Global) -> Result<Command<'a>, AllocError> {
    Command::new(alloc, SHELL)
        .about(SHELL_ABOUT)
        .arg(user(alloc))
}

fn service<'a>(alloc: Global) -> Result<Command<'a>, AllocError> {
    Command::new(alloc, SERVICE)
        .about(SERVICE_ABOUT)
        .arg(user(alloc))?
        .arg(required(alloc, NAME, NAME_HELP))?
        .arg(rest(alloc, ATTRIBUTE, ATTRIBUTE_HELP))
}

fn accounting<'a>(alloc: Global) -> Result<Command<'a>, AllocError> {
    let kinds: &'static [&'static str] = &[START, STOP, WATCHDOG, UPDATE];
    Command::new(alloc, RECORD)
        .about(RECORD_ABOUT)
        .arg(text(alloc, TASK, "ID", TASK_HELP).default_value("1"))?
        .arg(required(alloc, KIND, KIND_HELP).value_parser(kinds))?
        .arg(user(alloc))?
        .arg(rest(alloc, WORD, RECORDED_HELP))
}

/// What the command line of `ask` may be.
pub(crate) fn ask_command<'a>(alloc: Global) -> Result<Command<'a>, AllocError> {
    let door = ArgGroup::new(alloc, DOOR)
        .arg(KEY_FILE)?
        .arg(KEY)?
        .arg(CLEAR)?
        .required(true);
    let seconds = (1, 3_600);
    with_page(alloc, ASK, ASK_PAGE)
        .subcommand_required(true)
        .arg(text(alloc, TO, "HOST[:PORT]", TO_HELP).default_value("127.0.0.1"))?
        .arg(text(alloc, KEY_FILE, "PATH", KEY_FILE_HELP))?
        .arg(text(alloc, KEY, "K", KEY_HELP))?
        .arg(flag(alloc, CLEAR, CLEAR_HELP))?
        .arg(text(alloc, FROM, "REM_ADDR", FROM_HELP))?
        .arg(text(alloc, PORT_NAME, "NAME", PORT_NAME_HELP).default_value("tty0"))?
        .arg(number(alloc, TIMEOUT, "SECONDS", seconds, TIMEOUT_HELP).default_value("5"))?
        .arg(flag(alloc, TIMES, TIMES_HELP))?
        .group(door)?
        .subcommand(login(alloc)?)?
        .subcommand(command(alloc)?)?
        .subcommand(shell(alloc)?)?
        .subcommand(service(alloc)?)?
        .subcommand(accounting(alloc)?)
}

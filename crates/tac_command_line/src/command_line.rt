//! The words that the program takes.

use crate::asking_line::ask_command;
use crate::help::{
    ABOUT, ADDRESS_HELP, AFTER_LONG_HELP, ASKED_HELP, AT_ONCE_HELP, CASES_HELP, CHECK_ALONE_HELP,
    CHECK_PAGE, CONNECTIONS_HELP, CONSOLE_OPTION_HELP, CONSOLE_PAGE, CONSOLE_PATH_HELP,
    DEVICES_FILE_HELP, DEVICES_HELP, DEVICES_LINT_HELP, DEVICES_PAGE, DIFF_PAGE, EDITS_HELP,
    EXIT_CODE_HELP, FAIL_DELAY_HELP, FILE_HELP, GIVEN_PAGE, GIVEN_USER_HELP, IDLE_HELP, INPUT_HELP,
    KEEP_EDITS_HELP, KEEP_RECORDS_HELP, KEY_FILE_HELP, KEY_HELP, LINE_HELP, LINT_PAGE, LOG_HELP,
    LOGIN_IDLE_HELP, LONG_ABOUT, NEW_HELP, NO_CONSOLE_HELP, OLD_HELP, PACKET_MEMORY_HELP,
    PER_ADDRESS_HELP, PORT_HELP, PROXY_HELP, Page, REPLAY_LOG_HELP, REPLAY_PAGE, ROTATE_AT_HELP,
    SERVE_PAGE, SERVICE_HELP, STATUS_HELP, SYNC_HELP, TEST_PAGE, TIME_HELP, USER_HELP,
    VERSION_ABOUT, WHY_PAGE, WORD_HELP, WORKERS_HELP,
};
use crate::importing_line::import_command;
use clap::{Arg, ArgAction, ArgGroup, ArgMatches, Command, value_parser};
use std::alloc::{AllocError, Global};

/// The word that asks for a server.
pub const SERVE: &str = "serve";

/// The word that asks for the replay of a script.
pub const REPLAY: &str = "replay";

/// The word that asks for a check.
pub const CHECK: &str = "check";

/// The word that asks for the version.
pub const VERSION_WORD: &str = "version";

/// The name of a policy's file that stands for standard input.
pub const INPUT_PATH: &str = "-";

/// The word that asks what a policy probably doesn't mean, and the option that asks it of devices.
pub const LINT: &str = "lint";

/// The word that asks what a new policy changes.
pub const DIFF: &str = "diff";

/// The word that asks how lines are decided.
pub const WHY: &str = "why";

/// The word that asks what a user is given for a service.
pub const GIVEN: &str = "given";

/// The word that asks whether cases are so.
pub const TEST: &str = "test";

/// The word that asks which devices may call.
pub const DEVICES: &str = "devices";

/// Which addresses are asked about.
pub const ADDRESSES: &str = "ADDRESS";

/// The file of a policy, or of devices.
pub const FILE: &str = "FILE";

/// The file of a policy.
pub const OLD: &str = "OLD";

/// That of another which is to take its place.
pub const NEW: &str = "NEW";

/// Whether edits are printed that make the new policy of the old one.
pub const EDITS: &str = "edits";

/// Whether the exit status tells of a change.
pub const EXIT_CODE: &str = "exit-code";

/// Whose line is asked about.
pub const USER: &str = "USER";

/// The words of the line.
pub const LINE: &str = "LINE";

/// Whether the exit status tells what a question is answered.
pub const STATUS: &str = "status";

/// Which service is asked about.
pub const SERVICE: &str = "SERVICE";

/// The file of cases.
pub const CASES: &str = "CASES";

/// The port that a server listens on.
pub const PORT: &str = "port";

/// The socket at which a proxy calls.
pub const PROXY: &str = "proxy";

/// The key that a server shares with its devices.
pub const KEY: &str = "key";

/// The file whose first line is that key.
pub const KEY_FILE: &str = "key-file";

/// The address at which a server listens.
pub const ADDRESS: &str = "address";

/// After how many seconds without a reply a connection is given up.
pub const IDLE: &str = "idle";

/// The same where the last reply asked for a name or a password.
pub const LOGIN_IDLE: &str = "login-idle";

/// For how many milliseconds the reply to a failed login is held back.
pub const FAIL_DELAY: &str = "fail-delay";

/// The most records that are kept, of a server that forgets the older half of them where one more
/// comes.
pub const KEEP_RECORDS: &str = "keep-records";

/// Before which call of a segment of the history the next one begins.
pub const ROTATE_AT: &str = "rotate-at";

/// The most calls of a segment.
pub const MAX_CALLS: u32 = 65_536;

/// The file that takes the lines of an auditor.
pub const LOG: &str = "log";

/// What the lines of a script tell as their time.
pub const TIME: &str = "time";

/// Whether such a line counts only once it is on the disk.
pub const SYNC: &str = "sync";

/// Whether the server has no console.
pub const NO_CONSOLE: &str = "no-console";

/// Whether a start is looked at alone.
pub const CHECK_ALONE: &str = "check";

/// The file of the devices that may call, each by its own key.
pub const DEVICES_FILE: &str = "devices";

// Where a server is called, by one of these options or by both.
const PLACE: &str = "place";

// Who may call by which key, by one of these options.
const SECRET: &str = "secret";

/// The socket at which operators type.
pub const CONSOLE: &str = "console";

/// The file that has the policy with the edits that were made there.
pub const KEEP_EDITS: &str = "keep-edits";

/// The socket of a client's server.
pub const CONSOLE_PATH: &str = "PATH";

/// The words that the client types.
pub const WORD: &str = "WORD";

/// How many threads serve connections.
pub const WORKERS: &str = "workers";

/// How many connections there may be at once.
pub const CONNECTIONS_AT_ONCE: &str = "connections-at-once";

/// How many of them may be of one address.
pub const PER_ADDRESS: &str = "per-address";

/// How many megabytes packets that aren't answered yet may take.
pub const PACKET_MEMORY: &str = "packet-memory";

/// How many connections each worker serves in all.
pub const CONNECTIONS: &str = "connections";

// An option of `serve` that is a number, within these bounds.
pub(crate) fn number<'a>(
    alloc: Global,
    id: &'a str,
    shown: &'a str,
    bounds: (i64, i64),
    help: &'a str,
) -> Arg<'a> {
    let (least, greatest) = bounds;
    Arg::new(alloc, id)
        .long(id)
        .value_name(shown)
        .value_parser(value_parser!(u32).range(least..=greatest))
        .help(help)
}

// An option that is a text.
pub(crate) fn text<'a>(alloc: Global, id: &'a str, shown: &'a str, help: &'a str) -> Arg<'a> {
    Arg::new(alloc, id).long(id).value_name(shown).help(help)
}

// An option that is given or not.
pub(crate) fn flag<'a>(alloc: Global, id: &'a str, help: &'a str) -> Arg<'a> {
    Arg::new(alloc, id)
        .long(id)
        .action(ArgAction::SetTrue)
        .help(help)
}

// A word that must be there.
pub(crate) fn required<'a>(alloc: Global, id: &'a str, help: &'a str) -> Arg<'a> {
    Arg::new(alloc, id).required(true).help(help)
}

// All words that are left, whatever they begin with.
pub(crate) fn rest<'a>(alloc: Global, id: &'a str, help: &'a str) -> Arg<'a> {
    Arg::new(alloc, id)
        .num_args(0..)
        .trailing_var_arg(true)
        .allow_hyphen_values(true)
        .help(help)
}

// A command with its help.
pub(crate) fn with_page<'a>(alloc: Global, name: &'a str, page: Page) -> Command<'a> {
    Command::new(alloc, name)
        .about(page.about)
        .long_about(page.long_about)
        .after_help(page.after_help)
        .after_long_help(page.after_long_help)
}

// How many connections a server serves, and for how long.
fn with_limits<'a>(alloc: Global, command: Command<'a>) -> Result<Command<'a>, AllocError> {
    let at_once = (1, 1_000_000);
    let each = (0, 1_000_000);
    let megabytes = (1, 65_536);
    let seconds = (0, 86_400);
    let milliseconds = (0, 3_000);
    command
        .arg(number(alloc, WORKERS, "W", (1, 63), WORKERS_HELP))?
        .arg(number(alloc, CONNECTIONS_AT_ONCE, "N", at_once, AT_ONCE_HELP).default_value("10000"))?
        .arg(number(alloc, PER_ADDRESS, "N", each, PER_ADDRESS_HELP).default_value("64"))?
        .arg(number(alloc, PACKET_MEMORY, "MB", megabytes, PACKET_MEMORY_HELP).default_value("64"))?
        .arg(number(alloc, IDLE, "SECONDS", seconds, IDLE_HELP).default_value("300"))?
        .arg(number(alloc, LOGIN_IDLE, "SECONDS", seconds, LOGIN_IDLE_HELP).default_value("60"))?
        .arg(number(
            alloc,
            FAIL_DELAY,
            "MILLISECONDS",
            milliseconds,
            FAIL_DELAY_HELP,
        )
        .default_value("0"))
}

// A proxy's devices are those of a file.
fn proxy<'a>(alloc: Global) -> Result<Arg<'a>, AllocError> {
    text(alloc, PROXY, "PATH", PROXY_HELP)
        .requires_arg(DEVICES_FILE)?
        .conflicts_with(KEY)?
        .conflicts_with(KEY_FILE)
}

// The options of a server, in the order of its help.
fn with_options<'a>(alloc: Global, command: Command<'a>) -> Result<Command<'a>, AllocError> {
    let connections = (1, 4_294_967_295);
    let records = (1_000, 10_000_000);
    let calls = (1, i64::from(MAX_CALLS));
    let command = command
        .arg(number(alloc, PORT, "P", (1, 65_535), PORT_HELP))?
        .arg(proxy(alloc)?)?
        .arg(text(alloc, KEY, "K", KEY_HELP))?
        .arg(text(alloc, KEY_FILE, "PATH", KEY_FILE_HELP))?
        .arg(text(alloc, DEVICES_FILE, "PATH", DEVICES_FILE_HELP))?
        .arg(text(alloc, ADDRESS, "ADDR", ADDRESS_HELP).default_value("0.0.0.0"))?;
    with_limits(alloc, command)?
        .arg(number(alloc, KEEP_RECORDS, "N", records, KEEP_RECORDS_HELP))?
        .arg(text(alloc, LOG, "PATH", LOG_HELP))?
        .arg(flag(alloc, SYNC, SYNC_HELP).requires_arg(LOG)?)?
        .arg(text(alloc, CONSOLE, "PATH", CONSOLE_OPTION_HELP))?
        .arg(text(alloc, KEEP_EDITS, "PATH", KEEP_EDITS_HELP).requires_arg(CONSOLE)?)?
        .arg(flag(alloc, NO_CONSOLE, NO_CONSOLE_HELP).conflicts_with(CONSOLE)?)?
        .arg(flag(alloc, CHECK_ALONE, CHECK_ALONE_HELP))?
        .arg(number(alloc, ROTATE_AT, "N", calls, ROTATE_AT_HELP).default_value("32768"))?
        .arg(number(alloc, CONNECTIONS, "N", connections, CONNECTIONS_HELP).default_value(
            "4294967295",
        ))
}

fn serve<'a>(alloc: Global) -> Result<Command<'a>, AllocError> {
    let secret = ArgGroup::new(alloc, SECRET)
        .arg(KEY)?
        .arg(KEY_FILE)?
        .arg(DEVICES_FILE)?
        .required(true);
    let place = ArgGroup::new(alloc, PLACE)
        .arg(PORT)?
        .arg(PROXY)?
        .multiple(true)
        .required(true);
    let command = with_page(alloc, SERVE, SERVE_PAGE);
    with_options(alloc, command)?
        .group(place)?
        .group(secret)?
        .arg(required(alloc, FILE, FILE_HELP))
}

fn check<'a>(alloc: Global) -> Result<Command<'a>, AllocError> {
    with_page(alloc, CHECK, CHECK_PAGE).arg(required(alloc, FILE, INPUT_HELP))
}

fn lint<'a>(alloc: Global) -> Result<Command<'a>, AllocError> {
    with_page(alloc, LINT, LINT_PAGE).arg(required(alloc, FILE, INPUT_HELP))
}

fn diff<'a>(alloc: Global) -> Result<Command<'a>, AllocError> {
    with_page(alloc, DIFF, DIFF_PAGE)
        .arg(flag(alloc, EDITS, EDITS_HELP))?
        .arg(flag(alloc, EXIT_CODE, EXIT_CODE_HELP))?
        .arg(required(alloc, OLD, OLD_HELP))?
        .arg(required(alloc, NEW, NEW_HELP))
}

fn why<'a>(alloc: Global) -> Result<Command<'a>, AllocError> {
    with_page(alloc, WHY, WHY_PAGE)
        .arg(flag(alloc, STATUS, STATUS_HELP).requires_arg(USER)?)?
        .arg(required(alloc, FILE, FILE_HELP))?
        .arg(Arg::new(alloc, USER).help(USER_HELP))?
        .arg(rest(alloc, LINE, LINE_HELP))
}

fn given<'a>(alloc: Global) -> Result<Command<'a>, AllocError> {
    with_page(alloc, GIVEN, GIVEN_PAGE)
        .arg(flag(alloc, STATUS, STATUS_HELP))?
        .arg(required(alloc, FILE, FILE_HELP))?
        .arg(required(alloc, USER, GIVEN_USER_HELP))?
        .arg(required(alloc, SERVICE, SERVICE_HELP))
}

fn test<'a>(alloc: Global) -> Result<Command<'a>, AllocError> {
    with_page(alloc, TEST, TEST_PAGE)
        .arg(required(alloc, FILE, FILE_HELP))?
        .arg(required(alloc, CASES, CASES_HELP))
}

fn devices<'a>(alloc: Global) -> Result<Command<'a>, AllocError> {
    with_page(alloc, DEVICES, DEVICES_PAGE)
        .arg(flag(alloc, LINT, DEVICES_LINT_HELP).conflicts_with(ADDRESSES)?)?
        .arg(required(alloc, FILE, DEVICES_HELP))?
        .arg(Arg::new(alloc, ADDRESSES).num_args(0..).help(ASKED_HELP))
}

fn replay<'a>(alloc: Global) -> Result<Command<'a>, AllocError> {
    with_page(alloc, REPLAY, REPLAY_PAGE)
        .arg(text(alloc, LOG, "PATH", REPLAY_LOG_HELP))?
        .arg(text(alloc, TIME, "TEXT", TIME_HELP).requires_arg(LOG)?)
}

fn console<'a>(alloc: Global) -> Result<Command<'a>, AllocError> {
    with_page(alloc, CONSOLE, CONSOLE_PAGE)
        .arg(required(alloc, CONSOLE_PATH, CONSOLE_PATH_HELP))?
        .arg(rest(alloc, WORD, WORD_HELP))
}

fn version<'a>(alloc: Global) -> Command<'a> {
    Command::new(alloc, VERSION_WORD).about(VERSION_ABOUT)
}

// The command with one more below it.
fn with<'a>(
    command: Command<'a>,
    subcommand: Result<Command<'a>, AllocError>,
) -> Result<Command<'a>, AllocError> {
    command.subcommand(subcommand?)
}

/// The word of an argument that is required or has a default: any command line that is parsed has
/// it.
pub fn word_of<'a>(matches: &ArgMatches<'a>, id: &str) -> &'a str {
    matches.get_str(id).unwrap_or("")
}

/// The version of the program.
pub const VERSION: &str = "0.22.0";

/// What the program's command line may be.
pub fn command<'a>(alloc: Global) -> Result<Command<'a>, AllocError> {
    let command = Command::new(alloc, "tacd")
        .about(ABOUT)
        .long_about(LONG_ABOUT)
        .after_long_help(AFTER_LONG_HELP)
        .version(VERSION)
        .subcommand_required(true);
    let command = with(command, serve(alloc))?;
    let command = with(command, console(alloc))?;
    let command = with(command, ask_command(alloc))?;
    let command = with(command, check(alloc))?;
    let command = with(command, lint(alloc))?;
    let command = with(command, diff(alloc))?;
    let command = with(command, why(alloc))?;
    let command = with(command, given(alloc))?;
    let command = with(command, test(alloc))?;
    let command = with(command, devices(alloc))?;
    let command = with(command, import_command(alloc))?;
    let command = with(command, replay(alloc))?;
    command.subcommand(version(alloc))
}

//! An operator's end of a console's socket.

use clap::ArgMatches;
use std::net::Net;
use std::rt::Env;
use std::time::Clock;
use tac_command_line::{CONSOLE_PATH, WORD, word_of};
use tac_console_client::{ClientEnd, type_lines};
use tac_operators::ConsoleHost;
use tac_run::Status;

/// Types at the console of a server, and prints what is answered.
pub fn type_at_console<R, H>(rt: &R, host: &H, matches: &ArgMatches<'_>) -> Status
where
    R: Env + Input + Print + Eprint + AllocGlobal,
    H: Net + Clock + AllocGlobal + ConsoleHost,
{
    let path = word_of(matches, CONSOLE_PATH);
    let words = matches.get_strs(WORD).unwrap_or(&[]);
    match type_lines(rt, host, path, words) {
        ClientEnd::Answered(heard) => Status::of_heard(heard),
        ClientEnd::BadWord => Status::BadCommandLine,
        ClientEnd::Failed(kind) => Status::of_unopened(kind),
    }
}

//! A client of any TACACS+ server: what it asks, and how the answer is told.
//!
//! Each fault is said on standard error. The status tells it too, so it doesn't matter whether that
//! could be written.

use crate::server_address::{ServerAddress, address_of, connect};
use basics::{Bytes, Sequence, send, split_once};
use clap::ArgMatches;
use std::alloc::{AllocError, Global};
use std::fs;
use std::io::{self, Read, Write};
use std::net::{Net, TcpListener, TcpStream};
use std::rt::Files;
use std::time::{Clock, Duration};
use tac_ask::{
    AskFault, Asked, Client, LEVEL_ROOT, LEVEL_USER, Login, Method, ReplyFields, Timed, UserAt,
    answer_line, command_arguments, is_granted, login_start, record_arguments, request_about,
    service_arguments, status_name,
};
use tac_command_line::asking_line::{
    ATTRIBUTE, CHAP, CLEAR, COMMAND, ENABLE, FROM, KIND, LOGIN, NAME, PAP, PORT_NAME, RECORD,
    SERVICE, SHELL, START, STOP, TASK, TIMEOUT, TIMES, TO, WATCHDOG,
};
use tac_command_line::{KEY, KEY_FILE, USER, WORD, word_of};
use tac_io::{InputFault, read_piece};
use tac_operators::ConsoleHost;
use tac_run::{Status, key_of, out_of_memory};
use tac_wire::{Door, PacketType};

/// The longest password that a packet has.
const MAX_PASSWORD: usize = 65_535;

/// What gives random bytes.
const RANDOM: &str = "/dev/urandom";

/// The flags of records (RFC 8907, section 7.1): that a task begins, has ended, and goes on. With an
/// update, one that goes on has that of a beginning too.
const FLAG_START: u8 = 0x02;

const FLAG_STOP: u8 = 0x04;

const FLAG_WATCHDOG: u8 = 0x08;

/// Why there is no answer.
#[derive(Drop)]
enum Unanswered {
    /// It could not be called.
    Uncalled(io::Error),
    /// It gave no answer.
    Fault(AskFault),
}

// Which server is asked.
fn server_address<'a, R: Eprint>(
    rt: &R,
    matches: &ArgMatches<'a>,
) -> Result<ServerAddress<'a>, Status> {
    let word = word_of(matches, TO);
    match address_of(word) {
        Some(address) => Ok(address),
        None => {
            let _ = eprintln!(rt;
                "error: invalid value '{word}' for '--to <HOST[:PORT]>': it is no host and port

For more information, try '--help'."
            );
            Err(Status::BadCommandLine)
        }
    }
}

// How packets travel.
fn door<R: Files + Eprint + AllocGlobal>(rt: &R, matches: &ArgMatches<'_>) -> Result<Door, Status> {
    if matches.get_flag(CLEAR) {
        return Ok(Door::Clear);
    }
    let key = key_of(rt, matches.get_str(KEY), matches.get_str(KEY_FILE))?;
    Ok(Door::Padded(key))
}

// The first line of an input, without its end. Nothing after it is read.
fn first_line<I: Read>(alloc: Global, input: &mut I) -> Result<Vec<u8>, InputFault> {
    let mut line = Vec::new(alloc);
    let mut byte = [0];
    for _ in 0..u64::MAX {
        let Some(n) = read_piece(input, &mut byte)? else {
            continue;
        };
        if n == 0 || byte[0] == b'\n' {
            break;
        }
        if line.len() >= MAX_PASSWORD {
            return Err(InputFault::TooLong);
        }
        line.push(byte[0])?;
    }
    if line.last() == Some(&b'\r') {
        line.pop();
    }
    Ok(line)
}

// The password of a login, which standard input has.
fn password<R, H>(rt: &R, host: &H, matches: &ArgMatches<'_>) -> Result<Vec<u8>, Status>
where
    R: Input + Eprint + AllocGlobal,
    H: ConsoleHost,
{
    if matches.subcommand_matches(LOGIN).is_none() {
        return Ok(Vec::new(rt.alloc()));
    }
    if host.is_terminal() {
        let _ = eprint!(rt; "password (it is shown as you type it): ");
    }
    match first_line(rt.alloc(), &mut rt.reader()) {
        Ok(line) => Ok(line),
        Err(InputFault::Memory) => Err(out_of_memory(rt)),
        Err(InputFault::TooLong) => {
            let _ = eprintln!(rt; "tacd: the password is over {MAX_PASSWORD} bytes long");
            Err(Status::BadCommandLine)
        }
        Err(InputFault::Failed) => {
            let _ = eprintln!(rt; "tacd: the password could not be read");
            Err(Status::Failed)
        }
    }
}

fn fill<R: Files>(rt: &R, bytes: &mut [u8]) -> io::Result<()> {
    let file = fs::open(rt, RANDOM)?;
    let mut file = file;
    file.read_exact(bytes)
}

// Makes these bytes random.
fn randomise<R: Files + Eprint>(rt: &R, bytes: &mut [u8]) -> Result<(), Status> {
    match fill(rt, bytes) {
        Ok(()) => Ok(()),
        Err(error) => {
            let _ = eprintln!(rt; "tacd: {RANDOM}: {error}");
            Err(Status::Failed)
        }
    }
}

// The number of a session, which no two are to share.
fn random_session<R: Files + Eprint>(rt: &R) -> Result<u32, Status> {
    let mut bytes = [0; 4];
    randomise(rt, &mut bytes)?;
    Ok(u32::from_be_bytes(bytes))
}

// How the password is shown.
fn method<R: Files + Eprint>(rt: &R, options: &ArgMatches<'_>) -> Result<Method, Status> {
    if options.get_flag(PAP) {
        return Ok(Method::Pap);
    }
    if options.get_flag(CHAP) {
        let mut id = [0];
        randomise(rt, &mut id)?;
        let mut challenge = [0; 16];
        randomise(rt, &mut challenge)?;
        return Ok(Method::Chap {
            id: id[0],
            challenge,
        });
    }
    Ok(Method::Ascii)
}

// Of whom it is asked, and where that user is.
fn user_at(
    alloc: Global,
    matches: &ArgMatches<'_>,
    options: &ArgMatches<'_>,
) -> Result<UserAt, AllocError> {
    let user = Bytes::from_slice(alloc, word_of(options, USER).as_bytes())?;
    let port = Bytes::from_slice(alloc, word_of(matches, PORT_NAME).as_bytes())?;
    let rem_addr = Bytes::from_slice(alloc, word_of(matches, FROM).as_bytes())?;
    Ok(UserAt {
        user,
        port,
        rem_addr,
    })
}

// The words of an argument.
fn texts(alloc: Global, options: &ArgMatches<'_>, id: &str) -> Result<Sequence<Bytes>, AllocError> {
    let mut texts = Sequence::new(alloc);
    for word in options.get_strs(id).unwrap_or(&[]) {
        texts.push(Bytes::from_slice(alloc, word.as_bytes())?)?;
    }
    Ok(texts)
}

// The flags of a record of this kind.
fn flags(kind: &str) -> u8 {
    if kind == START {
        FLAG_START
    } else if kind == STOP {
        FLAG_STOP
    } else if kind == WATCHDOG {
        FLAG_WATCHDOG
    } else {
        FLAG_WATCHDOG | FLAG_START
    }
}

// The arguments by which a line is asked about.
fn command(alloc: Global, options: &ArgMatches<'_>) -> Result<Sequence<Bytes>, AllocError> {
    let words = texts(alloc, options, WORD)?;
    command_arguments(alloc, words.as_slice())
}

// The arguments by which a service is asked for: its name, and the protocol after a slash.
fn service(alloc: Global, options: &ArgMatches<'_>) -> Result<Sequence<Bytes>, AllocError> {
    let name = word_of(options, NAME).as_bytes();
    let attributes = texts(alloc, options, ATTRIBUTE)?;
    match split_once(name, b'/') {
        Some((service, protocol)) => {
            service_arguments(alloc, service, Some(protocol), attributes.as_slice())
        }
        None => service_arguments(alloc, name, None, attributes.as_slice()),
    }
}

// What is asked by these arguments, of a user who is at this level.
fn authorisation(
    alloc: Global,
    matches: &ArgMatches<'_>,
    options: &ArgMatches<'_>,
    level: u8,
    args: Sequence<Bytes>,
) -> Result<Option<Asked>, AllocError> {
    let at = user_at(alloc, matches, options)?;
    Ok(Some(Asked::Authorisation(request_about(at, level, args))))
}

// What is asked, but for logins.
fn request(alloc: Global, matches: &ArgMatches<'_>) -> Result<Option<Asked>, AllocError> {
    if let Some(options) = matches.subcommand_matches(COMMAND) {
        let args = command(alloc, options)?;
        return authorisation(alloc, matches, options, LEVEL_ROOT, args);
    }
    if let Some(options) = matches.subcommand_matches(SHELL) {
        let args = command_arguments(alloc, &[])?;
        return authorisation(alloc, matches, options, LEVEL_USER, args);
    }
    if let Some(options) = matches.subcommand_matches(SERVICE) {
        let args = service(alloc, options)?;
        return authorisation(alloc, matches, options, LEVEL_USER, args);
    }
    accounting(alloc, matches)
}

// A record, if one is to be sent.
fn accounting(alloc: Global, matches: &ArgMatches<'_>) -> Result<Option<Asked>, AllocError> {
    let Some(options) = matches.subcommand_matches(RECORD) else {
        return Ok(None);
    };
    let at = user_at(alloc, matches, options)?;
    let words = texts(alloc, options, WORD)?;
    let task = word_of(options, TASK).as_bytes();
    let args = record_arguments(alloc, task, words.as_slice())?;
    Ok(Some(Asked::Accounting {
        flags: flags(word_of(options, KIND)),
        request: request_about(at, LEVEL_ROOT, args),
    }))
}

// A login by this password.
fn login(
    alloc: Global,
    matches: &ArgMatches<'_>,
    options: &ArgMatches<'_>,
    login: Login,
) -> Result<Option<Asked>, AllocError> {
    let at = user_at(alloc, matches, options)?;
    let start = login_start(alloc, at, &login)?;
    Ok(Some(Asked::Login { start, login }))
}

// What is asked. A login shows this password.
fn asked<R>(rt: &R, matches: &ArgMatches<'_>, password: Bytes) -> Result<Asked, Status>
where
    R: Files + Eprint + AllocGlobal,
{
    let built = match matches.subcommand_matches(LOGIN) {
        Some(options) => {
            let typed = Login {
                method: method(rt, options)?,
                is_enable: options.get_flag(ENABLE),
                password,
            };
            login(rt.alloc(), matches, options, typed)
        }
        None => request(rt.alloc(), matches),
    };
    match built {
        Ok(Some(asked)) => Ok(asked),
        Ok(None) => Err(Status::BadCommandLine),
        Err(_) => Err(out_of_memory(rt)),
    }
}

// Calls the server, and asks it.
fn exchange<R, H>(
    rt: &R,
    host: &H,
    address: ServerAddress<'_>,
    door: Door,
    session: u32,
    asked: &Asked,
    until: Duration,
) -> Result<ReplyFields, Unanswered>
where
    R: AllocGlobal,
    H: Clock + Drop + Net<Listener = TcpListener, Stream = TcpStream>,
{
    let stream = match connect(host, address, until) {
        Ok(stream) => stream,
        Err(error) => return Err(Unanswered::Uncalled(error)),
    };
    // It matters only to how long it takes.
    let _ = stream.set_nodelay(true);
    let reader = Timed::new(host, &stream, until);
    let writer = Timed::new(host, &stream, until);
    let mut client = Client::new(rt.alloc(), door, reader, writer);
    match client.ask(session, asked) {
        Ok(reply) => Ok(reply),
        Err(fault) => Err(Unanswered::Fault(fault)),
    }
}

// Says why there is no answer, and gives the status to end with.
fn tell_why<R: Eprint>(rt: &R, to: &str, unanswered: &Unanswered) -> Status {
    match unanswered {
        Unanswered::Uncalled(error) => {
            let _ = eprintln!(rt; "tacd: {to}: {error}");
            Status::of_unopened(error.kind())
        }
        Unanswered::Fault(AskFault::Memory) => out_of_memory(rt),
        Unanswered::Fault(AskFault::Unsendable) => {
            let fault = AskFault::Unsendable;
            let _ = eprintln!(rt; "error: {fault}");
            Status::BadCommandLine
        }
        Unanswered::Fault(fault) => {
            let _ = eprintln!(rt; "tacd: {to}: {fault}");
            Status::Failed
        }
    }
}

// Adds the line that tells how long it took.
fn add_time(line: &mut Vec<u8>, took: Duration) -> io::Result<()> {
    let millis = took
        .as_secs()
        .saturating_mul(1000)
        .saturating_add(u64::from(took.subsec_millis()));
    let micros = took.subsec_micros() % 1000;
    writeln!(line, "took {millis}.{micros:03} ms")
}

// The lines that tell the answer, and how long it took, if that is wanted.
fn answer(
    alloc: Global,
    kind: PacketType,
    reply: &ReplyFields,
    took: Option<Duration>,
) -> io::Result<Vec<u8>> {
    let name = status_name(kind, reply.status).unwrap_or("");
    let mut lines = answer_line(alloc, name, reply)?;
    if let Some(took) = took {
        add_time(&mut lines, took)?;
    }
    Ok(lines)
}

// Prints the answer, and gives the status to end with.
fn print_answer<R: Print + Eprint + AllocGlobal>(
    rt: &R,
    kind: PacketType,
    reply: &ReplyFields,
    took: Option<Duration>,
) -> Status {
    let lines = match answer(rt.alloc(), kind, reply, took) {
        Ok(lines) => lines,
        Err(_) => return out_of_memory(rt),
    };
    let (_, sent) = send(&mut io::writer(rt), lines.as_slice());
    if sent.is_err() {
        let _ = eprintln!(rt; "tacd: the output could not be written");
        return Status::Failed;
    }
    if is_granted(kind, reply.status) {
        Status::Done
    } else {
        Status::Refused
    }
}

// The present moment.
fn now<R: Eprint, H: Clock>(rt: &R, host: &H) -> Result<Duration, Status> {
    match host.monotonic() {
        Ok(now) => Ok(now),
        Err(error) => {
            let _ = eprintln!(rt; "tacd: the clock could not be read: {error}");
            Err(Status::Failed)
        }
    }
}

fn ask_server<R, H>(rt: &R, host: &H, matches: &ArgMatches<'_>) -> Result<Status, Status>
where
    R: Files + Input + Print + Eprint + AllocGlobal,
    H: Clock + ConsoleHost + Drop + Net<Listener = TcpListener, Stream = TcpStream>,
{
    let address = server_address(rt, matches)?;
    let door = door(rt, matches)?;
    let password = password(rt, host, matches)?;
    let asked = asked(rt, matches, Bytes::from(password))?;
    let session = random_session(rt)?;
    let seconds = matches.get_one::<u32>(TIMEOUT).unwrap_or(1);
    let begun = now(rt, host)?;
    let until = begun.saturating_add(Duration::from_secs(u64::from(seconds)));
    let reply = match exchange(rt, host, address, door, session, &asked, until) {
        Ok(reply) => reply,
        Err(unanswered) => return Err(tell_why(rt, word_of(matches, TO), &unanswered)),
    };
    let took = now(rt, host)?.saturating_sub(begun);
    let told = if matches.get_flag(TIMES) {
        Some(took)
    } else {
        None
    };
    Ok(print_answer(rt, asked.kind(), &reply, told))
}

/// Asks a server, and prints its answer.
pub fn ask<R, H>(rt: &R, host: &H, matches: &ArgMatches<'_>) -> Status
where
    R: Files + Input + Print + Eprint + AllocGlobal,
    H: Clock + ConsoleHost + Drop + Net<Listener = TcpListener, Stream = TcpStream>,
{
    match ask_server(rt, host, matches) {
        Ok(status) => status,
        Err(status) => status,
    }
}

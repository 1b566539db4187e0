//! The lines that are written of events, of what is typed, and of connections that were refused.

ghost use Rattle.std.specs.Prelude.{◌≡◌, ◌++◌, List, ℕ, Option, Some, is_some, IfOk, OnOk};
ghost use Rattle.std.specs.Option.{option_copied, option_map};
ghost use Rattle.tac_audit.specs.Json as json;
ghost use Rattle.tac_audit.specs.Event as lines;
ghost use Rattle.tac_audit.specs.Apart.{AreApart, AreTypedApart, AreTurnedAwayApart, IsOther};
ghost use Rattle.tac_authen.specs.declared.start.Start.{Start as StartValue};
ghost use Rattle.tac_authen.specs.declared.continuation.Continue.{Continue as ContinueValue};
ghost use Rattle.tac_conn.specs.declared.reading.Asker.{Asker as AskerValue};
ghost use Rattle.tac_conn.specs.declared.reading.Reading.TheVariants as readings;
ghost use Rattle.tac_conn.specs.Reading.{start_as, answer_as};
ghost use Rattle.tac_audit.specs.Noted.{noted, noted_of, bad_header, AddsTold, AddsLine};
ghost use Rattle.tac_audit.specs.Telling.{told_as};
ghost use Rattle.tac_audit.specs.Told as told;
ghost use Rattle.tac_audit.specs.Told.{Event as EventValue};
ghost use Rattle.tac_audit.specs.declared.event.Said.{Said as SaidValue};
ghost use Rattle.tac_audit.specs.declared.event.Typed.{Typed as TypedValue};
ghost use Rattle.tac_audit.specs.declared.event.TurnedAway.{TurnedAway as TurnedAwayValue};

use crate::event::{
    CameBy, Named, Origin, Said, Status, TurnedAway, Typed, Typist, Why, WhyTurnedAway,
};
use crate::json::{hex_digit, write_list, write_member, write_number, write_optional, write_text};
use crate::notice::Notice;
use crate::telling::said_in;
use basics::Bytes;
use std::alloc::{AllocError, Global};
use std::io;
use tac_conn::{Asker, Reading, Received};
use tac_request::AcctKind;
use tac_wire::Header;

// ---- words

fn status_word(status: Status) -> &'static [u8]
    ensures { result.now ≡ lines.status_word status }
{
    match status {
        Status::Pass => b"PASS",
        Status::Fail => b"FAIL",
        Status::PassAdd => b"PASS_ADD",
        Status::Success => b"SUCCESS",
        Status::Error => b"ERROR",
    }
}

fn why_word(why: Why) -> &'static [u8]
    ensures { result.now ≡ lines.why_word why }
{
    match why {
        Why::BadBody => b"bad body",
        Why::UnservedType => b"unserved type",
        Why::OutOfTurn => b"out of turn",
        Why::Aborted => b"aborted",
        Why::BadHeader => b"bad header",
    }
}

fn turned_away_word(why: WhyTurnedAway) -> &'static [u8]
    ensures { result.now ≡ lines.turned_away_word why }
{
    match why {
        WhyTurnedAway::UnknownDevice => b"unknown device",
        WhyTurnedAway::NoKey => b"no key",
        WhyTurnedAway::NoTls => b"no tls",
        WhyTurnedAway::NoCertificate => b"no certificate",
        WhyTurnedAway::OtherCertificate => b"other certificate",
        WhyTurnedAway::BadProxyHeader => b"bad proxy header",
        WhyTurnedAway::TooManyConnections => b"too many connections",
    }
}

fn kind_word(kind: AcctKind) -> &'static [u8]
    ensures { result.now ≡ lines.kind_word kind }
{
    match kind {
        AcctKind::Begin => b"start",
        AcctKind::Stop => b"stop",
        AcctKind::Watch => b"watchdog",
        AcctKind::Update => b"update",
    }
}

#[tactic(auto, unfolding(crate::specs::Event::session_digits))]
fn session_digits(session: u32) -> [u8; 8]
    ensures { result ≡ lines.session_digits session }
{
    let [a, b, c, d] = session.to_be_bytes();
    [
        hex_digit(a / 16),
        hex_digit(a % 16),
        hex_digit(b / 16),
        hex_digit(b % 16),
        hex_digit(c / 16),
        hex_digit(c % 16),
        hex_digit(d / 16),
        hex_digit(d % 16),
    ]
}

// ---- members

const TLS: &[u8] = b"tls";

// How a device came, where it isn't by its key.
fn write_came_by(out: &mut Vec<u8>, came_by: CameBy) -> Result<(), AllocError>
    ensures { OnOk result (out.new.items ≡ out.old.items ++ lines.came_by_json came_by) }
{
    match came_by {
        CameBy::Key => Ok(()),
        CameBy::OldKey => write_member(out, b"key", b"old"),
        CameBy::Tls(Some(name)) => write_optional(out, TLS, Some(name.as_slice())),
        CameBy::Tls(None) => write_optional(out, TLS, None),
    }
}

// What a devices' file says of a device.
fn write_named(out: &mut Vec<u8>, named: Option<Named>) -> Result<(), AllocError>
    ensures { OnOk result (out.new.items ≡ out.old.items ++ lines.named_json named) }
{
    match named {
        Some(named) => {
            write_member(out, b"name", named.name.as_slice())?;
            write_came_by(out, named.came_by)
        }
        None => Ok(()),
    }
}

#[tactic(auto, unfolding(crate::specs::Event::origin_json))]
fn write_origin(out: &mut Vec<u8>, origin: &Origin) -> Result<(), AllocError>
    ensures { OnOk result (out.new.items ≡ out.old.items ++ lines.origin_json origin.now) }
{
    write_member(out, b"device", origin.device.as_slice())?;
    write_named(out, origin.named)
}

#[tactic(auto, unfolding(crate::specs::Event::asker_json))]
fn write_asker(out: &mut Vec<u8>, asker: &Asker) -> io::Result<()>
    ensures { OnOk result (out.new.items ≡ out.old.items ++ lines.asker_json asker.now) }
{
    write_member(out, b"user", asker.user.as_slice())?;
    write_member(out, b"port", asker.port.as_slice())?;
    write_member(out, b"from", asker.from.as_slice())?;
    write_number(out, b"privilege", u64::from(asker.privilege))?;
    write_number(out, b"service", u64::from(asker.service))
}

// The arguments of the reply, where it has some.
fn write_given(out: &mut Vec<u8>, given: &[Bytes]) -> Result<(), AllocError>
    ensures { OnOk result (out.new.items ≡ out.old.items ++ lines.given_json given.now) }
{
    match given {
        [] => Ok(()),
        _ => write_list(out, b"given", given),
    }
}

#[tactic(auto, unfolding(crate::specs::Event::said_json))]
fn write_said(out: &mut Vec<u8>, said: &Said) -> io::Result<()>
    ensures { OnOk result (out.new.items ≡ out.old.items ++ lines.said_json said.now) }
{
    write_member(out, b"status", status_word(said.status))?;
    write_member(out, b"text", said.text.as_slice())?;
    write_given(out, said.given.as_slice())?;
    Ok(())
}

// A text, where there is one.
fn write_owned(out: &mut Vec<u8>, name: &[u8], text: &Option<Bytes>) -> Result<(), AllocError>
    ensures { OnOk result (out.new.items
        ≡ out.old.items ++ json.member name.now (json.optional_json text.now)) }
{
    match text {
        Some(text) => write_optional(out, name, Some(text.as_slice())),
        None => write_optional(out, name, None),
    }
}

const LINE: &[u8] = b"line";

// The word of a kind, where there is one.
fn write_kind(out: &mut Vec<u8>, kind: Option<AcctKind>) -> Result<(), AllocError>
    ensures { OnOk result (out.new.items
        ≡ out.old.items ++ json.member KIND.now
        (json.optional_json (option_map lines.kind_word kind))) }
{
    match kind {
        Some(kind) => write_optional(out, KIND, Some(kind_word(kind))),
        None => write_optional(out, KIND, None),
    }
}

const KIND: &[u8] = b"kind";

// The type, and who asks.
#[tactic(auto, unfolding(crate::specs::Event::type_json))]
fn write_request(out: &mut Vec<u8>, word: &[u8], asker: &Asker) -> io::Result<()>
    ensures { OnOk result (out.new.items
        ≡ out.old.items ++ (lines.type_json word.now ++ lines.asker_json asker.now)) }
{
    write_member(out, b"type", word)?;
    write_asker(out, asker)
}

fn write_command(
    out: &mut Vec<u8>,
    asker: &Asker,
    arguments: &[Bytes],
    line: &Option<Bytes>,
    said: &Said,
) -> io::Result<()>
    ensures { OnOk result (out.new.items ≡ out.old.items
        ++ lines.told_json (told.Command asker.now arguments.now line.now said.now)) }
{
    write_request(out, b"command", asker)?;
    write_list(out, b"arguments", arguments)?;
    write_owned(out, LINE, line)?;
    write_said(out, said)
}

fn write_account(
    out: &mut Vec<u8>,
    asker: &Asker,
    kind: Option<AcctKind>,
    task: &[u8],
    arguments: &[Bytes],
    said: &Said,
) -> io::Result<()>
    ensures { OnOk result (out.new.items ≡ out.old.items
        ++ lines.told_json (told.Account asker.now kind task.now arguments.now said.now)) }
{
    write_request(out, b"account", asker)?;
    write_kind(out, kind)?;
    write_member(out, b"task", task)?;
    write_list(out, b"arguments", arguments)?;
    write_said(out, said)
}

fn write_login(out: &mut Vec<u8>, asker: &Asker, said: &Said) -> io::Result<()>
    ensures { OnOk result
        (out.new.items ≡ out.old.items ++ lines.told_json (told.Login asker.now said.now)) }
{
    write_request(out, b"login", asker)?;
    write_said(out, said)
}

#[tactic(auto, unfolding(crate::specs::Event::type_json))]
fn write_refused(out: &mut Vec<u8>, why: Why) -> io::Result<()>
    ensures { OnOk result (out.new.items ≡ out.old.items ++ lines.told_json (told.Refused why)) }
{
    write_member(out, b"type", b"refused")?;
    write_member(out, b"why", why_word(why))?;
    Ok(())
}

// What is told of a command, where its reply is a last one.
fn write_if_command(
    out: &mut Vec<u8>,
    asker: &Asker,
    arguments: &[Bytes],
    line: &Option<Bytes>,
    said: &Option<Said>,
) -> io::Result<()>
    ensures { OnOk result (AddsTold out.old.items out.new.items
        (told_as (readings.Command asker.now arguments.now line.now) said.now)) }
{
    match said {
        Some(said) => write_command(out, asker, arguments, line, said),
        None => Ok(()),
    }
}

// What is told of a record, where its reply is a last one.
fn write_if_account(
    out: &mut Vec<u8>,
    asker: &Asker,
    kind: Option<AcctKind>,
    task: &[u8],
    arguments: &[Bytes],
    said: &Option<Said>,
) -> io::Result<()>
    ensures { OnOk result (AddsTold out.old.items out.new.items
        (told_as (readings.Account asker.now kind task.now arguments.now) said.now)) }
{
    match said {
        Some(said) => write_account(out, asker, kind, task, arguments, said),
        None => Ok(()),
    }
}

// What is told of a login, where its reply is a last one.
fn write_if_login(out: &mut Vec<u8>, asker: &Asker, said: &Option<Said>) -> io::Result<()>
    ensures { OnOk result (AddsTold out.old.items out.new.items
        (told_as (readings.Login asker.now) said.now)) }
{
    match said {
        Some(said) => write_login(out, asker, said),
        None => Ok(()),
    }
}

// What is told of a packet that was read so, by what its last reply says.
fn write_told(out: &mut Vec<u8>, reading: &Reading, said: &Option<Said>) -> io::Result<()>
    ensures { OnOk result
        (AddsTold out.old.items out.new.items (told_as reading.now said.now)) }
{
    match reading {
        Reading::GoesOn => Ok(()),
        Reading::Login(asker) => write_if_login(out, asker, said),
        Reading::Command {
            asker,
            arguments,
            line,
        } => write_if_command(out, asker, arguments.as_slice(), line, said),
        Reading::Account {
            asker,
            kind,
            task,
            arguments,
        } => write_if_account(
            out,
            asker,
            *kind,
            task.as_slice(),
            arguments.as_slice(),
            said,
        ),
        Reading::BadBody => write_refused(out, Why::BadBody),
        Reading::Unserved => write_refused(out, Why::UnservedType),
        Reading::OutOfTurn => write_refused(out, Why::OutOfTurn),
        Reading::Aborted => write_refused(out, Why::Aborted),
    }
}

// Whether anything is told of it.
fn is_told(reading: &Reading, said: &Option<Said>) -> bool
    ensures { result ≡ is_some (told_as reading.now said.now) }
{
    match reading {
        Reading::GoesOn => false,
        Reading::Login(_) | Reading::Command { .. } | Reading::Account { .. } => said.is_some(),
        _ => true,
    }
}

// ---- lines

#[tactic(auto, unfolding(crate::specs::Event::begun, crate::specs::Json::optional_json))]
fn write_begun(out: &mut Vec<u8>, time: Option<&Bytes>) -> Result<(), AllocError>
    ensures { OnOk result
        (out.new.items ≡ out.old.items ++ lines.begun (option_copied time.entry)) }
{
    out.extend_from_slice(b"{\"time\":")?;
    match time {
        Some(time) => write_text(out, time.as_slice()),
        None => out.extend_from_slice(b"null"),
    }
}

#[tactic(auto, unfolding(crate::specs::Event::ended))]
fn write_ended(out: &mut Vec<u8>) -> Result<(), AllocError>
    ensures { OnOk result (out.new.items ≡ out.old.items ++ lines.ended) }
{
    out.extend_from_slice(b"}\n")
}

// When, on which session of which device.
fn write_head(
    out: &mut Vec<u8>,
    time: Option<&Bytes>,
    origin: &Origin,
    session: u32,
) -> Result<(), AllocError>
    ensures { OnOk result (out.new.items ≡ out.old.items
        ++ (lines.begun (option_copied time.entry) ++ lines.origin_json origin.now
        ++ json.member SESSION.now (json.text_json (lines.session_digits session)))) }
{
    write_begun(out, time)?;
    write_origin(out, origin)?;
    write_member(out, SESSION, &session_digits(session))
}

const SESSION: &[u8] = b"session";

// The line of a header that is refused.
fn write_bad_header(
    out: &mut Vec<u8>,
    time: Option<&Bytes>,
    origin: &Origin,
    header: &Header,
) -> io::Result<()>
    ensures { OnOk result (AddsLine (option_copied time.entry) origin.now
        out.old.items out.new.items (Some (bad_header header.now))) }
{
    write_head(out, time, origin, header.session)?;
    write_refused(out, Why::BadHeader)?;
    write_ended(out)?;
    Ok(())
}

// The line of a packet whose last reply says so, and whether it has one.
#[tactic(auto, using(crate::proofs::LineFacts::none_told, crate::proofs::LineFacts::head_told_end))]
fn write_packet(
    out: &mut Vec<u8>,
    time: Option<&Bytes>,
    origin: &Origin,
    received: &Received,
    said: &Option<Said>,
) -> io::Result<bool>
    ensures told { IfOk result (λ has. has ≡ is_some (told_as received.now.reading said.now)) }
    ensures line { OnOk result (AddsLine (option_copied time.entry) origin.now
        out.old.items out.new.items
        (noted received.now.session (told_as received.now.reading said.now))) }
{
    if !is_told(&received.reading, said) {
        return Ok(false);
    }
    write_head(out, time, origin, received.session)?;
    write_told(out, &received.reading, said)?;
    write_ended(out)?;
    Ok(true)
}

// The line of a notice, and whether it has one.
fn write_notice(
    alloc: Global,
    out: &mut Vec<u8>,
    time: Option<&Bytes>,
    origin: &Origin,
    notice: &Notice,
) -> io::Result<bool>
    ensures told { IfOk result (λ has. has ≡ is_some (noted_of notice.now)) }
    ensures line { OnOk result (AddsLine (option_copied time.entry) origin.now
        out.old.items out.new.items (noted_of notice.now)) }
{
    match notice {
        Notice::Packet(received, reply) => {
            let said = said_in(alloc, reply.as_ref())?;
            write_packet(out, time, origin, received, &said)
        }
        Notice::BadHeader(header) => {
            write_bad_header(out, time, origin, header)?;
            Ok(true)
        }
    }
}

// What most lines have room in.
const ROOM: usize = 512;

/// Adds the line of a notice of this origin, with its LF: one JSON object (RFC 8259). Nothing is
/// told, and nothing added, while a login goes on. Answers whether there is a line. The error means
/// that memory ran out, and then a part of the line may have been added. Linear in what is told.
#[tactic(auto, using(crate::proofs::EventsApart::events_apart))]
pub fn push_line(
    alloc: Global,
    out: &mut Vec<u8>,
    time: Option<&Bytes>,
    origin: &Origin,
    notice: &Notice,
) -> Result<bool, AllocError>
    ensures told { IfOk result (λ has. has ≡ is_some (noted_of notice.now)) }
    ensures line { OnOk result (AddsLine (option_copied time.entry) origin.now
        out.old.items out.new.items (noted_of notice.now)) }
    // What is told is read back from the line: events with the same line are the same.
    ensures apart { (a b : EventValue) → AreApart a b }

    // Neither the data of a START nor what was typed in a login is told.
    ensures unsaid { (start : StartValue) (secret : List ℕ) (said : Option SaidValue) →
        told_as (start_as (Some (record start { extra = secret }))) said
        ≡ told_as (start_as (Some start)) said }
    ensures untyped { (asker : AskerValue) (answer : ContinueValue) (typed extra : List ℕ)
        (said : Option SaidValue) →
        told_as (answer_as asker (record answer { user_msg = typed; extra = extra })) said
        ≡ told_as (answer_as asker answer) said }
{
    out.reserve(ROOM)?;
    match write_notice(alloc, out, time, origin, notice) {
        Ok(is_told) => Ok(is_told),
        Err(_) => Err(AllocError),
    }
}

// How many bytes an answer has, where that is told.
fn write_size(out: &mut Vec<u8>, size: Option<u64>) -> io::Result<()>
    ensures { OnOk result (out.new.items ≡ out.old.items ++ lines.size_json size) }
{
    match size {
        Some(size) => write_number(out, b"answer_bytes", size),
        None => Ok(()),
    }
}

const OPERATOR: &[u8] = b"operator";

// Who typed, where operators share the console.
fn write_typist(out: &mut Vec<u8>, typist: &Typist) -> Result<(), AllocError>
    ensures { OnOk result (out.new.items ≡ out.old.items ++ lines.typist_json typist.now) }
{
    match typist {
        Typist::Anyone => Ok(()),
        Typist::Operator(name) => write_owned(out, OPERATOR, name),
    }
}

fn write_typed(out: &mut Vec<u8>, typed: &Typed) -> io::Result<()>
    ensures { OnOk result (out.new.items ≡ out.old.items ++ lines.typed_line typed.now) }
{
    write_begun(out, Some(&typed.time))?;
    write_typist(out, &typed.typist)?;
    write_member(out, b"console", typed.console.as_slice())?;
    write_size(out, typed.answer_bytes)?;
    write_list(out, b"answer", typed.answer.as_slice())?;
    write_ended(out)?;
    Ok(())
}

/// The line of what was typed at the console, with its LF. The error means that memory ran out.
#[tactic(auto, using(crate::proofs::EventsApart::typed_apart))]
pub fn typed_line(alloc: Global, typed: &Typed) -> Result<Vec<u8>, AllocError>
    ensures line { IfOk result (λ line. line.items ≡ lines.typed_line typed.now) }
    // What was typed is read back from the line.
    ensures apart { (a b : TypedValue) → AreTypedApart a b }
{
    let mut out = Vec::new(alloc);
    match write_typed(&mut out, typed) {
        Ok(()) => Ok(out),
        Err(_) => Err(AllocError),
    }
}

#[tactic(auto, unfolding(crate::specs::Event::type_json))]
fn write_turned_away(out: &mut Vec<u8>, turned: &TurnedAway) -> io::Result<()>
    ensures { OnOk result (out.new.items ≡ out.old.items ++ lines.turned_away_line turned.now) }
{
    write_begun(out, Some(&turned.time))?;
    write_origin(out, &turned.origin)?;
    write_member(out, b"type", b"refused")?;
    write_member(out, b"why", turned_away_word(turned.why))?;
    write_number(out, b"count", turned.count)?;
    write_ended(out)?;
    Ok(())
}

/// The line of connections that were refused, with its LF. The error means that memory ran out.
#[tactic(auto, using(crate::proofs::TurnedAwayApart::turned_away_apart, crate::proofs::TurnedAwayApart::is_other))]
pub fn turned_away_line(alloc: Global, turned: &TurnedAway) -> Result<Vec<u8>, AllocError>
    ensures line { IfOk result (λ line. line.items ≡ lines.turned_away_line turned.now) }
    // What was refused is read back from the line.
    ensures apart { (a b : TurnedAwayValue) → AreTurnedAwayApart a b }
    // No line of a packet is one of these.
    ensures other { (event : EventValue) (turned : TurnedAwayValue) → IsOther event turned }
{
    let mut out = Vec::new(alloc);
    match write_turned_away(&mut out, turned) {
        Ok(()) => Ok(out),
        Err(_) => Err(AllocError),
    }
}
